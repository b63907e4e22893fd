// An example; all instructions are shown by the crate `word_vectors`.
use crate::Assembly;
use instruction::decode;
use std::test::Fail;

#[test]
fn text_is_the_assembly_notation(rt: HostRuntime) -> Result<(), Fail> {
    let Some(branch) = decode(0x1060fff8) else {
        return Err(Fail::new("0x1060fff8 is a branch"));
    };
    let text = format!(in rt.alloc(); "{}", Assembly(branch))?;
    assert!(rt; text.as_str() == "beqz r3, -8");
    Ok(())
}
