// Examples of each public function; many more words are read and written by the crate `word_vectors`.
use crate::{
    AluOp, Condition, FieldRefusal, Immediate, Instruction, LoadKind, Offset, Register, Relations,
    ShiftAmount, ShiftOp, SpecialRegister, StoreKind, decode, encode, worked_words,
};
use std::test::Fail;

#[test]
fn words_are_read(rt: HostRuntime) -> Result<(), Fail> {
    let Some(instruction) = decode(0x00211020) else {
        return Err(Fail::new("0x00211020 is add"));
    };
    let Instruction::Alu { rd, .. } = instruction else {
        return Err(Fail::new("add is a register operation"));
    };
    assert!(rt; rd.index == 2);
    assert!(rt; decode(0x04000000).is_none());
    assert!(rt; worked_words() == 2);
    Ok(())
}

#[test]
fn unused_bits_are_written_as_zero(rt: HostRuntime) -> Result<(), Fail> {
    let Some(instruction) = decode(0xffffffff) else {
        return Err(Fail::new("any word with the opcode of rfe is rfe"));
    };
    assert!(rt; encode(instruction) == 0xfc000000);
    Ok(())
}

fn refusal_of<T: TryFrom<u32, Error = FieldRefusal> + Drop>(number: u32) -> u8 {
    match T::try_from(number) {
        Ok(_) => 0,
        Err(refusal) => refusal.number(),
    }
}

#[test]
fn numbers_that_fit_are_taken(rt: HostRuntime) {
    assert!(rt; Register::try_from(31).is_ok());
    assert!(rt; ShiftAmount::try_from(31).is_ok());
    assert!(rt; Immediate::try_from(65_535).is_ok());
    assert!(rt; Offset::try_from(0x3ffffff).is_ok());
    assert!(rt; SpecialRegister::try_from(5).is_ok());
    assert!(rt; SpecialRegister::Edpc.number() == 4);
}

#[test]
fn numbers_outside_their_width_are_refused(rt: HostRuntime) -> Result<(), Fail> {
    assert!(rt; refusal_of::<Register>(32) == 15);
    assert!(rt; refusal_of::<ShiftAmount>(32) == 15);
    assert!(rt; refusal_of::<Immediate>(65_536) == 15);
    assert!(rt; refusal_of::<Offset>(0x4000000) == 15);
    assert!(rt; refusal_of::<SpecialRegister>(6) == 15);
    let text = format!(in rt.alloc(); "{}", FieldRefusal::OutOfRange)?;
    assert!(rt; text.as_str() == "the number is out of range");
    Ok(())
}

const LESS_OR_GREATER: Relations = Relations {
    greater: true,
    equal: false,
    less: true,
};

#[test]
fn relations_have_codes(rt: HostRuntime) {
    assert!(rt; u32::from(LESS_OR_GREATER) == 5);
    assert_eq!(rt; Relations::from(5), LESS_OR_GREATER);
}

#[test]
fn registers_and_operations_are_shown(rt: HostRuntime) -> Result<(), Fail> {
    let r31 = Register { index: 31 };
    let registers = format!(in rt.alloc(); "{r31} {}", SpecialRegister::Epc)?;
    assert!(rt; registers.as_str() == "r31 epc");
    let accesses = format!(in rt.alloc(); "{} {}", LoadKind::ByteUnsigned, StoreKind::Half)?;
    assert!(rt; accesses.as_str() == "lbu sh");
    let sums = format!(in rt.alloc(); "{} {}", AluOp::SubUnsigned, ShiftOp::RightArithmetic)?;
    assert!(rt; sums.as_str() == "subu sra");
    let tests = format!(in rt.alloc(); "{} {LESS_OR_GREATER}", Condition::Zero)?;
    assert!(rt; tests.as_str() == "beqz sne");
    Ok(())
}
