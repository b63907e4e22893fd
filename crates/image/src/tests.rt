// An example for each public function.
use super::{Ends, Fault, Kind, Reader, Refusal, load};
use std::test::Fail;

const ENDS: Ends = Ends {
    program: 12,
    data: 0,
};

// The program word 0x04030201 at address 8, and the end.
fn image() -> [u8; 1024] {
    let mut image = [0; 1024];
    image[4..16].copy_from_slice(&[1, 0, 4, 0, 8, 0, 0, 0, 1, 2, 3, 4]);
    image[508..517].copy_from_slice(&[10, 2, 7, 4, 1, 0, 0, 0, 3]);
    image[1020] = 4;
    image
}

// The number and the block of a refusal, or zeros.
fn numbers(answer: Result<(), Refusal>) -> (u8, usize) {
    answer
        .err()
        .map_or((0, 0), |refusal| (refusal.fault.number(), refusal.block))
}

#[test]
fn faults_have_numbers(rt: HostRuntime) {
    assert!(rt; Fault::Size.number() == 3 && Fault::End.number() == 10);
}

#[test]
fn kinds_have_bytes_and_names(rt: HostRuntime) -> Result<(), Fail> {
    assert_eq!(rt; Kind::try_from(2), Ok(Kind::Data));
    assert_eq!(rt; Kind::try_from(4), Err(Fault::Kind));
    assert!(rt; format!(in rt.alloc(); "{}", Kind::End)?.as_str() == "end");
    assert!(rt; format!(in rt.alloc(); "{}", Fault::Stray)?.as_str() == "stray byte");
    Ok(())
}

#[test]
fn memories_have_ends(rt: HostRuntime) {
    assert_eq!(rt; Ends::of(&[7; 3], &[]), ENDS);
}

#[test]
fn reads_blocks(rt: HostRuntime) -> Result<(), Fail> {
    let image = image();
    let mut reader = Reader::new(&image, ENDS)?;
    let block = reader.next()?.ok_or("the first block is sound")?;
    assert!(rt; block.place == 0 && block.kind == Kind::Program);
    assert!(rt; block.address == 8 && block.payload == [1, 2, 3, 4].as_slice());
    Ok(())
}

#[test]
fn blocks_end_at_a_refusal(rt: HostRuntime) -> Result<(), Fail> {
    let mut image = image();
    image[1020] = 5;
    let mut blocks = Reader::new(&image, ENDS)?.into_iter();
    let first = blocks.next().ok_or("the first block is there")?;
    assert!(rt; first?.address == 8);
    let second = blocks.next().ok_or("the second block is there")?;
    assert!(rt; numbers(second.map(drop)) == (4, 1));
    assert!(rt; blocks.next().is_none());
    Ok(())
}

#[test]
fn checks_images(rt: HostRuntime) {
    let image = image();
    let small = Ends {
        program: 11,
        data: 12,
    };
    assert!(rt; numbers(super::check(&image, ENDS)) == (0, 0));
    assert!(rt; numbers(super::check(&[], ENDS)) == (3, 0));
    assert!(rt; numbers(super::check(&image, small)) == (8, 0));
}

#[test]
fn loads_whole_images(rt: HostRuntime) {
    let mut program = [7; 3];
    let answer = load(&image(), &mut program, &mut []);
    assert!(rt; numbers(answer) == (0, 0) && program == [7, 7, 0x0403_0201]);
}

#[test]
fn refused_images_change_nothing(rt: HostRuntime) {
    let mut image = image();
    image[1020] = 5;
    let mut program = [7; 3];
    let answer = load(&image, &mut program, &mut []);
    assert!(rt; numbers(answer) == (4, 1) && program == [7; 3]);
}
