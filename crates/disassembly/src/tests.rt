// An example of a listing, and of a refusal.
use crate::{BlockRow, ListError, list, listing_text};
use image::{Block, Kind};
use std::test::Fail;

// Two program words at address 8, then the second of them again, and the end.
fn image() -> [u8; 1536] {
    let mut image = [0; 1536];
    image[4..20].copy_from_slice(&[1, 0, 8, 0, 8, 0, 0, 0, 0, 0, 0, 0xfc, 0, 0, 0, 4]);
    image[508..512].copy_from_slice(&[9, 0, 8, 0]);
    image[512..528].copy_from_slice(&[1, 0, 0, 0, 1, 0, 4, 0, 12, 0, 0, 0, 0x20, 0x10, 0x21, 0]);
    image[1020..1029].copy_from_slice(&[0x2e, 0x10, 0x25, 0, 2, 0, 0, 0, 3]);
    image[1532] = 5;
    image
}

#[test]
fn lists_what_a_block_wrote(rt: HostRuntime) -> Result<(), Fail> {
    let mut program = [0; 8];
    let mut data = [0; 4];
    let listing = list(rt.alloc(), &image(), &mut program, &mut data)?;
    let text = listing.text(rt.alloc())?;
    assert!(rt;
        text.as_str()
            == "block 0 program address 8 count 8\nblock 1 program address 12 count 4\nblock 2 end address 0 count 0\n00000008 fc000000 rfe\n0000000c 00211020 add r2, r1, r1\n0\n"
    );
    Ok(())
}

#[test]
fn a_refusal_is_one_line(rt: HostRuntime) -> Result<(), Fail> {
    let text = listing_text(rt.alloc(), &[])?;
    assert!(rt; text.as_str() == "refused 3 block 0\n");
    Ok(())
}

#[test]
fn a_refusal_changes_nothing(rt: HostRuntime) -> Result<(), Fail> {
    let mut program = [7; 2];
    let mut data = [0; 4];
    let Err(ListError::Refused(refusal)) = list(rt.alloc(), &image(), &mut program, &mut data)
    else {
        return Err(Fail::new("the payload passes the memory's end"));
    };
    assert!(rt; refusal.fault.number() == 8 && refusal.block == 0);
    let text = format!(in rt.alloc(); "{}", ListError::from(refusal))?;
    assert!(rt; text.as_str() == "refused 8 block 0");
    assert!(rt; program == [7; 2]);
    Ok(())
}

#[test]
fn a_row_says_where_a_block_goes(rt: HostRuntime) {
    let block = Block {
        place: 1,
        kind: Kind::Data,
        address: 4,
        payload: &[7, 8],
    };
    let row = BlockRow {
        place: 1,
        kind: Kind::Data,
        address: 4,
        count: 2,
    };
    assert!(rt; BlockRow::from(block) == row);
}

#[test]
fn want_of_memory_is_told(rt: HostRuntime) -> Result<(), Fail> {
    let text = format!(in rt.alloc(); "{}", ListError::OutOfMemory)?;
    assert!(rt; text.as_str() == "out of memory");
    Ok(())
}
