// Loading an image: whole, or not at all.
ghost use Rattle.std.specs.Prelude.{◌≡◌, ◌+◌, ◌/◌, ◌≤◌, length, None};
ghost use Rattle.image.specs.Format.{kind_number};
ghost use Rattle.image.specs.Rules.{first_refusal, told_by, told_of};
ghost use Rattle.image.specs.Load.{put_words, put_bytes, words_with, bytes_with, Room, ends_of, Loaded};
ghost use Rattle.image.specs.Laws.{Accepted, LoadLaw};

use crate::block::Block;
use crate::reader::{Reader, check};
use crate::{Ends, Kind, Refusal};

// Puts each block into its memory, in file order. A refused image changes nothing.
pub fn load(image: &[u8], program: &mut [u32], data: &mut [u8]) -> Result<(), Refusal>
    ensures told { told_by result ≡ told_of image.now (ends_of program.old «data».old) }
    ensures answer { Loaded image.now program.old «data».old result program.new «data».new }
    ensures law { LoadLaw image.now program.old «data».old result program.new «data».new }
{
    check(image, Ends::of(program, data))?;
    put_blocks(image, program, data)
}

// Puts the blocks of an accepted image, so that no block is refused.
// The two memories stay two slices: `load` is lent them apart, and each clause says of one what becomes of it, so that a struct of both
// would be made in `load` and taken apart in every clause.
fn put_blocks(image: &[u8], program: &mut [u32], data: &mut [u8]) -> Result<(), Refusal>
    requires unrefused { first_refusal image.now (ends_of program.old «data».old) ≡ None }
    requires accepted { Accepted image.now (ends_of program.old «data».old) }
    ensures answer { Loaded image.now program.old «data».old result program.new «data».new }
    ensures law { LoadLaw image.now program.old «data».old result program.new «data».new }
{
    for block in Reader::new(image, Ends::of(program, data))? {
        put_block(&block?, program, data);
    }
    Ok(())
}

// Puts one block's payload at its address.
fn put_block(block: &Block, program: &mut [u32], data: &mut [u8])
    requires { Room (kind_number block.now.kind) block.now.address block.now.payload.now (length program.old) (length «data».old) }
    ensures words { program.new ≡ words_with (kind_number block.now.kind) block.now.address block.now.payload.now program.old }
    ensures bytes { «data».new ≡ bytes_with (kind_number block.now.kind) block.now.address block.now.payload.now «data».old }
{
    match block.kind {
        Kind::Program => put_words(program, (block.address / 4) as usize, block.payload),
        Kind::Data => put_bytes(data, block.address as usize, block.payload),
        Kind::End => {}
    }
}

fn put_words(program: &mut [u32], at: usize, payload: &[u8])
    requires { at + length payload.now / 4 ≤ length program.old }
    ensures { program.new ≡ put_words program.old at payload.now (length payload.now / 4) }
{
    let (words, _) = payload.as_chunks::<4>();
    // Over `program[at..].iter_mut().zip(words)` the goal `returns` stays: a proof knows no word that was written through it.
    for (i, word) in words.iter().enumerate() {
        program[at + i] = u32::from_le_bytes(*word);
    }
}

fn put_bytes(data: &mut [u8], at: usize, payload: &[u8])
    requires { at + length payload.now ≤ length «data».old }
    ensures { «data».new ≡ put_bytes «data».old at payload.now }
{
    data[at..at + payload.len()].copy_from_slice(payload);
}
