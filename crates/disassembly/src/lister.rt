// The rows of an image.
ghost use Rattle.std.specs.Prelude.{◌≡◌, ◌≤◌, [], length, vec_capacity};
ghost use Rattle.disassembly.specs.Laws.{ListingLaw};
ghost use Rattle.disassembly.specs.Rows.{word_rows, BlocksListed, Listed};

use crate::cover::{covered_bytes, is_covered};
use crate::rows::{BlockRow, ListError, Listing, WordRow};
use image::{Ends, Kind, Reader, load};
use std::alloc::Global;

// Addresses have 32 bits.
const ADDRESSES: usize = 1 << 32;

// Loads an image into the program words and the data bytes, and lists it. A refusal and want of memory change nothing.
pub fn list(
    heap: Global,
    image: &[u8],
    program: &mut [u32],
    data: &mut [u8],
) -> Result<Listing, ListError>
    ensures law { ListingLaw image.now program.new result }
    ensures answer { Listed image.now program.old «data».old result program.new «data».new }
{
    let blocks = block_rows(heap, image, Ends::of(program, data))?;
    let mut words = Vec::with_capacity(heap, program.len())?;
    load(image, program, data)?;
    word_rows(&mut words, &blocks, program);
    let data_bytes = covered_bytes(&blocks, data.len());
    Ok(Listing {
        blocks,
        words,
        data_bytes,
    })
}

// The rows of the blocks, each checked.
fn block_rows(heap: Global, image: &[u8], ends: Ends) -> Result<Vec<BlockRow>, ListError>
    ensures { BlocksListed image.now ends result }
{
    let mut rows = Vec::new(heap);
    for block in Reader::new(image, ends)? {
        rows.push(BlockRow::from(block?))?;
    }
    Ok(rows)
}

// Adds a row for each word that a block wrote.
fn word_rows(words: &mut Vec<WordRow>, blocks: &[BlockRow], program: &[u32])
    requires empty { words.old.items ≡ [] }
    requires room { length program.now ≤ vec_capacity words.old }
    ensures { words.new.items ≡ word_rows blocks.now program.now (length program.now) }
{
    // `extend` with a chain could fail for want of memory, now that the image is loaded; this cannot.
    for (k, word) in program.iter().enumerate() {
        if is_covered(blocks, Kind::Program, k) {
            words.push_reserved(WordRow {
                address: (4 * k % ADDRESSES) as u32,
                word: *word,
            });
        }
    }
}
