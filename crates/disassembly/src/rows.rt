// The rows of a listing.
ghost use Rattle.std.specs.Prelude.{◌≡◌, length, Some};
ghost use Rattle.disassembly.specs.Rows.{row_of};
ghost use Rattle.disassembly.specs.Text.{error_text};
ghost use Rattle.disassembly.specs.declared.rows.ListError.TheVariants.{Refused, OutOfMemory};

use image::{Block, Kind, Refusal};
use std::alloc::{AllocError, AllocFailed};
use std::error::Error;
use std::fmt;

// A block of the image: its place, its kind, and the address and the number of its payload bytes.
#[derive(Clone, Copy, Debug, PartialEq, Eq, Hash)]
pub struct BlockRow {
    pub place: usize,
    pub kind: Kind,
    pub address: u32,
    pub count: usize,
}

impl From<Block<'_>> for BlockRow {
    ghost from_gives = { λ block row. row ≡ row_of block };

    fn from(block: Block<'_>) -> BlockRow {
        BlockRow {
            place: block.place,
            kind: block.kind,
            address: block.address,
            count: block.payload.len(),
        }
    }
}

// A program word that a block wrote, and its address in bytes, which has 32 bits.
#[derive(Clone, Copy, Debug, PartialEq, Eq, Hash)]
pub struct WordRow {
    pub address: u32,
    pub word: u32,
}

// All of an image: every block in file order, every program word that a block wrote in address order, and the number of data
// bytes that a block wrote.
#[derive(Debug, PartialEq, Eq, Hash, Drop)]
pub struct Listing {
    pub blocks: Vec<BlockRow>,
    pub words: Vec<WordRow>,
    pub data_bytes: usize,
}

// Why there is no listing.
#[derive(Clone, Copy, Debug, PartialEq, Eq, Hash)]
pub enum ListError {
    Refused(Refusal),
    OutOfMemory,
}

impl fmt::Display for ListError {
    ghost output = { λ error. Some (error_text error) };

    fn fmt<W: fmt::Write>(&self, f: &mut fmt::Formatter<W>) -> fmt::Result {
        match self {
            ListError::Refused(refusal) => write!(f, "{refusal}"),
            ListError::OutOfMemory => write!(f, "out of memory"),
        }
    }
}

impl Error for ListError {}

impl From<Refusal> for ListError {
    ghost from_gives = { λ refusal r. r ≡ Refused refusal };

    fn from(refusal: Refusal) -> ListError {
        ListError::Refused(refusal)
    }
}

impl From<AllocError> for ListError {
    ghost from_gives = { λ _ r. r ≡ OutOfMemory };

    fn from(_error: AllocError) -> ListError {
        ListError::OutOfMemory
    }
}

impl<T: Drop> From<AllocFailed<T>> for ListError {
    ghost from_gives = { λ _ r. r ≡ OutOfMemory };

    fn from(_error: AllocFailed<T>) -> ListError {
        ListError::OutOfMemory
    }
}
