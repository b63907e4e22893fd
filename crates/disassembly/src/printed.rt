// All that is printed of an image.
ghost use Rattle.std.specs.Prelude.{◌≡◌, IfOk, string_bytes};
ghost use Rattle.disassembly.specs.Printed.{printed};

use crate::lister::list;
use crate::rows::ListError;
use std::alloc::{AllocError, Global};

// The memories that an image is loaded into: their program words and data bytes, all 0.
pub const PROGRAM_WORDS: usize = 1024;

pub const DATA_BYTES: usize = 4096;

// The listing of an image, or the line of its refusal.
pub fn listing_text(heap: Global, image: &[u8]) -> Result<String, AllocError>
    ensures { IfOk result (λ text. string_bytes text ≡ printed image.now) }
{
    let mut program = vec![in heap; 0u32; PROGRAM_WORDS]?;
    let mut data = vec![in heap; 0u8; DATA_BYTES]?;
    match list(heap, image, &mut program, &mut data) {
        Ok(listing) => listing.text(heap),
        Err(ListError::Refused(refusal)) => format!(in heap; "{refusal}\n"),
        Err(ListError::OutOfMemory) => Err(AllocError),
    }
}
