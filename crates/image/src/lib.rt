// An image: blocks of 512 bytes, each checked before it is used, loaded whole or not at all.
//
// A block, all numbers lowest byte first: its number (bytes 0 to 3), its kind (4), a zero (5), its
// count of payload bytes (6 and 7), its address (8 to 11), the payload (12 to 507) and its check
// (508 to 511), the sum of the 127 words before it, modulo 2^32.
#![tactic(auto)]

ghost use Rattle.std.specs.Prelude.{◌≡◌};
ghost use Rattle.image.specs.Format.{end_for};
ghost use Rattle.image.specs.Rules.{fault_number};
ghost use Rattle.image.specs.Reading.{ReadsKind};
ghost use Rattle.image.specs.Load.{ends_of};

mod block;
mod bytes;
mod display;
mod loader;
mod reader;

pub use block::Block;
pub use loader::load;
pub use reader::{Blocks, IMAGE_MAX, Reader, check};

// What a block holds, by the byte that says so.
#[derive(Clone, Copy, Debug, PartialEq, Eq, Hash)]
pub enum Kind {
    Program = 1,
    Data = 2,
    End = 3,
}

impl TryFrom<u8> for Kind {
    type Error = Fault;

    ghost try_from_gives = { ReadsKind };

    fn try_from(byte: u8) -> Result<Kind, Fault> {
        match byte {
            1 => Ok(Kind::Program),
            2 => Ok(Kind::Data),
            3 => Ok(Kind::End),
            _ => Err(Fault::Kind),
        }
    }
}

// The rule that is broken, in the order in which the rules are looked at, with the refusal's number.
#[derive(Clone, Copy, Debug, PartialEq, Eq, Hash)]
pub enum Fault {
    // The image has 0 bytes, more than 65,536, or no multiple of 512.
    Size = 3,
    // The check is not the sum of the words before it.
    Check = 4,
    // The number is not the block's place.
    Number = 5,
    // The kind is not 1, 2 or 3, or byte 5 is not 0.
    Kind = 6,
    // The count is above 496, no multiple of 4, or not 0 in an end block.
    Count = 7,
    // The address is no multiple of 4, not 0 in an end block, or the payload passes the memory's end.
    Address = 8,
    // A payload byte beyond the count is not 0.
    Stray = 9,
    // An end block stands before the last block, or the last block is no end block.
    End = 10,
}

impl Fault {
    // The number by which the refusal is known.
    pub fn number(self) -> u8
        ensures { result ≡ fault_number self }
    {
        self as u8
    }
}

// A broken rule, and the place of the block that breaks it.
#[derive(Clone, Copy, Debug, PartialEq, Eq, Hash)]
pub struct Refusal {
    pub fault: Fault,
    pub block: usize,
}

// The lengths in bytes of the two memories.
#[derive(Clone, Copy, Debug, PartialEq, Eq, Hash)]
pub struct Ends {
    pub program: usize,
    pub data: usize,
}

impl Ends {
    // The ends of these memories: a word of the program has four bytes.
    pub fn of(program: &[u32], data: &[u8]) -> Ends
        ensures { result ≡ ends_of program.now «data».now }
    {
        Ends {
            program: 4 * program.len(),
            data: data.len(),
        }
    }

    // The end of the memory that a block of a kind is for; an end block has no memory.
    pub(crate) fn end_for(self, kind: Kind) -> usize
        ensures { result ≡ end_for kind self }
    {
        match kind {
            Kind::Program => self.program,
            Kind::Data => self.data,
            Kind::End => 0,
        }
    }
}

#[cfg(test)]
mod tests;
