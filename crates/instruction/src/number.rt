// Fields made from plain numbers, and why one is refused.
ghost use Rattle.std.specs.Prelude.{◌≡◌, ℕ, ◌≤◌, ◌^◌, ◌<◌, Some, MatchResult};
ghost use Rattle.instruction.specs.Numbers.{refusal_number, refusal_text, MadeFrom};

use crate::field::{Immediate, Offset, Register, ShiftAmount};
use std::error::Error;
use std::fmt;

// Why no field is made: the number does not fit its width, or no special register has it.
#[derive(Clone, Copy, Debug, PartialEq, Eq, Hash)]
pub enum FieldRefusal {
    OutOfRange = 15,
}

impl FieldRefusal {
    // The number by which the refusal is known.
    pub fn number(self) -> u8
        ensures { result ≡ refusal_number self }
    {
        self as u8
    }
}

impl fmt::Display for FieldRefusal {
    ghost output = { λ refusal. Some (refusal_text refusal) };

    fn fmt<W: fmt::Write>(&self, f: &mut fmt::Formatter<W>) -> fmt::Result {
        match self {
            FieldRefusal::OutOfRange => f.write_str("the number is out of range"),
        }
    }
}

impl Error for FieldRefusal {}

// `number`, if it is below `limit`.
fn below(number: u32, limit: u32) -> Result<u32, FieldRefusal>
    ensures { MatchResult result (λ made. (made ≡ number) × (made < limit)) (λ _. limit ≤ number) }
{
    if number < limit {
        Ok(number)
    } else {
        Err(FieldRefusal::OutOfRange)
    }
}

// The general register with a number, 0 to 31.
impl TryFrom<u32> for Register {
    type Error = FieldRefusal;

    ghost try_from_gives = { MadeFrom (λ made. made.index) (2 ^ 5) };

    fn try_from(number: u32) -> Result<Self, FieldRefusal> {
        let index = below(number, 1 << 5)? as u8;
        Ok(Register { index })
    }
}

// The shift amount with a number, 0 to 31.
impl TryFrom<u32> for ShiftAmount {
    type Error = FieldRefusal;

    ghost try_from_gives = { MadeFrom (λ made. made.bits) (2 ^ 5) };

    fn try_from(number: u32) -> Result<Self, FieldRefusal> {
        let bits = below(number, 1 << 5)? as u8;
        Ok(ShiftAmount { bits })
    }
}

// The immediate with a number, 0 to 65,535.
impl TryFrom<u32> for Immediate {
    type Error = FieldRefusal;

    ghost try_from_gives = { MadeFrom (λ made. made.bits) (2 ^ 16) };

    fn try_from(number: u32) -> Result<Self, FieldRefusal> {
        let bits = below(number, 1 << 16)? as u16;
        Ok(Immediate { bits })
    }
}

// The offset with a number, 0 to 2^26 − 1.
impl TryFrom<u32> for Offset {
    type Error = FieldRefusal;

    ghost try_from_gives = { MadeFrom (λ made. made.bits) (2 ^ 26) };

    fn try_from(number: u32) -> Result<Self, FieldRefusal> {
        let bits = below(number, 1 << 26)?;
        Ok(Offset { bits })
    }
}
