// How much storage uses at most, and the refusal of more.
ghost use Rattle.std.specs.Prelude.{◌≡◌, Some};
ghost use Rattle.storage.specs.Limits.{refusal_number, refusal_text, checked_by};

use std::error::Error;
use std::fmt;

// Why a memory is refused when it is checked, by the number of each refusal.
#[derive(Clone, Copy, Debug, PartialEq, Eq, Hash)]
pub enum LimitRefusal {
    // There are more words or bytes than it uses.
    TooLong = 1,
}

impl LimitRefusal {
    // The number by which the refusal is known.
    pub fn number(self) -> u8
        ensures { result ≡ refusal_number self }
    {
        self as u8
    }
}

impl fmt::Display for LimitRefusal {
    ghost output = { λ refusal. Some (refusal_text refusal) };

    fn fmt<W: fmt::Write>(&self, f: &mut fmt::Formatter<W>) -> fmt::Result {
        match self {
            LimitRefusal::TooLong => f.write_str("more words or bytes than the memory uses"),
        }
    }
}

impl Error for LimitRefusal {}

// Whether a memory that uses so many words or bytes at most uses all that there are. The `check` of each kind is one call of this
// with its limit: a trait for the three calls would be longer than they are.
pub(crate) fn check_length(limit: usize, length: usize) -> Result<(), LimitRefusal>
    ensures { result ≡ checked_by limit length }
{
    if length <= limit {
        Ok(())
    } else {
        Err(LimitRefusal::TooLong)
    }
}
