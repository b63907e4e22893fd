// The waits that a slow memory is checked with, and their refusal.
ghost use Rattle.std.specs.Prelude.{◌≡◌, Some};
ghost use Rattle.slow.specs.Behaviour.{checked_waits, refusal_number, refusal_text};

use crate::counter::WAITS_LIMIT;
use std::error::Error;
use std::fmt;

// Why a slow memory is refused when it is checked, by the number of each refusal.
#[derive(Clone, Copy, Debug, PartialEq, Eq, Hash)]
pub enum WaitsRefusal {
    // There are more waits than it gives.
    TooMany = 2,
}

impl WaitsRefusal {
    // The number by which the refusal is known.
    pub fn number(self) -> u8
        ensures { result ≡ refusal_number self }
    {
        self as u8
    }
}

impl fmt::Display for WaitsRefusal {
    ghost output = { λ refusal. Some (refusal_text refusal) };

    fn fmt<W: fmt::Write>(&self, f: &mut fmt::Formatter<W>) -> fmt::Result {
        match self {
            WaitsRefusal::TooMany => f.write_str("more than 255 waits"),
        }
    }
}

impl Error for WaitsRefusal {}

// Whether a slow memory gives as many waits. Like the refusal and the check of storage: shared, they would need a type for either
// refusal, and be no shorter.
pub fn check_waits(waits: u32) -> Result<(), WaitsRefusal>
    ensures { result ≡ checked_waits waits }
{
    if waits <= WAITS_LIMIT {
        Ok(())
    } else {
        Err(WaitsRefusal::TooMany)
    }
}
