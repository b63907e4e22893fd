// Immediates and offsets as the signed numbers that they mean.
ghost use Rattle.std.specs.Prelude.{◌≡◌, ◌*◌, ◌^◌, ◌<◌, ◌≤◌, Some};
ghost use Rattle.notation.specs.Notation.{signed_text};

use instruction::{Immediate, Offset};
use std::fmt;

// Bits as a signed number: from `half` on they mean a negative one.
#[derive(Clone, Copy)]
pub(crate) struct Signed {
    bits: u32,
    half: u32,
    ghost ok: { (bits < 2 * half) × (half ≤ 2 ^ 25) },
}

impl From<Immediate> for Signed {
    ghost from_gives = { λ imm signed. (signed.bits ≡ imm.bits) × (signed.half ≡ 2 ^ 15) };

    fn from(imm: Immediate) -> Self {
        Signed {
            bits: u32::from(imm.bits),
            half: 1 << 15,
        }
    }
}

impl From<Offset> for Signed {
    ghost from_gives = { λ offset signed. (signed.bits ≡ offset.bits) × (signed.half ≡ 2 ^ 25) };

    fn from(offset: Offset) -> Self {
        Signed {
            bits: offset.bits,
            half: 1 << 25,
        }
    }
}

impl fmt::Display for Signed {
    ghost output = { λ s. Some (signed_text s.half s.bits) };

    #[tactic(auto, unfolding(crate::specs::Notation::signed_text))]
    fn fmt<W: fmt::Write>(&self, f: &mut fmt::Formatter<W>) -> fmt::Result {
        if self.bits < self.half {
            write!(f, "{}", self.bits)
        } else {
            write!(f, "-{}", 2 * self.half - self.bits)
        }
    }
}
