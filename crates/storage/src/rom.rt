// ROM over the caller's words.
ghost use Rattle.std.specs.Prelude.{◌≡◌, ℕ, List, length};
ghost use Rattle.std.proofs.Common.{rules};
ghost use Rattle.std.specs.Borrow.{Bor};
ghost use Rattle.memory.specs.Bytes.{Cells, fetched};
ghost use Rattle.memory.specs.Promise.{answer_of};
ghost use Rattle.storage.specs.Contents.{rom_words};
ghost use Rattle.storage.specs.Limits.{checked_by};

use crate::limit::{LimitRefusal, check_length};
use memory::{Answer, ProgramMemory};

// The most words that ROM uses.
pub const ROM_LIMIT: usize = 16384;

// A program memory over the caller's words, from address 0. It never waits.
#[derive(Drop)]
pub struct Rom<'a> {
    words: &'a [u32],
}

impl<'a> Rom<'a> {
    // Whether ROM uses all of these words.
    pub fn check(words: &[u32]) -> Result<(), LimitRefusal>
        ensures { result ≡ checked_by 16384 (length words.now) }
    {
        check_length(ROM_LIMIT, words.len())
    }

    // ROM over these words, of which it uses at most the first 16,384.
    pub fn new(words: &'a [u32]) -> Rom<'a>
        ensures { result.words.now ≡ words.now }
    {
        Rom { words }
    }
}

impl<'a> ProgramMemory for Rom<'a> {
    ghost Meaning = { Cells };

    ghost means = { λ s. rom_words s.words.now };

    ghost does = { fetched };

    ghost shows = { λ m. m };

    ghost waits = { λ _ _. 0 };

    ghost sound = { λ _. Unit {0} };

    ghost Fixed = { Bor (List ℕ) };

    ghost fixed = { λ s. s.words };

    ghost longest = { λ _. 0 };

    ghost behaves = { λ s address r t. (r ≡ answer_of (fetched (rom_words s.words.now) address)) × (t ≡ s) };

    fn fetch(&mut self, address: u32) -> Answer {
        Answer::from(self.look(address))
    }

    fn look(&self, address: u32) -> Option<u32> {
        let place = (address / 4) as usize;
        if address % 4 == 0 && place < ROM_LIMIT {
            self.words.get(place).copied()
        } else {
            None
        }
    }

    ghost bounded = { Prim.search rules };

    ghost fetches = { Prim.search rules };
}
