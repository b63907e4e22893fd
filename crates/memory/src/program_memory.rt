ghost use Rattle.std.specs.Prelude.{◌≡◌, ℕ, ◌≤◌};
ghost use Rattle.memory.specs.Bytes.{Cells, fetched, word_at};
ghost use Rattle.memory.specs.Promise.{Effect, Keeps, Fetches};
ghost use Rattle.memory.specs.declared.access.Answer.{Answer};

use crate::access::Answer;
use crate::promise::Memory;

// A memory of words, at the multiples of 4 below 2^32, that is asked fetches alone, by their address. No call alters its words. It can
// be lent as a `&mut dyn ProgramMemory`, and has its members itself, as a data memory has.
pub trait ProgramMemory {
    // What the memory holds, as far as fetches can tell.
    ghost Meaning: { Type 0 };

    ghost means: { Self → Meaning };

    // What a fetch does when it is not made to wait: nothing where it is absent, else the word answered and the meaning after it.
    ghost does: { Meaning → ℕ → Effect Meaning };

    // The word at each multiple of 4, or nothing.
    ghost shows: { Meaning → Cells };

    // How many waits are open for a fetch at an address.
    ghost waits: { Self → ℕ → ℕ };

    // The condition under which the promises hold, as a kind of memory may name it: true of a new memory, kept by every call.
    ghost sound: { Self → Type 0 };

    // What no call changes, and the longest wait by it.
    ghost Fixed: { Type 0 };

    ghost fixed: { Self → Fixed };

    ghost longest: { Fixed → ℕ };

    // The kind's exact behaviour: asked so in that state, so it answers and so it is left.
    ghost behaves: { Self → ℕ → Answer → Self → Type 0 };

    // Asks for the word at an address.
    fn fetch(&mut self, address: u32) -> Answer
        requires { sound self.old }
        ensures keeps { Keeps sound (λ s. shows (means s)) waits fixed fetched self.old address result self.new }
        ensures still { means self.new ≡ means self.old }
        ensures exact { behaves self.old address result self.new };

    // The word that an address means, without a wait and without a trace.
    fn look(&self, address: u32) -> Option<u32>
        requires { sound self.now }
        ensures { result ≡ word_at (shows (means self.now)) address };

    // The open waits never pass the longest.
    ghost bounded: { (s : Self) (address : ℕ) → sound s → waits s address ≤ longest (fixed s) };

    // A fetch answers the word shown, and alters nothing.
    ghost fetches: { Fetches does shows };
}

// Every program memory is one that is asked addresses, each by its fetch.
impl<P: ProgramMemory> Memory<u32> for P {
    ghost Meaning = { P.Meaning };

    ghost means = { P.means };

    ghost does = { P.does };

    ghost shows = { P.shows };

    ghost waits = { P.waits };

    ghost sound = { P.sound };

    ghost Fixed = { P.Fixed };

    ghost fixed = { P.fixed };

    ghost longest = { P.longest };

    ghost behaves = { P.behaves };

    // In the place of its call, as the `ask` of data memories.
    #[inline(always)]
    fn ask(&mut self, address: u32) -> Answer {
        self.fetch(address)
    }

    ghost bounded = { P.bounded };
}
