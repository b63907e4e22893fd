ghost use Rattle.std.specs.Prelude.{◌≡◌, ℕ, ◌≤◌};
ghost use Rattle.memory.specs.Bytes.{Cells};
ghost use Rattle.memory.specs.Promise.{Effect, Keeps};
ghost use Rattle.memory.specs.declared.access.Answer.{Answer};

use crate::access::Answer;
use crate::request::AsRequest;

// What every kind of memory promises of the requests that it can be asked.
pub trait Memory<A: AsRequest> {
    // What the memory holds, as far as requests can tell.
    ghost Meaning: { Type 0 };

    ghost means: { Self → Meaning };

    // What a request does when it is not made to wait: nothing where it is absent, else the value answered and the meaning
    // after it.
    ghost does: { Meaning → A → Effect Meaning };

    // The byte or the word that an address shows, or nothing.
    ghost shows: { Meaning → Cells };

    // How many waits are open for a request.
    ghost waits: { Self → A → ℕ };

    // The condition under which the promises hold, as a kind of memory may name it: true of a new memory, kept by every call.
    ghost sound: { Self → Type 0 };

    // What no call changes, and the longest wait by it.
    ghost Fixed: { Type 0 };

    ghost fixed: { Self → Fixed };

    ghost longest: { Fixed → ℕ };

    // The kind's exact behaviour: asked so in that state, so it answers and so it is left.
    ghost behaves: { Self → A → Answer → Self → Type 0 };

    // Asks once.
    fn ask(&mut self, asked: A) -> Answer
        requires { sound self.old }
        ensures keeps { Keeps sound means waits fixed does self.old asked result self.new }
        ensures exact { behaves self.old asked result self.new };

    // The open waits never pass the longest.
    ghost bounded: { (s : Self) (x : A) → sound s → waits s x ≤ longest (fixed s) };
}
