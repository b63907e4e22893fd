// A slow program memory over a program memory.
ghost use Rattle.std.specs.Prelude.{ℕ, ◌+◌};
ghost use Rattle.memory.specs.declared.access.Request.TheVariants.{Fetch};
ghost use Rattle.slow.specs.Behaviour.{Delays, open_waits, sum_bounded};

use crate::layer::Slow;
use memory::{Answer, ProgramMemory};

impl<P: ProgramMemory> ProgramMemory for Slow<P> {
    ghost Meaning = { P.Meaning };

    ghost means = { λ s. P.means s.below };

    ghost does = { P.does };

    ghost shows = { P.shows };

    ghost waits = { open_waits (λ s. s.counter) (λ s. s.below) Fetch P.waits };

    ghost sound = { λ s. P.sound s.below };

    ghost Fixed = { ℕ × P.Fixed };

    ghost fixed = { λ s. (s.counter.own, P.fixed s.below) };

    ghost longest = { λ k. k.0 + P.longest k.1 };

    ghost behaves = { Delays (λ s. s.counter) (λ s. s.below) Fetch P.behaves };

    // In the place of its call, as `ask` is.
    #[inline(always)]
    fn fetch(&mut self, address: u32) -> Answer {
        self.ask(address)
    }

    fn look(&self, address: u32) -> Option<u32> {
        self.below.look(address)
    }

    ghost bounded = { λ s address h. sum_bounded s.counter (Fetch address) (P.bounded s.below address h) };

    ghost fetches = { P.fetches };
}
