// A slow data memory over a data memory.
ghost use Rattle.std.specs.Prelude.{ℕ, ◌+◌};
ghost use Rattle.memory.specs.declared.access.Request.TheVariants.{Data};
ghost use Rattle.slow.specs.Behaviour.{Delays, open_waits, sum_bounded};

use crate::layer::Slow;
use memory::{Access, Answer, DataMemory, PlainMemory};

impl<D: DataMemory> DataMemory for Slow<D> {
    ghost Meaning = { D.Meaning };

    ghost means = { λ s. D.means s.below };

    ghost does = { D.does };

    ghost shows = { D.shows };

    ghost waits = { open_waits (λ s. s.counter) (λ s. s.below) Data D.waits };

    ghost sound = { λ s. D.sound s.below };

    ghost Fixed = { ℕ × D.Fixed };

    ghost fixed = { λ s. (s.counter.own, D.fixed s.below) };

    ghost longest = { λ k. k.0 + D.longest k.1 };

    ghost behaves = { Delays (λ s. s.counter) (λ s. s.below) Data D.behaves };

    // In the place of its call, as `ask` is.
    #[inline(always)]
    fn load(&mut self, address: u32, width: u32) -> Answer {
        self.ask(Access::Load { address, width })
    }

    #[inline(always)]
    fn store(&mut self, address: u32, width: u32, value: u32) -> Answer {
        self.ask(Access::Store {
            address,
            width,
            value,
        })
    }

    fn look(&self, address: u32) -> Option<u8> {
        self.below.look(address)
    }

    ghost bounded = { λ s x h. sum_bounded s.counter (Data x) (D.bounded s.below x h) };

    ghost grounded = { D.grounded };
}

// A slow memory over plain bytes is one of plain bytes.
impl<D: PlainMemory> PlainMemory for Slow<D> {
    ghost plainly = { D.plainly };
}
