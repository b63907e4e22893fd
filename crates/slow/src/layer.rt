// A memory that adds waits to each request of the memory below it.
ghost use Rattle.std.specs.Prelude.{◌≡◌, ℕ};
ghost use Rattle.memory.specs.Promise.{Keeps};
ghost use Rattle.slow.specs.Behaviour.{Delays, open_waits};
ghost use Rattle.slow.specs.Repetition.{Repetition};
ghost use Rattle.slow.specs.Waits.{new_counter};

use crate::counter_state::WaitCounter;
use memory::{Answer, AsRequest, Memory};

// A memory that makes each request wait before it asks the memory below. It begins anew when the request differs from the one
// before or that one has ended.
#[derive(Drop)]
pub struct Slow<M> {
    pub(crate) counter: WaitCounter,
    pub(crate) below: M,
}

impl<M> Slow<M> {
    // A slow memory that adds so many waits, at most 255, to each request of the memory below.
    pub fn new(waits: u32, below: M) -> Slow<M>
        ensures counter { result.counter ≡ new_counter waits }
        ensures below { result.below ≡ below }
    {
        Slow {
            counter: WaitCounter::new(waits),
            below,
        }
    }

    // The memory below.
    pub fn into_below(self) -> M
        ensures { result ≡ self.below }
    {
        let Slow { counter: _, below } = self;
        below
    }

    // Asks once, whatever sort of memory is below. It keeps what the memory below promises, with its own waits added.
    // Left to itself the compiler calls this, at more than twice the instructions of a load (DECISIONS.md, Memories).
    #[inline(always)]
    pub fn ask<A: AsRequest>(&mut self, asked: A) -> Answer
    where
        M: Memory<A>,
        requires { M.sound self.old.below }
        ensures keeps { Keeps {S = Slow M} {K = ℕ × M.Fixed} (λ s. M.sound s.below) (λ s. M.means s.below) (open_waits (λ s. s.counter) (λ s. s.below) A.request M.waits) (λ s. (s.counter.own, M.fixed s.below)) M.does self.old asked result self.new }
        ensures exact { Delays {S = Slow M} (λ s. s.counter) (λ s. s.below) A.request M.behaves self.old asked result self.new }
    {
        let request = asked.as_request();
        if self.counter.hold(request) {
            return Answer::Wait;
        }
        let answer = self.below.ask(asked);
        self.counter.pass(request, answer);
        answer
    }

    // Does nothing; its contract is the law of a request which is repeated until it is answered.
    pub fn repeated<A: AsRequest>()
    where
        M: Memory<A>,
        ensures { Repetition {S = Slow M} (λ s. s.counter) (λ s. s.below) A.request M.behaves M.waits }
    {}
}
