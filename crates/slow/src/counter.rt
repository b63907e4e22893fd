// Counting waits: all of them before each new request, and none once they are given.
ghost use Rattle.std.specs.Prelude.{◌≡◌, if◌then◌else◌, nat_lt};
ghost use Rattle.slow.specs.Waits.{given_to, remaining, new_counter, after_own_wait, after_below};

use crate::counter_state::{WaitCounter, Waiting};
use memory::{Answer, Request};

// The most waits that a slow memory adds.
pub const WAITS_LIMIT: u32 = 255;

impl WaitCounter {
    pub(crate) fn new(waits: u32) -> WaitCounter
        ensures { result ≡ new_counter waits }
    {
        WaitCounter {
            own: waits.min(WAITS_LIMIT),
            waiting: None,
        }
    }

    // How many own waits this request was given, if it is the one that waits.
    fn given_to(&self, request: Request) -> u32
        ensures { result ≡ given_to self.now request }
    {
        match self.waiting {
            Some(waiting) if waiting.request == request => waiting.given,
            _ => 0,
        }
    }

    // Whether the request waits now, for an own wait, which is counted.
    pub(crate) fn hold(&mut self, request: Request) -> bool
        ensures held { result ≡ nat_lt 0 (remaining self.old request) }
        ensures after { self.new ≡ (if result then after_own_wait self.old request else self.old) }
    {
        if self.own == 0 {
            return false;
        }
        match &mut self.waiting {
            // Counted in place: a request which is written anew with each wait costs twice the time (DECISIONS.md, Memories).
            Some(waiting) if waiting.request == request => {
                if waiting.given >= self.own {
                    return false;
                }
                waiting.given += 1;
            }
            waiting => *waiting = Some(Waiting { request, given: 1 }),
        }
        true
    }

    // Notes what the memory below answered.
    pub(crate) fn pass(&mut self, request: Request, answer: Answer)
        ensures { self.new ≡ after_below self.old request answer }
    {
        self.waiting = match answer {
            Answer::Wait => Some(Waiting {
                request,
                given: self.given_to(request),
            }),
            Answer::Done(_) | Answer::Absent => None,
        };
    }
}
