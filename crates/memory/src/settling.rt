// A request which is repeated until it is answered; the open waits fall with each wait.
ghost use Rattle.memory.specs.Calls.{Settles, FetchSettled};

use crate::access::Answer;
use crate::program_memory::ProgramMemory;
use crate::promise::Memory;
use crate::request::AsRequest;

// The value of a load, 0 for a store, the word of a fetch, or nothing where it is absent.
pub fn settle<A: AsRequest, M: Memory<A>>(memory: &mut M, asked: A) -> Option<u32>
    requires { M.sound memory.old }
    ensures { Settles M.Memory memory.old asked result memory.new }
{
    loop {
        match memory.ask(asked) {
            Answer::Done(value) => return Some(value),
            Answer::Absent => return None,
            Answer::Wait => {}
        }
    }
}

// The word at an address, or nothing where it is absent.
pub fn settle_fetch<P: ProgramMemory>(memory: &mut P, address: u32) -> Option<u32>
    requires { P.sound memory.old }
    ensures { FetchSettled ⟦<P as Memory<u32>>⟧ memory.old address result memory.new }
{
    settle(memory, address)
}
