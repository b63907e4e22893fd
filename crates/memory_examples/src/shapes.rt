// Memories as a machine is lent them: any program memory and any data memory, asked in one call.
ghost use Rattle.std.specs.Prelude.{◌≡◌, ◌⊎◌};
ghost use Rattle.memory.specs.Bytes.{fetched};
ghost use Rattle.memory.specs.Calls.{AskedOnce, FetchAsked, FetchSettled, Settles};
ghost use Rattle.memory.specs.Promise.{answer_of};
ghost use Rattle.memory.specs.declared.access.Access.TheVariants.{Load};
ghost use Rattle.memory.specs.declared.access.Answer.TheVariants.{Wait};

use memory::{Access, Answer, DataMemory, Memory, ProgramMemory, settle, settle_fetch};

// The conditions stay clauses: a struct of both memories could keep them as a ghost field only if they were propositions, and a
// kind may name any condition.

// Asks each memory once, as a tick of a pipeline does.
pub fn ask_each_once<P: ProgramMemory, D: DataMemory>(
    program: &mut P,
    data: &mut D,
    address: u32,
    access: Access,
) -> (Answer, Answer)
    requires program_sound { P.sound program.old }
    requires data_sound { D.sound «data».old }
    ensures fetched { FetchAsked ⟦<P as Memory<u32>>⟧ program.old address result.0 program.new }
    ensures accessed { AskedOnce ⟦<D as Memory<Access>>⟧ «data».old access result.1 «data».new }
{
    (program.fetch(address), data.ask(access))
}

// Asks each memory until it has answered, as a step of a machine without a pipeline does.
pub fn settle_each<P: ProgramMemory, D: DataMemory>(
    program: &mut P,
    data: &mut D,
    address: u32,
    access: Access,
) -> (Option<u32>, Option<u32>)
    requires program_sound { P.sound program.old }
    requires data_sound { D.sound «data».old }
    ensures fetched { FetchSettled ⟦<P as Memory<u32>>⟧ program.old address result.0 program.new }
    ensures accessed { Settles ⟦<D as Memory<Access>>⟧ «data».old access result.1 «data».new }
{
    (settle_fetch(program, address), settle(data, access))
}

// Asks for the word at an address, of a data memory whose kind is known only when this runs.
pub fn load_word(memory: &mut dyn DataMemory, address: u32) -> Answer
    requires { sound memory.old }
    ensures answer { let kind = ⟦<dyn DataMemory as DataMemory>⟧ memory.old.0 in (result ≡ Wait) ⊎ (result ≡ answer_of (kind.does (kind.means memory.old.1) (Load address 4))) }
    ensures stays { sound memory.new }
{
    memory.load(address, 4)
}

// The same of a program memory.
pub fn fetch_word(memory: &mut dyn ProgramMemory, address: u32) -> Answer
    requires { sound memory.old }
    ensures answer { let kind = ⟦<dyn ProgramMemory as ProgramMemory>⟧ memory.old.0 in (result ≡ Wait) ⊎ (result ≡ answer_of (fetched (kind.shows (kind.means memory.old.1)) address)) }
    ensures stays { sound memory.new }
{
    memory.fetch(address)
}
