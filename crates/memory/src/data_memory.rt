ghost use Rattle.std.specs.Prelude.{◌≡◌, ℕ, ◌≤◌, Option};
ghost use Rattle.memory.specs.Bytes.{Cells};
ghost use Rattle.memory.specs.Promise.{Effect, Keeps, Grounded};
ghost use Rattle.memory.specs.declared.access.Access.{Access};
ghost use Rattle.memory.specs.declared.access.Access.TheVariants.{Load, Store};
ghost use Rattle.memory.specs.declared.access.Answer.{Answer};

use crate::access::{Access, Answer};
use crate::promise::Memory;

// A memory that is asked loads and stores alone. It can be lent as a `&mut dyn DataMemory`: so its members stand here, and no
// supertrait has them that takes an argument, as `Memory` does.
pub trait DataMemory {
    // What the memory holds, as far as accesses can tell.
    ghost Meaning: { Type 0 };

    ghost means: { Self → Meaning };

    // What an access does when it is not made to wait: nothing where it is absent, else the value answered and the meaning
    // after it.
    ghost does: { Meaning → Access → Effect Meaning };

    // The byte that an address shows, or nothing.
    ghost shows: { Meaning → Cells };

    // How many waits are open for an access.
    ghost waits: { Self → Access → ℕ };

    // The condition under which the promises hold, as a kind of memory may name it: true of a new memory, kept by every call.
    ghost sound: { Self → Type 0 };

    // What no call changes, and the longest wait by it.
    ghost Fixed: { Type 0 };

    ghost fixed: { Self → Fixed };

    ghost longest: { Fixed → ℕ };

    // The kind's exact behaviour: asked so in that state, so it answers and so it is left.
    ghost behaves: { Self → Access → Answer → Self → Type 0 };

    // Asks for a load of so many bytes.
    fn load(&mut self, address: u32, width: u32) -> Answer
        requires { sound self.old }
        ensures keeps { Keeps sound means waits fixed does self.old (Load address width) result self.new }
        ensures exact { behaves self.old (Load address width) result self.new };

    // Asks for a store of so many low bytes of a value.
    fn store(&mut self, address: u32, width: u32, value: u32) -> Answer
        requires { sound self.old }
        ensures keeps { Keeps sound means waits fixed does self.old (Store address width value) result self.new }
        ensures exact { behaves self.old (Store address width value) result self.new };

    // The byte that an address shows, without a wait and without a trace.
    fn look(&self, address: u32) -> Option<u8>
        requires { sound self.now }
        ensures { result ≡ shows (means self.now) address };

    // The open waits never pass the longest.
    ghost bounded: { (s : Self) (x : Access) → sound s → waits s x ≤ longest (fixed s) };

    // Only aligned accesses of 1, 2 or 4 bytes that are all shown are done, and a done load answers these.
    ghost grounded: { Grounded does shows };
}

// Every data memory is one that is asked accesses, each by its load or its store.
impl<D: DataMemory> Memory<Access> for D {
    ghost Meaning = { D.Meaning };

    ghost means = { D.means };

    ghost does = { D.does };

    ghost shows = { D.shows };

    ghost waits = { D.waits };

    ghost sound = { D.sound };

    ghost Fixed = { D.Fixed };

    ghost fixed = { D.fixed };

    ghost longest = { D.longest };

    ghost behaves = { D.behaves };

    // Left to itself the compiler calls this, at more than twice the instructions of a load (DECISIONS.md, Memories).
    #[inline(always)]
    fn ask(&mut self, access: Access) -> Answer {
        match access {
            Access::Load { address, width } => self.load(address, width),
            Access::Store {
                address,
                width,
                value,
            } => self.store(address, width, value),
        }
    }

    ghost bounded = { D.bounded };
}
