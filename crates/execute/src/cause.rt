// Causes of interrupts. A cause word has bit k for cause k; bits 7 to 31 are the outer lines.
ghost use Rattle.std.specs.Prelude.{◌≡◌};
ghost use Rattle.execute.specs.Causes.{cause_number, with_cause, BitSet, counted_of, Counted, level_of, Lowest};

// The causes that an instruction itself can have.
#[derive(Clone, Copy, Debug, PartialEq, Eq, Hash)]
pub enum Cause {
    // The word is no instruction.
    Illegal = 1,
    // An address is no multiple of the width that is read or written there.
    Misaligned = 2,
    // No word of the program is there.
    NoWord = 3,
    // A byte of a load or a store is absent.
    NoByte = 4,
    // The instruction is a trap.
    Trap = 5,
    // A signed sum or difference overflows.
    Overflow = 6,
}

impl Cause {
    // The number of a cause, and of its bit in a cause word.
    pub fn number(self) -> u32
        ensures { result ≡ cause_number self }
    {
        self as u32
    }
}

// A cause word with one more cause.
pub fn with_cause(causes: u32, cause: Cause) -> u32
    ensures value { result ≡ with_cause causes cause }
    ensures law { BitSet (cause_number cause) causes result }
{
    causes | 1 << cause.number()
}

// The causes that count under a status word: 0 to 5 always, each other one where its bit of the status is 1.
pub fn counted(causes: u32, status: u32) -> u32
    ensures value { result ≡ counted_of causes status }
    ensures law { Counted causes status result }
{
    causes & (status | 0x3f)
}

// The level of an interrupt: the number of the lowest counted cause, if any counts.
pub fn level(counted: u32) -> Option<u32>
    ensures value { result ≡ level_of counted }
    ensures law { Lowest counted result }
{
    (counted != 0).then_some(counted.trailing_zeros())
}
