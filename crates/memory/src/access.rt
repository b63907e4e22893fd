// What memories are asked, and what they answer.
ghost use Rattle.std.specs.Prelude.{◌≡◌, Some};
ghost use Rattle.memory.specs.Promise.{answer_text, answer_with};

use std::fmt;

// A load or a store. The width is the number of bytes, lowest first; a memory answers absent where it is not 1, 2 or 4.
// It is a number, and not an enum of the three: a rule of memories says what any other width is answered.
#[derive(Clone, Copy, Debug, PartialEq, Eq, Hash)]
pub enum Access {
    Load {
        address: u32,
        width: u32,
    },
    Store {
        address: u32,
        width: u32,
        value: u32,
    },
}

// What any memory is asked: a fetch of the word at an address, or a load or a store.
#[derive(Clone, Copy, Debug, PartialEq, Eq, Hash)]
pub enum Request {
    Fetch(u32),
    Data(Access),
}

// Done with the value that was read, or 0 for a store; absent; or to be asked again.
// Three cases of their own: a `Poll<Option<u32>>` would name none of them.
#[derive(Clone, Copy, Debug, PartialEq, Eq, Hash)]
pub enum Answer {
    Done(u32),
    Absent,
    Wait,
}

// The answer that is no wait: a value, or absent where there is none.
impl From<Option<u32>> for Answer {
    ghost from_gives = { λ value answer. answer ≡ answer_with value };

    fn from(value: Option<u32>) -> Answer {
        value.map_or(Answer::Absent, Answer::Done)
    }
}

// done VALUE, absent or wait
impl fmt::Display for Answer {
    ghost output = { λ answer. Some (answer_text answer) };

    fn fmt<W: fmt::Write>(&self, f: &mut fmt::Formatter<W>) -> fmt::Result {
        match self {
            Answer::Done(value) => write!(f, "done {value}"),
            Answer::Absent => f.write_str("absent"),
            Answer::Wait => f.write_str("wait"),
        }
    }
}
