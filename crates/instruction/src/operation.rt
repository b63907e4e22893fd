// What an instruction does, without its operands. Where each case has a number, `as` gives it.
ghost use Rattle.std.specs.Prelude.{◌≡◌, ◌<◌};
ghost use Rattle.instruction.specs.Codes.{relations_at, relations_code, special_number};
ghost use Rattle.instruction.specs.Numbers.{SpecialMadeFrom};

use crate::form::bits;
use crate::number::FieldRefusal;

// Each has its opcode.
#[derive(Clone, Copy, Debug, PartialEq, Eq, Hash)]
pub enum LoadKind {
    Byte = 0x20,
    Half = 0x21,
    Word = 0x23,
    ByteUnsigned = 0x24,
    HalfUnsigned = 0x25,
}

// Each has its opcode.
#[derive(Clone, Copy, Debug, PartialEq, Eq, Hash)]
pub enum StoreKind {
    Byte = 0x28,
    Half = 0x29,
    Word = 0x2b,
}

// Each has its code, counted from that of add. `AddUnsigned` and `SubUnsigned` are addu and subu: the same result, and
// never an overflow cause.
#[derive(Clone, Copy, Debug, PartialEq, Eq, Hash)]
pub enum AluOp {
    Add = 0,
    AddUnsigned = 1,
    Sub = 2,
    SubUnsigned = 3,
    And = 4,
    Or = 5,
    Xor = 6,
}

// Each has its code, counted from that of the shift to the left.
#[derive(Clone, Copy, Debug, PartialEq, Eq, Hash)]
pub enum ShiftOp {
    Left = 0,
    Right = 2,
    RightArithmetic = 3,
}

// The relations that a test asks for: it holds if one of them does.
#[derive(Clone, Copy, Debug, PartialEq, Eq, Hash)]
pub struct Relations {
    pub greater: bool,
    pub equal: bool,
    pub less: bool,
}

// The relations that a test's code asks for. Only the code's lowest three bits count.
impl From<u32> for Relations {
    ghost from_gives = { λ code relations. relations ≡ relations_at code };

    fn from(code: u32) -> Self {
        Relations {
            greater: bits(code, 0, 1) == 1,
            equal: bits(code, 1, 1) == 1,
            less: bits(code, 2, 1) == 1,
        }
    }
}

// The code of a test, counted from that of the test that asks for nothing.
impl From<Relations> for u32 {
    ghost from_gives = { λ relations code. code ≡ relations_code relations };

    fn from(test: Relations) -> u32 {
        test.greater as u32 + 2 * test.equal as u32 + 4 * test.less as u32
    }
}

// When a branch is taken; each has its opcode.
#[derive(Clone, Copy, Debug, PartialEq, Eq, Hash)]
pub enum Condition {
    Zero = 0x04,
    NotZero = 0x05,
}

// The special registers, by their DLX names: status, exception status, exception cause, the exception pair
// (PC', then DPC) and exception data. Each has its number.
#[derive(Clone, Copy, Debug, PartialEq, Eq, Hash)]
pub enum SpecialRegister {
    Sr = 0,
    Esr = 1,
    Eca = 2,
    Epc = 3,
    Edpc = 4,
    Edata = 5,
}

impl SpecialRegister {
    // The number of a special register.
    pub fn number(self) -> u8
        ensures value { result ≡ special_number self }
        ensures small { result < 6 }
    {
        self as u8
    }
}

// The special register with a number, 0 to 5.
impl TryFrom<u32> for SpecialRegister {
    type Error = FieldRefusal;

    ghost try_from_gives = { SpecialMadeFrom };

    fn try_from(number: u32) -> Result<Self, FieldRefusal> {
        Ok(match number {
            0 => SpecialRegister::Sr,
            1 => SpecialRegister::Esr,
            2 => SpecialRegister::Eca,
            3 => SpecialRegister::Epc,
            4 => SpecialRegister::Edpc,
            5 => SpecialRegister::Edata,
            _ => return Err(FieldRefusal::OutOfRange),
        })
    }
}
