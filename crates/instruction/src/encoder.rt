// Instructions written as words.
ghost use Rattle.std.specs.Prelude.{◌≡◌, Some};
ghost use Rattle.instruction.specs.Layout.{word_of, placed, layout};
ghost use Rattle.instruction.specs.Laws.{Reads, UnusedZero};
ghost use Rattle.instruction.specs.Table.{decoded_of};

use crate::form::{IForm, JForm, RForm};
use crate::instruction::Instruction;

// The word of an instruction, 0 in each field that it does not use.
#[tactic(auto, using(crate::proofs::Writing::own_word), unfolding(crate::specs::Layout::word_of))]
pub fn encode(instruction: Instruction) -> u32
    ensures value { result ≡ word_of instruction }
    ensures reads { Reads result instruction }
    ensures unused { UnusedZero instruction result }
    ensures back { decoded_of result ≡ Some instruction }
{
    instruction.word()
}

impl Instruction {
    fn word(self) -> u32
        ensures { result ≡ placed (layout self) }
    {
        // A field that is not used holds 0.
        let i = IForm::EMPTY;
        let r = RForm::EMPTY;
        match self {
            Self::Load { kind, rd, rs1, imm } => IForm { rs1, rd, imm }.word(kind as u32),
            Self::Store { kind, rd, rs1, imm } => IForm { rs1, rd, imm }.word(kind as u32),
            Self::AluImmediate { op, rd, rs1, imm } => {
                IForm { rs1, rd, imm }.word(0x08 + op as u32)
            }
            Self::LoadHighImmediate { rd, imm } => IForm { rd, imm, ..i }.word(0x0f),
            Self::TestImmediate { test, rd, rs1, imm } => {
                IForm { rs1, rd, imm }.word(0x18 + u32::from(test))
            }
            Self::Branch { when, rs1, imm } => IForm { rs1, imm, ..i }.word(when as u32),
            Self::JumpRegister { link, rs1 } => IForm { rs1, ..i }.word(0x16 + link as u32),
            Self::Jump { link, offset } => JForm { offset }.word(0x02 + link as u32),
            Self::Trap { offset } => JForm { offset }.word(0x3e),
            Self::ReturnFromException => i.word(0x3f),
            Self::ShiftImmediate { op, rd, rs1, sa } => RForm { rs1, rd, sa, ..r }.word(op as u32),
            Self::Shift { op, rd, rs1, rs2 } => RForm { rs1, rs2, rd, ..r }.word(0x04 + op as u32),
            Self::ReadSpecial { rd, special } => RForm { rd, ..r }.with_special(special).word(0x10),
            Self::WriteSpecial { special, rs1 } => {
                RForm { rs1, ..r }.with_special(special).word(0x11)
            }
            Self::Alu { op, rd, rs1, rs2 } => RForm { rs1, rs2, rd, ..r }.word(0x20 + op as u32),
            Self::LoadHigh { rd, rs2 } => RForm { rs2, rd, ..r }.word(0x27),
            Self::Test { test, rd, rs1, rs2 } => {
                RForm { rs1, rs2, rd, ..r }.word(0x28 + u32::from(test))
            }
        }
    }
}
