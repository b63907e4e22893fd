// The text of an instruction.
ghost use Rattle.std.specs.Prelude.{◌≡◌, Some};
ghost use Rattle.notation.specs.Notation.{notation_of, alu_immediate_text};

use crate::operand::Signed;
use instruction::{AluOp, Instruction};
use std::fmt;
use std::fmt::Write;

// An instruction that is shown in assembly notation, as `lw r1, 0(r0)`.
#[derive(Clone, Copy, Debug, PartialEq, Eq, Hash)]
pub struct Assembly(pub Instruction);

impl fmt::Display for Assembly {
    ghost output = { λ a. Some (notation_of a.0) };

    fn fmt<W: fmt::Write>(&self, f: &mut fmt::Formatter<W>) -> fmt::Result {
        use Instruction as I;
        match self.0 {
            I::Load { kind, rd, rs1, imm } => {
                write!(f, "{kind} {rd}, {}({rs1})", Signed::from(imm))
            }
            I::Store { kind, rd, rs1, imm } => {
                write!(f, "{kind} {}({rs1}), {rd}", Signed::from(imm))
            }
            I::AluImmediate { op, rd, rs1, imm } => {
                write!(f, "{} {rd}, {rs1}, {}", alu_i_name(op), Signed::from(imm))
            }
            I::LoadHighImmediate { rd, imm } => write!(f, "lhgi {rd}, {}", imm.bits),
            I::TestImmediate { test, rd, rs1, imm } => {
                write!(f, "{test}i {rd}, {rs1}, {}", Signed::from(imm))
            }
            I::Branch { when, rs1, imm } => write!(f, "{when} {rs1}, {}", Signed::from(imm)),
            I::JumpRegister { link, rs1 } => {
                write!(f, "{} {rs1}", if link { "jalr" } else { "jr" })
            }
            I::Jump { link, offset } => {
                let name = if link { "jal" } else { "j" };
                write!(f, "{name} {}", Signed::from(offset))
            }
            I::Trap { offset } => write!(f, "trap {}", Signed::from(offset)),
            I::ReturnFromException => f.write_str("rfe"),
            I::ShiftImmediate { op, rd, rs1, sa } => write!(f, "{op}i {rd}, {rs1}, {}", sa.bits),
            I::Shift { op, rd, rs1, rs2 } => write!(f, "{op} {rd}, {rs1}, {rs2}"),
            I::ReadSpecial { rd, special } => write!(f, "movs2i {rd}, {special}"),
            I::WriteSpecial { special, rs1 } => write!(f, "movi2s {special}, {rs1}"),
            I::Alu { op, rd, rs1, rs2 } => write!(f, "{op} {rd}, {rs1}, {rs2}"),
            I::LoadHigh { rd, rs2 } => write!(f, "lhg {rd}, {rs2}"),
            I::Test { test, rd, rs1, rs2 } => write!(f, "{test} {rd}, {rs1}, {rs2}"),
        }
    }
}

// The mnemonic of the form with an immediate. The i stands before the u of `addiu`, so it is not the other name with an i.
fn alu_i_name(op: AluOp) -> &'static str
    ensures { result.now ≡ alu_immediate_text op }
{
    match op {
        AluOp::Add => "addi",
        AluOp::AddUnsigned => "addiu",
        AluOp::Sub => "subi",
        AluOp::SubUnsigned => "subiu",
        AluOp::And => "andi",
        AluOp::Or => "ori",
        AluOp::Xor => "xori",
    }
}
