// Words read as instructions: an arm for each row of the table, by opcode and by function.
ghost use Rattle.std.specs.Prelude.{◌≡◌, ◌≢◌};
ghost use Rattle.instruction.specs.Fields.{in_field, function_field};
ghost use Rattle.instruction.specs.Laws.{DecodesTo};
ghost use Rattle.instruction.specs.Table.{decoded_of, by_opcode, by_function};

use crate::form::{IForm, JForm, RForm, bits};
use crate::instruction::Instruction;
use crate::operation::{AluOp, Condition, LoadKind, ShiftOp, StoreKind};

// The instruction that `word` reads as, or none where it is illegal. Fields that the instruction does not use are ignored.
#[tactic(auto, using(crate::proofs::Deciding::decides), unfolding(crate::specs::Table::decoded_of))]
pub fn decode(word: u32) -> Option<Instruction>
    ensures value { result ≡ decoded_of word }
    ensures law { DecodesTo word result }
{
    match bits(word, 26, 6) {
        0x00 => decode_function(word),
        opcode => decode_opcode(opcode, word),
    }
}

// The instruction of a word with this opcode. The rows stand as in the table, one for each opcode: the opposite of a discriminant, of
// which no cast goes from the number to the case.
fn decode_opcode(opcode: u32, word: u32) -> Option<Instruction>
    requires { opcode ≢ 0 }
    ensures { result ≡ by_opcode opcode word }
{
    // jal and jalr have the odd opcodes.
    let link = opcode & 1 == 1;
    // Each reads its fields where its row is taken: read before the match, they are read for every word (DECISIONS.md, Forms).
    let branch = |when| {
        let IForm { rs1, imm, .. } = word.into();
        Instruction::Branch { when, rs1, imm }
    };
    let alu = |op| {
        let IForm { rs1, rd, imm } = word.into();
        Instruction::AluImmediate { op, rd, rs1, imm }
    };
    let test = |test| {
        let IForm { rs1, rd, imm } = word.into();
        Instruction::TestImmediate { test, rd, rs1, imm }
    };
    let load = |kind| {
        let IForm { rs1, rd, imm } = word.into();
        Instruction::Load { kind, rd, rs1, imm }
    };
    let store = |kind| {
        let IForm { rs1, rd, imm } = word.into();
        Instruction::Store { kind, rd, rs1, imm }
    };
    Some(match opcode {
        0x02 | 0x03 => {
            let JForm { offset } = word.into();
            Instruction::Jump { link, offset }
        }
        0x04 => branch(Condition::Zero),
        0x05 => branch(Condition::NotZero),
        0x08 => alu(AluOp::Add),
        0x09 => alu(AluOp::AddUnsigned),
        0x0a => alu(AluOp::Sub),
        0x0b => alu(AluOp::SubUnsigned),
        0x0c => alu(AluOp::And),
        0x0d => alu(AluOp::Or),
        0x0e => alu(AluOp::Xor),
        0x0f => {
            let IForm { rd, imm, .. } = word.into();
            Instruction::LoadHighImmediate { rd, imm }
        }
        0x16 | 0x17 => {
            let IForm { rs1, .. } = word.into();
            Instruction::JumpRegister { link, rs1 }
        }
        0x18..=0x1f => test(opcode.into()),
        0x20 => load(LoadKind::Byte),
        0x21 => load(LoadKind::Half),
        0x23 => load(LoadKind::Word),
        0x24 => load(LoadKind::ByteUnsigned),
        0x25 => load(LoadKind::HalfUnsigned),
        0x28 => store(StoreKind::Byte),
        0x29 => store(StoreKind::Half),
        0x2b => store(StoreKind::Word),
        0x3e => {
            let JForm { offset } = word.into();
            Instruction::Trap { offset }
        }
        0x3f => Instruction::ReturnFromException,
        _ => return None,
    })
}

// The instruction of a word with opcode 0, by its function.
#[tactic(auto, unfolding(crate::specs::Fields::amount_at))]
fn decode_function(word: u32) -> Option<Instruction>
    ensures { result ≡ by_function (in_field function_field word) word }
{
    let function = bits(word, 0, 6);
    let form = RForm::from(word);
    let RForm { rs1, rs2, rd, sa } = form;
    let shift_immediate = |op| Instruction::ShiftImmediate { op, rd, rs1, sa };
    let shift = |op| Instruction::Shift { op, rd, rs1, rs2 };
    let alu = |op| Instruction::Alu { op, rd, rs1, rs2 };
    let test = |test| Instruction::Test { test, rd, rs1, rs2 };
    Some(match function {
        0x00 => shift_immediate(ShiftOp::Left),
        0x02 => shift_immediate(ShiftOp::Right),
        0x03 => shift_immediate(ShiftOp::RightArithmetic),
        0x04 => shift(ShiftOp::Left),
        0x06 => shift(ShiftOp::Right),
        0x07 => shift(ShiftOp::RightArithmetic),
        0x10 => Instruction::ReadSpecial {
            rd,
            special: form.special()?,
        },
        0x11 => Instruction::WriteSpecial {
            special: form.special()?,
            rs1,
        },
        0x20 => alu(AluOp::Add),
        0x21 => alu(AluOp::AddUnsigned),
        0x22 => alu(AluOp::Sub),
        0x23 => alu(AluOp::SubUnsigned),
        0x24 => alu(AluOp::And),
        0x25 => alu(AluOp::Or),
        0x26 => alu(AluOp::Xor),
        0x27 => Instruction::LoadHigh { rd, rs2 },
        0x28..=0x2f => test(function.into()),
        _ => return None,
    })
}
