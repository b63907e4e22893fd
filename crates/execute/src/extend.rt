// Immediates and offsets as words: the field is a signed number, and its sign is copied into the bits above it.
ghost use Rattle.std.specs.Prelude.{◌≡◌, ◌<◌, ◌≤◌};
ghost use Rattle.execute.specs.Extension.{sign_extended, CopiesSign, constant_of};

use instruction::{Immediate, Instruction, Offset};

// The low `width` bits of a word, their highest one copied into the bits above.
// By shifts, and not through i8 and i16: no type has 26 bits, and so one function serves the widths 8, 16 and 26.
pub(crate) fn sign_extend(value: u32, width: u32) -> u32
    requires { (0 < width) × (width ≤ 32) }
    ensures value { result ≡ sign_extended width value }
    ensures law { CopiesSign width value result }
{
    let unused = 32 - width;
    ((value << unused).cast_signed() >> unused).cast_unsigned()
}

// An immediate as a word.
pub fn extend_immediate(imm: Immediate) -> u32
    ensures value { result ≡ sign_extended 16 imm.bits }
    ensures law { CopiesSign 16 imm.bits result }
{
    sign_extend(u32::from(imm.bits), 16)
}

// An offset as a word. One call, as for an immediate: a trait over the two fields would be longer than both functions.
pub fn extend_offset(offset: Offset) -> u32
    ensures value { result ≡ sign_extended 26 offset.bits }
    ensures law { CopiesSign 26 offset.bits result }
{
    sign_extend(offset.bits, 26)
}

// The number that an instruction carries: its immediate or its offset as a word, or 0 if it has neither.
pub fn constant(instruction: Instruction) -> u32
    ensures { result ≡ constant_of instruction }
{
    match instruction {
        Instruction::Load { imm, .. }
        | Instruction::Store { imm, .. }
        | Instruction::AluImmediate { imm, .. }
        | Instruction::LoadHighImmediate { imm, .. }
        | Instruction::TestImmediate { imm, .. }
        | Instruction::Branch { imm, .. } => extend_immediate(imm),
        Instruction::Jump { offset, .. } | Instruction::Trap { offset } => extend_offset(offset),
        _ => 0,
    }
}
