// The instruction words of the fixed-point DLX: what a word says, and how an instruction is written as a word.
#![tactic(auto)]

mod decoder;
mod encoder;
mod field;
mod form;
mod instruction;
mod number;
mod operation;
mod text;
mod worked;

pub use decoder::decode;
pub use encoder::encode;
pub use field::{Immediate, Offset, Register, ShiftAmount};
pub use instruction::Instruction;
pub use number::FieldRefusal;
pub use operation::{AluOp, Condition, LoadKind, Relations, ShiftOp, SpecialRegister, StoreKind};
pub use worked::worked_words;

#[cfg(test)]
mod tests;
