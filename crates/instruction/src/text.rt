// Registers and operations as the assembly notation writes them: an operation is shown by its mnemonic.
ghost use Rattle.std.specs.Prelude.{Some};
ghost use Rattle.instruction.specs.Text.{register_text, special_text, load_text, store_text, alu_text, shift_text, branch_text, test_text};

use crate::field::Register;
use crate::operation::{
    AluOp, Condition, LoadKind, Relations, ShiftOp, SpecialRegister, StoreKind,
};
use std::fmt;
use std::fmt::Write;

// r0 to r31
impl fmt::Display for Register {
    ghost output = { λ register. Some (register_text register) };

    #[tactic(auto, unfolding(crate::specs::Text::register_text))]
    fn fmt<W: fmt::Write>(&self, f: &mut fmt::Formatter<W>) -> fmt::Result {
        write!(f, "r{}", self.index)
    }
}

impl fmt::Display for SpecialRegister {
    ghost output = { λ special. Some (special_text special) };

    fn fmt<W: fmt::Write>(&self, f: &mut fmt::Formatter<W>) -> fmt::Result {
        f.write_str(match self {
            SpecialRegister::Sr => "sr",
            SpecialRegister::Esr => "esr",
            SpecialRegister::Eca => "eca",
            SpecialRegister::Epc => "epc",
            SpecialRegister::Edpc => "edpc",
            SpecialRegister::Edata => "edata",
        })
    }
}

impl fmt::Display for LoadKind {
    ghost output = { λ kind. Some (load_text kind) };

    fn fmt<W: fmt::Write>(&self, f: &mut fmt::Formatter<W>) -> fmt::Result {
        f.write_str(match self {
            LoadKind::Byte => "lb",
            LoadKind::Half => "lh",
            LoadKind::Word => "lw",
            LoadKind::ByteUnsigned => "lbu",
            LoadKind::HalfUnsigned => "lhu",
        })
    }
}

impl fmt::Display for StoreKind {
    ghost output = { λ kind. Some (store_text kind) };

    fn fmt<W: fmt::Write>(&self, f: &mut fmt::Formatter<W>) -> fmt::Result {
        f.write_str(match self {
            StoreKind::Byte => "sb",
            StoreKind::Half => "sh",
            StoreKind::Word => "sw",
        })
    }
}

impl fmt::Display for AluOp {
    ghost output = { λ op. Some (alu_text op) };

    fn fmt<W: fmt::Write>(&self, f: &mut fmt::Formatter<W>) -> fmt::Result {
        f.write_str(match self {
            AluOp::Add => "add",
            AluOp::AddUnsigned => "addu",
            AluOp::Sub => "sub",
            AluOp::SubUnsigned => "subu",
            AluOp::And => "and",
            AluOp::Or => "or",
            AluOp::Xor => "xor",
        })
    }
}

impl fmt::Display for ShiftOp {
    ghost output = { λ op. Some (shift_text op) };

    fn fmt<W: fmt::Write>(&self, f: &mut fmt::Formatter<W>) -> fmt::Result {
        f.write_str(match self {
            ShiftOp::Left => "sll",
            ShiftOp::Right => "srl",
            ShiftOp::RightArithmetic => "sra",
        })
    }
}

impl fmt::Display for Condition {
    ghost output = { λ condition. Some (branch_text condition) };

    fn fmt<W: fmt::Write>(&self, f: &mut fmt::Formatter<W>) -> fmt::Result {
        f.write_str(match self {
            Condition::Zero => "beqz",
            Condition::NotZero => "bnez",
        })
    }
}

impl fmt::Display for Relations {
    ghost output = { λ asked. Some (test_text asked) };

    fn fmt<W: fmt::Write>(&self, f: &mut fmt::Formatter<W>) -> fmt::Result {
        f.write_str(match (self.greater, self.equal, self.less) {
            (false, false, false) => "clr",
            (true, false, false) => "sgr",
            (false, true, false) => "seq",
            (true, true, false) => "sge",
            (false, false, true) => "sls",
            (true, false, true) => "sne",
            (false, true, true) => "sle",
            (true, true, true) => "set",
        })
    }
}
