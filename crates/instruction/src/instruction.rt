use crate::field::{Immediate, Offset, Register, ShiftAmount};
use crate::operation::{
    AluOp, Condition, LoadKind, Relations, ShiftOp, SpecialRegister, StoreKind,
};

// An instruction with the fields that it uses. `rd` of a store is the register whose value is stored.
#[derive(Clone, Copy, Debug, PartialEq, Eq, Hash)]
pub enum Instruction {
    Load {
        kind: LoadKind,
        rd: Register,
        rs1: Register,
        imm: Immediate,
    },
    Store {
        kind: StoreKind,
        rd: Register,
        rs1: Register,
        imm: Immediate,
    },
    AluImmediate {
        op: AluOp,
        rd: Register,
        rs1: Register,
        imm: Immediate,
    },
    LoadHighImmediate {
        rd: Register,
        imm: Immediate,
    },
    TestImmediate {
        test: Relations,
        rd: Register,
        rs1: Register,
        imm: Immediate,
    },
    Branch {
        when: Condition,
        rs1: Register,
        imm: Immediate,
    },
    JumpRegister {
        link: bool,
        rs1: Register,
    },
    Jump {
        link: bool,
        offset: Offset,
    },
    Trap {
        offset: Offset,
    },
    ReturnFromException,
    ShiftImmediate {
        op: ShiftOp,
        rd: Register,
        rs1: Register,
        sa: ShiftAmount,
    },
    Shift {
        op: ShiftOp,
        rd: Register,
        rs1: Register,
        rs2: Register,
    },
    ReadSpecial {
        rd: Register,
        special: SpecialRegister,
    },
    WriteSpecial {
        special: SpecialRegister,
        rs1: Register,
    },
    Alu {
        op: AluOp,
        rd: Register,
        rs1: Register,
        rs2: Register,
    },
    LoadHigh {
        rd: Register,
        rs2: Register,
    },
    Test {
        test: Relations,
        rd: Register,
        rs1: Register,
        rs2: Register,
    },
}
