// Whole instructions from plain numbers. Each number is the unsigned one that stands in its field of the word; a number
// that does not fit its field, or a special register above 5, is refused. (`rfe` has no fields:
// `Instruction::ReturnFromException`.)
//
// Each maker is one expression that names its instruction and fields; a generic one would have to be told both, and be no plainer.
#![tactic(auto)]

ghost use Rattle.std.specs.Prelude.{◌+◌, [], ◌∷◌};
ghost use Rattle.instruction.specs.Codes.{load_code, store_code, branch_code, alu_code, shift_code, relations_code, bit};
ghost use Rattle.instruction.specs.Fields.{opcode_field, rs1_field, rd_i_field, immediate_field, rs2_field, rd_r_field, sa_field, function_field};
ghost use Rattle.instruction.specs.Layout.{i_fields, r_fields, j_fields};
ghost use Rattle.assemble.specs.Builds.{Builds, BuildsSpecial};

use instruction::{
    AluOp, Condition, FieldRefusal, Instruction, LoadKind, Relations, ShiftOp, StoreKind,
};

// lb, lh, lw, lbu, lhu
pub fn load(kind: LoadKind, rd: u32, rs1: u32, imm: u32) -> Result<Instruction, FieldRefusal>
    ensures { Builds (i_fields (load_code kind) rs1 rd imm) result }
{
    Ok(Instruction::Load {
        kind,
        rd: rd.try_into()?,
        rs1: rs1.try_into()?,
        imm: imm.try_into()?,
    })
}

// sb, sh, sw; `rd` is the register that is stored
pub fn store(kind: StoreKind, rd: u32, rs1: u32, imm: u32) -> Result<Instruction, FieldRefusal>
    ensures { Builds (i_fields (store_code kind) rs1 rd imm) result }
{
    Ok(Instruction::Store {
        kind,
        rd: rd.try_into()?,
        rs1: rs1.try_into()?,
        imm: imm.try_into()?,
    })
}

// addi, addiu, subi, subiu, andi, ori, xori
pub fn alu_immediate(op: AluOp, rd: u32, rs1: u32, imm: u32) -> Result<Instruction, FieldRefusal>
    ensures { Builds (i_fields (0x08 + alu_code op) rs1 rd imm) result }
{
    Ok(Instruction::AluImmediate {
        op,
        rd: rd.try_into()?,
        rs1: rs1.try_into()?,
        imm: imm.try_into()?,
    })
}

// lhgi
pub fn load_high_immediate(rd: u32, imm: u32) -> Result<Instruction, FieldRefusal>
    ensures { Builds ((opcode_field, 0x0f) ∷ (rd_i_field, rd) ∷ (immediate_field, imm) ∷ []) result }
{
    Ok(Instruction::LoadHighImmediate {
        rd: rd.try_into()?,
        imm: imm.try_into()?,
    })
}

// clri, sgri, seqi, sgei, slsi, snei, slei, seti
pub fn test_immediate(
    test: Relations,
    rd: u32,
    rs1: u32,
    imm: u32,
) -> Result<Instruction, FieldRefusal>
    ensures { Builds (i_fields (0x18 + relations_code test) rs1 rd imm) result }
{
    Ok(Instruction::TestImmediate {
        test,
        rd: rd.try_into()?,
        rs1: rs1.try_into()?,
        imm: imm.try_into()?,
    })
}

// beqz, bnez
pub fn branch(when: Condition, rs1: u32, imm: u32) -> Result<Instruction, FieldRefusal>
    ensures { Builds ((opcode_field, branch_code when) ∷ (rs1_field, rs1) ∷ (immediate_field, imm) ∷ []) result }
{
    Ok(Instruction::Branch {
        when,
        rs1: rs1.try_into()?,
        imm: imm.try_into()?,
    })
}

// jr, and jalr with `link`
pub fn jump_register(link: bool, rs1: u32) -> Result<Instruction, FieldRefusal>
    ensures { Builds ((opcode_field, 0x16 + bit link) ∷ (rs1_field, rs1) ∷ []) result }
{
    Ok(Instruction::JumpRegister {
        link,
        rs1: rs1.try_into()?,
    })
}

// j, and jal with `link`
pub fn jump(link: bool, offset: u32) -> Result<Instruction, FieldRefusal>
    ensures { Builds (j_fields (0x02 + bit link) offset) result }
{
    Ok(Instruction::Jump {
        link,
        offset: offset.try_into()?,
    })
}

// trap
pub fn trap(offset: u32) -> Result<Instruction, FieldRefusal>
    ensures { Builds (j_fields 0x3e offset) result }
{
    Ok(Instruction::Trap {
        offset: offset.try_into()?,
    })
}

// slli, srli, srai
pub fn shift_immediate(op: ShiftOp, rd: u32, rs1: u32, sa: u32) -> Result<Instruction, FieldRefusal>
    ensures { Builds ((opcode_field, 0) ∷ (rs1_field, rs1) ∷ (rd_r_field, rd) ∷ (sa_field, sa) ∷ (function_field, shift_code op) ∷ []) result }
{
    Ok(Instruction::ShiftImmediate {
        op,
        rd: rd.try_into()?,
        rs1: rs1.try_into()?,
        sa: sa.try_into()?,
    })
}

// sll, srl, sra
pub fn shift(op: ShiftOp, rd: u32, rs1: u32, rs2: u32) -> Result<Instruction, FieldRefusal>
    ensures { Builds (r_fields rs1 rs2 rd (0x04 + shift_code op)) result }
{
    Ok(Instruction::Shift {
        op,
        rd: rd.try_into()?,
        rs1: rs1.try_into()?,
        rs2: rs2.try_into()?,
    })
}

// movs2i
pub fn read_special(rd: u32, special: u32) -> Result<Instruction, FieldRefusal>
    ensures { BuildsSpecial special ((opcode_field, 0) ∷ (rd_r_field, rd) ∷ (sa_field, special) ∷ (function_field, 0x10) ∷ []) result }
{
    Ok(Instruction::ReadSpecial {
        rd: rd.try_into()?,
        special: special.try_into()?,
    })
}

// movi2s
pub fn write_special(special: u32, rs1: u32) -> Result<Instruction, FieldRefusal>
    ensures { BuildsSpecial special ((opcode_field, 0) ∷ (rs1_field, rs1) ∷ (sa_field, special) ∷ (function_field, 0x11) ∷ []) result }
{
    Ok(Instruction::WriteSpecial {
        special: special.try_into()?,
        rs1: rs1.try_into()?,
    })
}

// add, addu, sub, subu, and, or, xor
pub fn alu(op: AluOp, rd: u32, rs1: u32, rs2: u32) -> Result<Instruction, FieldRefusal>
    ensures { Builds (r_fields rs1 rs2 rd (0x20 + alu_code op)) result }
{
    Ok(Instruction::Alu {
        op,
        rd: rd.try_into()?,
        rs1: rs1.try_into()?,
        rs2: rs2.try_into()?,
    })
}

// lhg
pub fn load_high(rd: u32, rs2: u32) -> Result<Instruction, FieldRefusal>
    ensures { Builds ((opcode_field, 0) ∷ (rs2_field, rs2) ∷ (rd_r_field, rd) ∷ (function_field, 0x27) ∷ []) result }
{
    Ok(Instruction::LoadHigh {
        rd: rd.try_into()?,
        rs2: rs2.try_into()?,
    })
}

// clr, sgr, seq, sge, sls, sne, sle, set
pub fn test(test: Relations, rd: u32, rs1: u32, rs2: u32) -> Result<Instruction, FieldRefusal>
    ensures { Builds (r_fields rs1 rs2 rd (0x28 + relations_code test)) result }
{
    Ok(Instruction::Test {
        test,
        rd: rd.try_into()?,
        rs1: rs1.try_into()?,
        rs2: rs2.try_into()?,
    })
}

#[cfg(test)]
mod tests {
    use crate::*;
    use instruction::encode;

    fn word(built: Result<Instruction, FieldRefusal>) -> u32 {
        match built {
            Ok(instruction) => encode(instruction),
            Err(refusal) => u32::from(refusal.number()),
        }
    }

    const ALL: Relations = Relations {
        greater: true,
        equal: true,
        less: true,
    };

    #[test]
    fn i_and_j_forms(rt: HostRuntime) {
        assert!(rt; word(load(LoadKind::Word, 1, 0, 0)) == 0x8c010000);
        assert!(rt; word(store(StoreKind::Word, 2, 1, 4)) == 0xac220004);
        assert!(rt; word(alu_immediate(AluOp::And, 2, 1, 0xffff)) == 0x3022ffff);
        assert!(rt; word(load_high_immediate(3, 0x8000)) == 0x3c038000);
        assert!(rt; word(test_immediate(ALL, 31, 30, 1)) == 0x7fdf0001);
        assert!(rt; word(branch(Condition::Zero, 3, 0xfff8)) == 0x1060fff8);
        assert!(rt; word(jump_register(true, 31)) == 0x5fe00000);
        assert!(rt; word(jump(true, 0x20)) == 0x0c000020);
        assert!(rt; word(trap(0)) == 0xf8000000);
    }

    #[test]
    fn r_form(rt: HostRuntime) {
        assert!(rt; word(shift_immediate(ShiftOp::RightArithmetic, 2, 1, 31)) == 0x002017c3);
        assert!(rt; word(shift(ShiftOp::Right, 2, 1, 3)) == 0x00231006);
        assert!(rt; word(read_special(4, 5)) == 0x00002150);
        assert!(rt; word(write_special(0, 4)) == 0x00800011);
        assert!(rt; word(alu(AluOp::Add, 2, 1, 1)) == 0x00211020);
        assert!(rt; word(load_high(2, 1)) == 0x00011027);
        assert!(rt; word(test(ALL, 3, 1, 2)) == 0x0022182f);
    }

    #[test]
    fn numbers_that_do_not_fit_are_refused(rt: HostRuntime) {
        assert!(rt; word(load(LoadKind::Word, 32, 0, 0)) == 15);
        assert!(rt; word(branch(Condition::Zero, 3, 65_536)) == 15);
        assert!(rt; word(trap(0x4000000)) == 15);
        assert!(rt; word(shift_immediate(ShiftOp::Left, 2, 1, 32)) == 15);
        assert!(rt; word(write_special(6, 4)) == 15);
    }
}
