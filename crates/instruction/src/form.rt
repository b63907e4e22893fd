// The forms of an instruction word: the fields of a form are read from a word together, and written into one together.
ghost use Rattle.std.specs.Prelude.{◌≡◌, ◌+◌, ◌*◌, ◌/◌, ◌%◌, ◌^◌, ◌<◌};
ghost use Rattle.instruction.specs.Codes.{special_number, special_of};
ghost use Rattle.instruction.specs.Fields.{register_at};
ghost use Rattle.instruction.specs.Forms.{i_form_of, r_form_of, j_form_of};

use crate::field::{Immediate, Offset, Register, ShiftAmount};
use crate::operation::SpecialRegister;

// The I form: RS1, RD and the immediate, from bit 25 down, below the opcode.
#[derive(Clone, Copy)]
pub(crate) struct IForm {
    pub(crate) rs1: Register,
    pub(crate) rd: Register,
    pub(crate) imm: Immediate,
}

// The R form: RS1, RS2, RD and SA, from bit 25 down, below the opcode, 0, and above the function. SA holds a shift amount
// or the number of a special register.
#[derive(Clone, Copy)]
pub(crate) struct RForm {
    pub(crate) rs1: Register,
    pub(crate) rs2: Register,
    pub(crate) rd: Register,
    pub(crate) sa: ShiftAmount,
}

// The J form: the offset below the opcode.
#[derive(Clone, Copy)]
pub(crate) struct JForm {
    pub(crate) offset: Offset,
}

const R0: Register = Register { index: 0 };

const NO_IMM: Immediate = Immediate { bits: 0 };

const NO_SA: ShiftAmount = ShiftAmount { bits: 0 };

// The `width` bits of `word` from bit `low` up.
pub(crate) fn bits(word: u32, low: u32, width: u32) -> u32
    requires { (low < 32) × (width < 32) }
    ensures { result ≡ word / 2 ^ low % 2 ^ width }
{
    (word >> low) & ((1 << width) - 1)
}

impl Register {
    // The register whose field begins at bit `low`.
    #[tactic(auto, using(crate::proofs::Same::register_same), unfolding(crate::specs::Fields::register_at))]
    fn at(word: u32, low: u32) -> Register
        requires { low < 32 }
        ensures { result ≡ register_at (record { low = low; width = 5 }) word }
    {
        Register {
            index: bits(word, low, 5) as u8,
        }
    }
}

impl From<u32> for IForm {
    ghost from_gives = { λ word form. form ≡ i_form_of word };

    #[tactic(auto, using(crate::proofs::Same::i_form_same), unfolding(crate::specs::Fields::immediate_of))]
    fn from(word: u32) -> Self {
        let rs1 = Register::at(word, 21);
        let rd = Register::at(word, 16);
        let imm = Immediate {
            bits: bits(word, 0, 16) as u16,
        };
        IForm { rs1, rd, imm }
    }
}

impl From<u32> for RForm {
    ghost from_gives = { λ word form. form ≡ r_form_of word };

    #[tactic(auto, using(crate::proofs::Same::r_form_same), unfolding(crate::specs::Fields::amount_at))]
    fn from(word: u32) -> Self {
        let rs1 = Register::at(word, 21);
        let rs2 = Register::at(word, 16);
        let rd = Register::at(word, 11);
        let sa = ShiftAmount {
            bits: bits(word, 6, 5) as u8,
        };
        RForm { rs1, rs2, rd, sa }
    }
}

impl From<u32> for JForm {
    ghost from_gives = { λ word form. form ≡ j_form_of word };

    #[tactic(auto, using(crate::proofs::Same::j_form_same), unfolding(crate::specs::Fields::offset_of))]
    fn from(word: u32) -> Self {
        let offset = Offset {
            bits: bits(word, 0, 26),
        };
        JForm { offset }
    }
}

impl IForm {
    // Every field holds 0.
    pub(crate) const EMPTY: IForm = IForm {
        rs1: R0,
        rd: R0,
        imm: NO_IMM,
    };

    // The word with this opcode.
    #[tactic(auto, using(crate::proofs::Packing::immediate_packed))]
    pub(crate) fn word(self, opcode: u32) -> u32
        requires { opcode < 64 }
        ensures { result ≡ opcode * 2 ^ 26 + self.rs1.index * 2 ^ 21 + self.rd.index * 2 ^ 16 + self.imm.bits }
    {
        let IForm { rs1, rd, imm } = self;
        opcode << 26 | (rs1.index as u32) << 21 | (rd.index as u32) << 16 | imm.bits as u32
    }
}

impl RForm {
    // Every field holds 0.
    pub(crate) const EMPTY: RForm = RForm {
        rs1: R0,
        rs2: R0,
        rd: R0,
        sa: NO_SA,
    };

    // The special register whose number SA holds, if one has it.
    pub(crate) fn special(self) -> Option<SpecialRegister>
        ensures { result ≡ special_of self.sa.bits }
    {
        SpecialRegister::try_from(self.sa.bits as u32).ok()
    }

    // The same form with the number of a special register in SA.
    pub(crate) fn with_special(self, special: SpecialRegister) -> RForm
        ensures sa { result.sa.bits ≡ special_number special }
        ensures rest { (result.rs1 ≡ self.rs1) × (result.rs2 ≡ self.rs2) × (result.rd ≡ self.rd) }
    {
        let sa = ShiftAmount {
            bits: special.number(),
        };
        RForm { sa, ..self }
    }

    // The word with this function.
    #[tactic(auto, using(crate::proofs::Packing::register_packed))]
    pub(crate) fn word(self, function: u32) -> u32
        requires { function < 64 }
        ensures { result ≡ self.rs1.index * 2 ^ 21 + self.rs2.index * 2 ^ 16 + self.rd.index * 2 ^ 11 + self.sa.bits * 2 ^ 6 + function }
    {
        let RForm { rs1, rs2, rd, sa } = self;
        let registers = (rs1.index as u32) << 21
            | (rs2.index as u32) << 16
            | (rd.index as u32) << 11;
        registers | (sa.bits as u32) << 6 | function
    }
}

impl JForm {
    // The word with this opcode.
    pub(crate) fn word(self, opcode: u32) -> u32
        requires { opcode < 64 }
        ensures { result ≡ opcode * 2 ^ 26 + self.offset.bits }
    {
        opcode << 26 | self.offset.bits
    }
}
