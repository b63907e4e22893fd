// Fields of an instruction, each a type that holds no number outside the field's width.
ghost use Rattle.std.specs.Prelude.{◌^◌, ◌<◌};

// The number of a general register.
#[derive(Clone, Copy, Debug, PartialEq, Eq, Hash)]
pub struct Register {
    pub index: u8,
    ghost ok: { index < 2 ^ 5 },
}

// How far a shift goes.
#[derive(Clone, Copy, Debug, PartialEq, Eq, Hash)]
pub struct ShiftAmount {
    pub bits: u8,
    ghost ok: { bits < 2 ^ 5 },
}

// An immediate operand as it stands in the word, not yet extended.
#[derive(Clone, Copy, Debug, PartialEq, Eq, Hash)]
pub struct Immediate {
    pub bits: u16,
    ghost ok: { bits < 2 ^ 16 },
}

// The offset of a jump or a trap as it stands in the word, not yet extended.
#[derive(Clone, Copy, Debug, PartialEq, Eq, Hash)]
pub struct Offset {
    pub bits: u32,
    ghost ok: { bits < 2 ^ 26 },
}
