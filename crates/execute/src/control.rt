use instruction::Condition;

// How an instruction goes on.
#[derive(Clone, Copy, Debug, PartialEq, Eq, Hash)]
pub enum Flow {
    // No target: on to the next word.
    Straight,
    // To the second address plus the constant if the operand is as the branch asks: beqz and bnez.
    Branch(Condition),
    // To the operand: jr and jalr.
    Register,
    // To the second address plus the constant: j and jal.
    Relative,
    // Back to the pair that an interrupt saved: rfe.
    Return,
}
