// Where the machine goes on: the pair of addresses after an instruction, and links.
ghost use Rattle.std.specs.Prelude.{◌≡◌};
ghost use Rattle.execute.specs.Branch.{flow_of, flow_by_opcode, opcode_of, link_of, next_pair_of};

use crate::control::Flow;
use instruction::{Condition, Instruction};

// What a linking jump leaves in register 31; `next_pc` is the second address of its pair.
pub fn link(next_pc: u32) -> u32
    ensures { result ≡ link_of next_pc }
{
    next_pc.wrapping_add(4)
}

// How an instruction goes on.
// A function, as `constant` is: `Flow::from(instruction)` would be no shorter, and no other type has a flow.
pub fn flow(instruction: Instruction) -> Flow
    ensures value { result ≡ flow_of instruction }
    ensures law { result ≡ flow_by_opcode (opcode_of instruction) }
{
    match instruction {
        Instruction::Branch { when, .. } => Flow::Branch(when),
        Instruction::JumpRegister { .. } => Flow::Register,
        Instruction::Jump { .. } => Flow::Relative,
        Instruction::ReturnFromException => Flow::Return,
        _ => Flow::Straight,
    }
}

// The next pair of addresses. `next_pc` is the second address of the pair of now, `operand` the word of the
// instruction's first register, and `saved` the pair that an interrupt saved.
// Pairs of addresses are tuples, the form that is prescribed for them (DECISIONS.md, Forms).
pub fn next_pair(
    flow: Flow,
    next_pc: u32,
    operand: u32,
    constant: u32,
    saved: (u32, u32),
) -> (u32, u32)
    ensures { result ≡ next_pair_of flow next_pc operand constant saved }
{
    let onward = (next_pc, next_pc.wrapping_add(4));
    let jump = (next_pc, next_pc.wrapping_add(constant));
    match flow {
        Flow::Branch(Condition::Zero) if operand == 0 => jump,
        Flow::Branch(Condition::NotZero) if operand != 0 => jump,
        Flow::Straight | Flow::Branch(_) => onward,
        Flow::Register => (next_pc, operand),
        Flow::Relative => jump,
        Flow::Return => saved,
    }
}
