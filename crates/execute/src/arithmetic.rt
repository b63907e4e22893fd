// Arithmetic, bitwise operations, shifts and tests on words.
ghost use Rattle.std.specs.Prelude.{◌≡◌};
ghost use Rattle.execute.specs.Arithmetic.{alu_value, alu_overflows, AluLaw, high_of};
ghost use Rattle.execute.specs.Shifts.{shift_of, MovesBits};
ghost use Rattle.execute.specs.Tests.{any_holds, test_of, TestAnswers};

use instruction::{AluOp, Relations, ShiftOp};
use std::cmp::Ordering;

// The result, and whether a signed sum or difference overflows.
// A pair, as `overflowing_add` gives: each part always means something, so an Option or a Result would be no plainer.
pub fn alu(op: AluOp, a: u32, b: u32) -> (u32, bool)
    ensures value { result.0 ≡ alu_value op a b }
    ensures overflow { result.1 ≡ alu_overflows op a b }
    ensures law { AluLaw op a b result.0 result.1 }
{
    (result(op, a, b), overflows(op, a, b))
}

fn result(op: AluOp, a: u32, b: u32) -> u32
    ensures { result ≡ alu_value op a b }
{
    match op {
        AluOp::Add | AluOp::AddUnsigned => a.wrapping_add(b),
        AluOp::Sub | AluOp::SubUnsigned => a.wrapping_sub(b),
        AluOp::And => a & b,
        AluOp::Or => a | b,
        AluOp::Xor => a ^ b,
    }
}

fn overflows(op: AluOp, a: u32, b: u32) -> bool
    ensures { result ≡ alu_overflows op a b }
{
    let a = a.cast_signed();
    let b = b.cast_signed();
    match op {
        AluOp::Add => a.overflowing_add(b).1,
        AluOp::Sub => a.overflowing_sub(b).1,
        _ => false,
    }
}

// The word shifted by `by` modulo 32.
pub fn shift(op: ShiftOp, a: u32, by: u32) -> u32
    ensures value { result ≡ shift_of op a by }
    ensures law { MovesBits op a by result }
{
    let by = by % 32;
    match op {
        ShiftOp::Left => a << by,
        ShiftOp::Right => a >> by,
        ShiftOp::RightArithmetic => (a.cast_signed() >> by).cast_unsigned(),
    }
}

// 1 if one of the asked relations holds between the two as signed numbers, else 0.
pub fn test(asked: Relations, a: u32, b: u32) -> u32
    ensures value { result ≡ test_of asked a b }
    ensures law { TestAnswers asked a b result }
{
    u32::from(holds(asked, a.cast_signed(), b.cast_signed()))
}

fn holds(asked: Relations, a: i32, b: i32) -> bool
    ensures { result ≡ any_holds asked a b }
{
    match a.cmp(&b) {
        Ordering::Greater => asked.greater,
        Ordering::Equal => asked.equal,
        Ordering::Less => asked.less,
    }
}

// The low half of a word as the high half of another, whose low half is 0.
pub fn load_high(b: u32) -> u32
    ensures { result ≡ high_of b }
{
    b << 16
}
