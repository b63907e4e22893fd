// One example of each public function; many more are run by the crate `execute_vectors`.
use crate::{
    Cause, Flow, Width, alu, constant, counted, effective_address, extend_immediate, extend_offset,
    flow, level, link, load_high, load_result, next_pair, shift, test, with_cause,
    worked_execution,
};
use instruction::{
    AluOp, Condition, Immediate, Instruction, LoadKind, Offset, Relations, ShiftOp, StoreKind,
};

#[test]
fn fields_are_extended_by_their_sign(rt: HostRuntime) {
    assert_eq!(rt; extend_immediate(Immediate { bits: 0x8000 }), 0xffff8000);
    let offset = Offset { bits: 0x3fffffc };
    assert_eq!(rt; extend_offset(offset), 0xfffffffc);
    assert_eq!(rt; constant(Instruction::Trap { offset }), 0xfffffffc);
    assert_eq!(rt; constant(Instruction::ReturnFromException), 0);
}

#[test]
fn words_are_computed(rt: HostRuntime) {
    let (difference, overflow) = alu(AluOp::Sub, 0x80000000, 1);
    assert_eq!(rt; difference, 0x7fffffff);
    assert!(rt; overflow);
    assert_eq!(rt; shift(ShiftOp::RightArithmetic, 0x80000000, 36), 0xf8000000);
    let less = Relations {
        greater: false,
        equal: false,
        less: true,
    };
    assert_eq!(rt; test(less, 0xffffffff, 0), 1);
    assert_eq!(rt; load_high(0x12345678), 0x56780000);
}

#[test]
fn loads_have_their_width(rt: HostRuntime) {
    assert_eq!(rt; Width::from(LoadKind::HalfUnsigned).bytes(), 2);
    assert!(rt; Width::from(StoreKind::Word).divides(12));
    assert!(rt; !Width::Half.divides(3));
    assert_eq!(rt; effective_address(4, 0xfffffffc), 0);
    assert_eq!(rt; load_result(LoadKind::Byte, 0x80), 0xffffff80);
    assert_eq!(rt; load_result(LoadKind::ByteUnsigned, 0x80), 0x80);
}

#[test]
fn jumps_have_their_pair(rt: HostRuntime) {
    assert_eq!(rt; link(0xfffffffc), 0);
    let (dpc, next) = next_pair(flow(Instruction::ReturnFromException), 4, 0, 0, (8, 24));
    assert!(rt; dpc == 8 && next == 24);
    let (dpc, next) = next_pair(Flow::Branch(Condition::Zero), 4, 0, 0xfffffffc, (8, 24));
    assert!(rt; dpc == 4 && next == 0);
}

#[test]
fn the_lowest_counted_cause_is_the_level(rt: HostRuntime) {
    let causes = with_cause(with_cause(0x200, Cause::Overflow), Cause::NoByte);
    assert_eq!(rt; causes, 0x250);
    assert_eq!(rt; counted(causes, 0x200), 0x210);
    assert_eq!(rt; level(0x210), Some(Cause::NoByte.number()));
    assert!(rt; level(0).is_none());
    assert_eq!(rt; worked_execution(), 4);
}
