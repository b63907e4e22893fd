// Answers commands about what instructions compute, one to a line (vectors/README.md lists them). What it must print was
// worked out by another program (vectors/execution.py).
#![tactic(auto)]

use anyhow::{Context, bail};
use execute::{
    Cause, Width, alu, constant, counted, effective_address, extend_immediate, extend_offset, flow,
    level, link, load_high, load_result, next_pair, shift, test, with_cause,
};
use instruction::{AluOp, Immediate, LoadKind, Offset, Relations, ShiftOp, StoreKind, decode};
use std::io::{BufRead, BufReader};

fn main(rt: HostRuntime) -> anyhow::Result<()> {
    run(&rt)
}

fn run(rt: &HostRuntime) -> anyhow::Result<()> {
    let mut text = String::new(rt.alloc());
    for line in BufReader::new(rt.alloc(), rt.stdin())?.lines(rt.alloc()) {
        answer(&mut text, line?.as_str())?;
    }
    rt.print(text)?;
    Ok(())
}

// A command, the name or the number after it, and the words that follow, of which those left out are 0.
// A match on the command: its functions take different things, so a table of closures would be no plainer.
fn answer(text: &mut String, line: &str) -> anyhow::Result<()> {
    let mut parts = line.split_whitespace();
    let command = parts.next().unwrap_or("");
    let name = parts.next().unwrap_or("");
    let a = word(parts.next().unwrap_or("0"))?;
    let b = word(parts.next().unwrap_or("0"))?;
    match command {
        "alu" => write_alu(text, alu_op(name).context("no such operation")?, a, b),
        "shift" => {
            let op = shift_op(name).context("no such shift")?;
            write_word(text, shift(op, a, b))
        }
        "test" => write_test(text, Relations::from(word(name)?), a, b),
        "high" => write_word(text, load_high(word(name)?)),
        "load" => write_load(text, load_kind(name).context("no such load")?, a),
        "place" => write_place(text, width(name).context("no such load or store")?, a, b),
        "extend" => write_word(text, extended(name, a).context("no such field")?),
        "next" => {
            let edpc = word(parts.next().unwrap_or("0"))?;
            let epc = word(parts.next().unwrap_or("0"))?;
            write_next(text, word(name)?, a, b, (edpc, epc))
        }
        "cause" => write_cause(text, cause(name), a, b),
        _ => bail!("no such command"),
    }
}

fn word(digits: &str) -> anyhow::Result<u32> {
    Ok(u32::from_str_radix(digits, 16)?)
}

// Names are read here: three impls of `FromStr` in `instruction`, each with its definition, would be longer than these lists.
fn alu_op(name: &str) -> Option<AluOp> {
    match name {
        "add" => Some(AluOp::Add),
        "addu" => Some(AluOp::AddUnsigned),
        "sub" => Some(AluOp::Sub),
        "subu" => Some(AluOp::SubUnsigned),
        "and" => Some(AluOp::And),
        "or" => Some(AluOp::Or),
        "xor" => Some(AluOp::Xor),
        _ => None,
    }
}

fn shift_op(name: &str) -> Option<ShiftOp> {
    match name {
        "sll" => Some(ShiftOp::Left),
        "srl" => Some(ShiftOp::Right),
        "sra" => Some(ShiftOp::RightArithmetic),
        _ => None,
    }
}

fn load_kind(name: &str) -> Option<LoadKind> {
    match name {
        "lb" => Some(LoadKind::Byte),
        "lh" => Some(LoadKind::Half),
        "lw" => Some(LoadKind::Word),
        "lbu" => Some(LoadKind::ByteUnsigned),
        "lhu" => Some(LoadKind::HalfUnsigned),
        _ => None,
    }
}

fn store_kind(name: &str) -> Option<StoreKind> {
    match name {
        "sb" => Some(StoreKind::Byte),
        "sh" => Some(StoreKind::Half),
        "sw" => Some(StoreKind::Word),
        _ => None,
    }
}

// The width of a load or a store.
fn width(name: &str) -> Option<Width> {
    load_kind(name)
        .map(Width::from)
        .or_else(|| store_kind(name).map(Width::from))
}

// The causes with their numbers written out, as a check on `Cause::number`.
fn cause(number: &str) -> Option<Cause> {
    match number {
        "1" => Some(Cause::Illegal),
        "2" => Some(Cause::Misaligned),
        "3" => Some(Cause::NoWord),
        "4" => Some(Cause::NoByte),
        "5" => Some(Cause::Trap),
        "6" => Some(Cause::Overflow),
        _ => None,
    }
}

// A field's number as a word.
fn extended(field: &str, number: u32) -> Option<u32> {
    match field {
        "imm" => Some(extend_immediate(Immediate::try_from(number).ok()?)),
        "offset" => Some(extend_offset(Offset::try_from(number).ok()?)),
        _ => None,
    }
}

fn write_word(text: &mut String, word: u32) -> anyhow::Result<()> {
    writeln!(text, "{word:08x}")?;
    Ok(())
}

fn write_alu(text: &mut String, op: AluOp, a: u32, b: u32) -> anyhow::Result<()> {
    let (result, overflow) = alu(op, a, b);
    let says = if overflow { "overflow" } else { "fits" };
    writeln!(text, "{result:08x} {says}")?;
    Ok(())
}

fn write_test(text: &mut String, asked: Relations, a: u32, b: u32) -> anyhow::Result<()> {
    let result = test(asked, a, b);
    writeln!(text, "{result}")?;
    Ok(())
}

fn write_load(text: &mut String, kind: LoadKind, value: u32) -> anyhow::Result<()> {
    let bytes = Width::from(kind).bytes();
    let result = load_result(kind, value);
    writeln!(text, "{bytes} {result:08x}")?;
    Ok(())
}

fn write_place(text: &mut String, width: Width, base: u32, constant: u32) -> anyhow::Result<()> {
    let address = effective_address(base, constant);
    let says = if width.divides(address) {
        "aligned"
    } else {
        "misaligned"
    };
    writeln!(text, "{address:08x} {says}")?;
    Ok(())
}

// The instruction's constant, the link, and the next pair of addresses.
fn write_next(
    text: &mut String,
    word: u32,
    next_pc: u32,
    operand: u32,
    saved: (u32, u32),
) -> anyhow::Result<()> {
    let instruction = decode(word).context("an illegal word")?;
    let s = constant(instruction);
    let back = link(next_pc);
    let (dpc, after) = next_pair(flow(instruction), next_pc, operand, s, saved);
    writeln!(text, "{s:08x} {back:08x} {dpc:08x} {after:08x}")?;
    Ok(())
}

// The causes with one more, if there is one; those that count; and the level.
fn write_cause(
    text: &mut String,
    more: Option<Cause>,
    causes: u32,
    status: u32,
) -> anyhow::Result<()> {
    let causes = more.map_or(causes, |cause| with_cause(causes, cause));
    let counted = counted(causes, status);
    write!(text, "{causes:08x} {counted:08x} ")?;
    match level(counted) {
        Some(level) => writeln!(text, "{level}")?,
        None => writeln!(text, "none")?,
    }
    Ok(())
}
