// Reads words, eight hexadecimal digits to a line, and prints of each the word itself, the word that its instruction is
// written as, and the instruction's text; or that it is illegal. What it must print was worked out by another program
// (vectors/words.py).
#![tactic(auto)]

use instruction::{decode, encode};
use notation::Assembly;
use std::alloc::AllocError;
use std::io::{BufRead, BufReader};

fn main(rt: HostRuntime) -> anyhow::Result<()> {
    run(&rt)
}

fn run(rt: &HostRuntime) -> anyhow::Result<()> {
    let mut text = String::new(rt.alloc());
    for line in BufReader::new(rt.alloc(), rt.stdin())?.lines(rt.alloc()) {
        let word = u32::from_str_radix(line?.as_str(), 16)?;
        write_line(&mut text, word)?;
    }
    rt.print(text)?;
    Ok(())
}

fn write_line(text: &mut String, word: u32) -> Result<(), AllocError> {
    let Some(instruction) = decode(word) else {
        return writeln!(text, "{word:08x} illegal");
    };
    let back = encode(instruction);
    let shown = Assembly(instruction);
    writeln!(text, "{word:08x} {back:08x} {shown}")
}
