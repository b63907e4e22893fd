// Tries images, most of them damaged. Commands, one to a line: `new N` starts an image of N zero bytes, `set OFFSET BYTES`
// writes bytes given in hexadecimal, `sum BLOCK` recomputes a block's check, `room WORDS BYTES` gives the memories
// another length, and `try` loads the image into cleared memories and prints the answer. What it must print was worked out by another
// program (vectors/images.py).
#![tactic(auto)]

use anyhow::anyhow;
use image::load;
use std::alloc::Global;
use std::io::{BufRead, BufReader};
use std::str::SplitWhitespace;

// The image that is worked on, and the memories.
#[derive(Drop)]
struct Bench {
    image: Vec<u8>,
    program: Vec<u32>,
    data: Vec<u8>,
    answers: String,
}

fn main(rt: HostRuntime) -> anyhow::Result<()> {
    run(&rt)
}

fn run(rt: &HostRuntime) -> anyhow::Result<()> {
    let heap = rt.alloc();
    let mut bench = Bench {
        image: Vec::new(heap),
        program: vec![in heap; 0; 1024]?,
        data: vec![in heap; 0; 4096]?,
        answers: String::new(heap),
    };
    for line in BufReader::new(heap, rt.stdin())?.lines(heap) {
        bench.follow(heap, line?.as_str())?;
    }
    rt.print(&bench.answers)?;
    Ok(())
}

impl Bench {
    // A match on the command: each reads other words of the line, so a table of closures would be no plainer.
    fn follow(&mut self, heap: Global, line: &str) -> anyhow::Result<()> {
        let mut words = line.split_whitespace();
        match words.next().unwrap_or("") {
            "new" => self.image = vec![in heap; 0; number(&mut words)?]?,
            "set" => {
                let offset = number(&mut words)?;
                self.set(offset, words.next().unwrap_or("").as_bytes());
            }
            "sum" => self.write_sum(number(&mut words)?),
            "room" => {
                self.program = vec![in heap; 0; number(&mut words)?]?;
                self.data = vec![in heap; 0; number(&mut words)?]?;
            }
            "try" => self.try_image()?,
            _ => return Err(anyhow!("no such command")),
        }
        Ok(())
    }

    // Writes bytes that lie within the image.
    fn set(&mut self, offset: usize, digits: &[u8]) {
        let (pairs, _) = digits.as_chunks::<2>();
        for (byte, [high, low]) in self.image.iter_mut().skip(offset).zip(pairs) {
            *byte = nibble(*high) << 4 | nibble(*low);
        }
    }

    // Writes the check of a block that lies within the image.
    fn write_sum(&mut self, block: usize) {
        let (blocks, _) = self.image.as_chunks_mut::<512>();
        let Some(block) = blocks.get_mut(block) else {
            return;
        };
        let sum = word_sum(&block[..508]);
        block[508..].copy_from_slice(&sum.to_le_bytes());
    }

    fn try_image(&mut self) -> anyhow::Result<()> {
        self.program.fill(0);
        self.data.fill(0);
        let answer = load(&self.image, &mut self.program, &mut self.data);
        let words = weighed(&self.program);
        let bytes = weighed(&self.data);
        match answer {
            Ok(()) => writeln!(self.answers, "loaded {words} {bytes}")?,
            Err(_) if words != 0 || bytes != 0 => writeln!(
                self.answers,
                "a refusal altered a memory"
            )?,
            Err(refusal) => writeln!(self.answers, "{refusal}")?,
        }
        Ok(())
    }
}

// The next word of a line, as a number. Inlined, as each line reads one or two (DECISIONS.md, Forms).
#[inline(always)]
fn number(words: &mut SplitWhitespace) -> anyhow::Result<usize> {
    Ok(words.next().unwrap_or("").parse()?)
}

// The value of a hexadecimal digit in lower case, or 0 for another character. (As in memory_vectors; a crate for it would be longer.)
fn nibble(digit: u8) -> u8 {
    let value = char::from(digit)
        .to_digit(16)
        .filter(|_| !digit.is_ascii_uppercase());
    value.unwrap_or(0) as u8
}

// The sum of the words of four bytes, lowest first, modulo 2^32.
fn word_sum(bytes: &[u8]) -> u32 {
    let (words, _) = bytes.as_chunks::<4>();
    words
        .iter()
        .fold(0, |sum, word| sum.wrapping_add(u32::from_le_bytes(*word)))
}

// The sum of the values, each times its place from 1, modulo 2^32. The place goes round with the sum; `1u32..` would pass its end.
fn weighed<T: Copy + Into<u32>>(values: &[T]) -> u32 {
    let (sum, _) = values.iter().fold((0u32, 1u32), |(sum, place), value| {
        let term = place.wrapping_mul((*value).into());
        (sum.wrapping_add(term), place.wrapping_add(1))
    });
    sum
}
