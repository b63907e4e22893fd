// The two memories that a line asks for, and what stands in them.
use anyhow::{Context, anyhow};
use std::alloc::{AllocError, Global};
use std::array;
use std::str::SplitWhitespace;

// The pages of paged RAM that are there, and the waits of the layer next to it.
#[derive(Clone, Copy, Debug, PartialEq, Eq)]
pub struct Paging {
    pub waits: u32,
    pub marks: [bool; 256],
}

impl Paging {
    fn new(waits: u32, digits: &str) -> anyhow::Result<Paging> {
        let marks = marks(digits)?;
        Ok(Paging { waits, marks })
    }
}

// The lengths and waits of both memories. RAM without pages has one layer alone, the outer one.
#[derive(Clone, Copy, Debug, PartialEq, Eq)]
pub struct Setup {
    pub data_waits: u32,
    pub bytes: usize,
    pub paging: Option<Paging>,
    pub program_outer: u32,
    pub program_inner: u32,
    pub words: u32,
}

// The memories that a line makes, or nothing where it is a command for memories that are there.
pub fn parse(line: &str) -> anyhow::Result<Option<Setup>> {
    let mut parts = line.split_whitespace();
    let paged = match parts.next() {
        Some("paged") => true,
        Some("ram") => false,
        _ => return Ok(None),
    };
    let data_waits = number(&mut parts)?;
    let inner = paged.then(|| number(&mut parts)).transpose()?;
    let bytes = number(&mut parts)? as usize;
    let paging = inner
        .map(|waits| Paging::new(waits, parts.next().unwrap_or("")))
        .transpose()?;
    Ok(Some(Setup {
        data_waits,
        bytes,
        paging,
        program_outer: number(&mut parts)?,
        program_inner: number(&mut parts)?,
        words: number(&mut parts)?,
    }))
}

// Inlined, and the marks kept out of what is inlined: each line of commands reads a few numbers, and few lines read marks (DECISIONS.md,
// Forms).
#[inline(always)]
pub fn number(parts: &mut SplitWhitespace<'_>) -> anyhow::Result<u32> {
    Ok(parts.next().context("a number is missing")?.parse::<u32>()?)
}

// The marks of the pages, page 0 first, the highest bit of a digit first.
#[inline(never)]
fn marks(digits: &str) -> anyhow::Result<[bool; 256]> {
    let Some(digits) = digits.as_bytes().first_chunk::<64>() else {
        return Err(anyhow!("64 digits for the pages"));
    };
    Ok(array::from_fn(|page| { nibble(digits[page / 4]) << (page % 4) & 8 != 0 }))
}

// The value of a hexadecimal digit in lower case, or 0 for another character. (As in image_vectors; a crate for it would be longer.)
fn nibble(digit: u8) -> u32 {
    char::from(digit)
        .to_digit(16)
        .filter(|_| !digit.is_ascii_uppercase())
        .unwrap_or(0)
}

// The words of the program memory, all different.
pub fn words(heap: Global, length: u32) -> Result<Vec<u32>, AllocError> {
    (0..length)
        .map(|place| place.wrapping_mul(2654435761).wrapping_add(12345))
        .collect(heap)
}

// The sum of the bytes, each times its place from 1, modulo 2^32. (As in image_vectors; a crate for it alone would be longer.)
pub fn weighed(bytes: &[u8]) -> u32 {
    let (sum, _) = bytes.iter().fold((0u32, 1u32), |(sum, place), byte| {
        let term = place.wrapping_mul(u32::from(*byte));
        (sum.wrapping_add(term), place.wrapping_add(1))
    });
    sum
}
