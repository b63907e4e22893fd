// The lines of a listing.
ghost use Rattle.std.specs.Prelude.{◌≡◌, List, ℕ, ◌++◌, IfOk, Some, string_bytes, OnOk};
ghost use Rattle.disassembly.specs.Text.{block_line, word_line, lines_of, text_of_listing};

use crate::rows::{BlockRow, Listing, WordRow};
use instruction::decode;
use notation::Assembly;
use std::alloc::{AllocError, Global};
use std::fmt;
use std::fmt::Display;

// block B KIND address A count N
impl Display for BlockRow {
    ghost output = { λ row. Some (block_line row) };

    fn fmt<W: fmt::Write>(&self, f: &mut fmt::Formatter<W>) -> fmt::Result {
        write!(
            f,
            "block {} {} address {} count {}",
            self.place, self.kind, self.address, self.count
        )
    }
}

// ADDRESS WORD text
impl Display for WordRow {
    ghost output = { λ row. Some (word_line row) };

    fn fmt<W: fmt::Write>(&self, f: &mut fmt::Formatter<W>) -> fmt::Result {
        let address = self.address;
        let word = self.word;
        match decode(word) {
            Some(instruction) => {
                let text = Assembly(instruction);
                write!(f, "{address:08x} {word:08x} {text}")
            }
            None => write!(f, "{address:08x} {word:08x} illegal"),
        }
    }
}

// One line for each row.
fn write_lines<T: Display>(text: &mut String, rows: &[T]) -> Result<(), AllocError>
    ensures { (line : T → List ℕ) → ((row : T) → T.output row ≡ Some (line row)) → OnOk result (string_bytes text.new ≡ string_bytes text.old ++ lines_of line rows.now) }
{
    for row in rows {
        writeln!(text, "{row}")?;
    }
    Ok(())
}

impl Listing {
    // All lines: the blocks, the program words, and the number of data bytes written.
    pub fn text(&self, heap: Global) -> Result<String, AllocError>
        ensures { IfOk result (λ text. string_bytes text ≡ text_of_listing self.now) }
    {
        let mut text = String::new(heap);
        write_lines(&mut text, &self.blocks)?;
        write_lines(&mut text, &self.words)?;
        writeln!(text, "{}", self.data_bytes)?;
        Ok(text)
    }
}
