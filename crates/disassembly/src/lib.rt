// What an image holds, as rows for people: its blocks, the program words that it wrote as instructions, and how many data
// bytes it wrote.
#![tactic(auto)]

mod cover;
mod lister;
mod printed;
mod rows;
mod text;

pub use lister::list;
pub use printed::{DATA_BYTES, PROGRAM_WORDS, listing_text};
pub use rows::{BlockRow, ListError, Listing, WordRow};

#[cfg(test)]
mod tests;
