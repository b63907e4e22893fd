// Reading and writing words, for callers in C: vectors/all_words compares it with a table of its own on every word.
#![tactic(auto)]

ghost use Rattle.std.specs.Prelude.{◌≡◌};
ghost use Rattle.instruction.specs.Table.{decoded_of};
ghost use Rattle.word_export.specs.Canon.{written};

use instruction::{decode, encode};

// The answer where a word is illegal: C knows no Option, and 2^32 is no word.
const ILLEGAL: u64 = 1 << 32;

// The word that the instruction of `word` is written as; 2^32 where `word` is illegal.
#[unsafe(no_mangle)]
pub extern "C" fn canonical_word(word: u32) -> u64
    ensures { result ≡ written (decoded_of word) }
{
    decode(word).map_or(ILLEGAL, |instruction| u64::from(encode(instruction)))
}

#[cfg(test)]
mod tests {
    use crate::canonical_word;

    #[test]
    fn unused_bits_are_cleared(rt: HostRuntime) {
        assert!(rt; canonical_word(0xffffffff) == 0xfc000000);
        assert!(rt; canonical_word(0x04000000) == 1 << 32);
    }
}
