// What C calls of `word_export`: a crate is a library or a static library, and this is the static library.
#![tactic(auto)]

ghost use Rattle.std.specs.Prelude.{◌≡◌};
ghost use Rattle.instruction.specs.Table.{decoded_of};
ghost use Rattle.word_export.specs.Canon.{written};

// The word that the instruction of `word` is written as; 2^32 where `word` is illegal.
#[unsafe(no_mangle)]
pub extern "C" fn canonical_word(word: u32) -> u64
    ensures { result ≡ written (decoded_of word) }
{
    word_export::canonical_word(word)
}

#[cfg(test)]
mod tests {
    use crate::canonical_word;

    #[test]
    fn a_jump_keeps_its_word(rt: HostRuntime) {
        assert!(rt; canonical_word(0x0bffffff) == 0x0bffffff);
    }
}
