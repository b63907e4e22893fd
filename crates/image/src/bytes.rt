// Words and sums of bytes, lowest byte first.
ghost use Rattle.std.specs.Prelude.{◌≡◌, ◌+◌, ◌≤◌, length};
ghost use Rattle.image.specs.Format.{word_at, wanted_check, all_zero};

// The bytes of a block, and where its check stands.
pub(crate) const BLOCK: usize = 512;

pub(crate) const CHECK_AT: usize = 508;

// The word at a place.
pub(crate) fn word_at(bytes: &[u8; BLOCK], at: usize) -> u32
    requires { at + 4 ≤ 512 }
    ensures { result ≡ word_at bytes.now at }
{
    u32::from_le_bytes([bytes[at], bytes[at + 1], bytes[at + 2], bytes[at + 3]])
}

// The check that a block should have: each byte counts by its place in its word.
pub(crate) fn word_sum(bytes: &[u8; BLOCK]) -> u32
    ensures { result ≡ wanted_check bytes.now }
{
    let words = &bytes[0..CHECK_AT];
    let mut sum = 0u32;
    // A form prescribed for the check (DECISIONS.md, Forms): a loop over the bytes, with a sum that wraps.
    for (i, byte) in words.iter().enumerate() {
        sum = sum.wrapping_add(u32::from(*byte) << (8 * (i % 4)));
    }
    sum
}

// Whether every byte is 0.
pub(crate) fn all_zero(bytes: &[u8]) -> bool
    ensures { result ≡ all_zero bytes.now }
{
    bytes.iter().all(|byte| *byte == 0)
}
