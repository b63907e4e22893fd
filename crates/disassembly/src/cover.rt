// Which cells of a memory a block wrote.
ghost use Rattle.std.specs.Prelude.{◌≡◌};
ghost use Rattle.disassembly.specs.Rows.{cell_bytes, covers, covered, covered_bytes};

use crate::rows::BlockRow;
use image::Kind;

// The bytes of a cell of the memory that a kind of block is for: a program word has four.
fn cell_bytes(kind: Kind) -> usize
    ensures { result ≡ cell_bytes kind }
{
    match kind {
        Kind::Program => 4,
        Kind::Data | Kind::End => 1,
    }
}

impl BlockRow {
    // Whether the block is of a kind and covers the cell `k` of its memory.
    fn covers_cell(&self, kind: Kind, k: usize) -> bool
        ensures { result ≡ covers kind (cell_bytes kind) k self.now }
    {
        let unit = cell_bytes(kind);
        let first = self.address as usize / unit;
        self.kind == kind && first <= k && k - first < self.count / unit
    }
}

// Whether one of the blocks does.
pub(crate) fn is_covered(rows: &[BlockRow], kind: Kind, k: usize) -> bool
    ensures { result ≡ covered kind (cell_bytes kind) k rows.now }
{
    rows.iter().any(|row| row.covers_cell(kind, k))
}

// How many of the first `len` data bytes a block wrote.
pub(crate) fn covered_bytes(rows: &[BlockRow], len: usize) -> usize
    ensures { result ≡ covered_bytes rows.now len }
{
    (0..len)
        .filter(|k| is_covered(rows, Kind::Data, *k))
        .count()
}
