// Data memories of plain bytes.
ghost use Rattle.memory.specs.Plain.{Plainly};

use crate::data_memory::DataMemory;

// A data memory of plain bytes: a load alters nothing, a store replaces its bytes alone, and any access of 1, 2 or 4 bytes
// is done if it is aligned and its bytes are there.
pub trait PlainMemory: DataMemory {
    ghost plainly: { Plainly Self.does Self.shows };
}
