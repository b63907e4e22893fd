// Laws of plain bytes. These functions do nothing; their contracts are the laws.
ghost use Rattle.memory.specs.ByteLaws.{ByteLaws};
ghost use Rattle.memory.specs.Plain.{Plainly};

use crate::plain_memory::PlainMemory;

// What loads and stores of plain bytes mean, byte by byte.
pub fn plain_bytes()
    ensures { ByteLaws }
{}

// What a memory of plain bytes promises.
pub fn promises_plain_bytes<D: PlainMemory>()
    ensures { Plainly D.does D.shows }
{}
