// RAM over the caller's bytes.
ghost use Rattle.std.specs.Prelude.{◌≡◌, length};
ghost use Rattle.std.specs.Borrow.{GName};
ghost use Rattle.std.proofs.Common.{rules};
ghost use Rattle.memory.specs.Bytes.{Cells, loaded, plain};
ghost use Rattle.storage.specs.Behaviour.{Accessed};
ghost use Rattle.storage.specs.Contents.{cells_of, ram_uses};
ghost use Rattle.storage.specs.Limits.{checked_by};

use crate::bytes;
use crate::bytes::RAM_LIMIT;
use crate::limit::{LimitRefusal, check_length};
use memory::{Answer, DataMemory, PlainMemory};

// A data memory over the caller's bytes, from address 0. It never waits.
#[derive(Drop)]
pub struct Ram<'a> {
    bytes: &'a mut [u8],
}

impl<'a> Ram<'a> {
    // Whether RAM uses all of these bytes.
    pub fn check(bytes: &[u8]) -> Result<(), LimitRefusal>
        ensures { result ≡ checked_by 65536 (length bytes.now) }
    {
        check_length(RAM_LIMIT, bytes.len())
    }

    // RAM over these bytes, of which it uses at most the first 65,536.
    pub fn new(bytes: &'a mut [u8]) -> Ram<'a>
        ensures lent { result.bytes.ghost_name ≡ bytes.entry.ghost_name }
        ensures bytes { result.bytes.now ≡ bytes.old }
    {
        Ram { bytes }
    }

    // The caller's bytes back.
    pub fn into_bytes(self) -> &'a mut [u8]
        ensures lent { result.ghost_name ≡ self.entry.bytes.ghost_name }
        ensures bytes { result.now ≡ self.entry.bytes.now }
    {
        let Ram { bytes } = self;
        bytes
    }

    fn read(&self, address: u32, width: u32) -> Option<u32>
        ensures { result ≡ loaded (cells_of ram_uses self.now.bytes.now) address width }
    {
        bytes::load(self.bytes, address, width)
    }
}

impl<'a> DataMemory for Ram<'a> {
    ghost Meaning = { Cells };

    ghost means = { λ s. cells_of ram_uses s.bytes.now };

    ghost does = { plain };

    ghost shows = { λ m. m };

    ghost waits = { λ _ _. 0 };

    ghost sound = { λ _. Unit {0} };

    ghost Fixed = { GName };

    ghost fixed = { λ s. s.bytes.ghost_name };

    ghost longest = { λ _. 0 };

    ghost behaves = { λ s x r t. Accessed ram_uses s.bytes x r t.bytes };

    fn load(&mut self, address: u32, width: u32) -> Answer {
        self.read(address, width).into()
    }

    fn store(&mut self, address: u32, width: u32, value: u32) -> Answer {
        bytes::store(self.bytes, address, width, value).into()
    }

    fn look(&self, address: u32) -> Option<u8> {
        bytes::look(self.bytes, address)
    }

    ghost bounded = { Prim.search rules };

    ghost grounded = { Prim.search rules };
}

impl<'a> PlainMemory for Ram<'a> {
    ghost plainly = { Prim.search rules };
}
