// RAM of which some pages are missing.
ghost use Rattle.std.specs.Prelude.{◌≡◌, Bool, List, length};
ghost use Rattle.std.specs.Borrow.{GName};
ghost use Rattle.std.specs.Option.{option_map};
ghost use Rattle.std.proofs.Common.{rules};
ghost use Rattle.memory.specs.Bytes.{Cells, loaded, plain};
ghost use Rattle.memory.specs.declared.access.Access.TheVariants.{Store};
ghost use Rattle.storage.specs.Behaviour.{Accessed};
ghost use Rattle.storage.specs.Contents.{cells_of, paged_uses, bytes_after};
ghost use Rattle.storage.specs.Limits.{checked_by};

use crate::bytes;
use crate::bytes::RAM_LIMIT;
use crate::limit::{LimitRefusal, check_length};
use memory::{Answer, DataMemory, PlainMemory};

// How many bytes a page has.
const PAGE: usize = 256;

// A data memory over the caller's bytes, from address 0, with a mark for each page of 256 bytes: whether it is there. It never waits.
// A type beside `Ram`: one type over which pages are there would need a trait with a law (an access lies within one page), for the
// two of them, and be longer; loads, stores and their proofs are shared.
#[derive(Drop)]
pub struct PagedRam<'a> {
    bytes: &'a mut [u8],
    pages: [bool; 256],
}

impl<'a> PagedRam<'a> {
    // Whether paged RAM uses all of these bytes.
    pub fn check(bytes: &[u8]) -> Result<(), LimitRefusal>
        ensures { result ≡ checked_by 65536 (length bytes.now) }
    {
        check_length(RAM_LIMIT, bytes.len())
    }

    // Paged RAM over these bytes, of which it uses at most the first 65,536, on the pages that are marked as there.
    pub fn new(bytes: &'a mut [u8], pages: [bool; 256]) -> PagedRam<'a>
        ensures lent { result.bytes.ghost_name ≡ bytes.entry.ghost_name }
        ensures bytes { result.bytes.now ≡ bytes.old }
        ensures pages { result.pages ≡ pages }
    {
        PagedRam { bytes, pages }
    }

    // The caller's bytes back.
    pub fn into_bytes(self) -> &'a mut [u8]
        ensures lent { result.ghost_name ≡ self.entry.bytes.ghost_name }
        ensures bytes { result.now ≡ self.entry.bytes.now }
    {
        let PagedRam { bytes, pages: _ } = self;
        bytes
    }

    // Whether the page of an address is there.
    fn has_page(&self, address: u32) -> bool
        ensures { result ≡ paged_uses self.now.pages address }
    {
        let place = address as usize;
        place < RAM_LIMIT && self.pages[place / PAGE]
    }

    // An access lies within one page, as its address is a multiple of its width.
    fn read(&self, address: u32, width: u32) -> Option<u32>
        ensures { result ≡ loaded (cells_of (paged_uses self.now.pages) self.now.bytes.now) address width }
    {
        if self.has_page(address) {
            bytes::load(self.bytes, address, width)
        } else {
            None
        }
    }

    fn write(&mut self, address: u32, width: u32, value: u32) -> Option<u32>
        ensures value { result ≡ option_map (λ _. 0) (loaded (cells_of (paged_uses self.old.pages) self.old.bytes.now) address width) }
        ensures bytes { self.new.bytes.now ≡ bytes_after (paged_uses self.old.pages) self.old.bytes.now (Store address width value) }
        ensures lent { self.new.bytes.ghost_name ≡ self.old.bytes.ghost_name }
        ensures pages { self.new.pages ≡ self.old.pages }
    {
        if self.has_page(address) {
            bytes::store(self.bytes, address, width, value)
        } else {
            None
        }
    }
}

impl<'a> DataMemory for PagedRam<'a> {
    ghost Meaning = { Cells };

    ghost means = { λ s. cells_of (paged_uses s.pages) s.bytes.now };

    ghost does = { plain };

    ghost shows = { λ m. m };

    ghost waits = { λ _ _. 0 };

    ghost sound = { λ _. Unit {0} };

    ghost Fixed = { GName × List Bool };

    ghost fixed = { λ s. (s.bytes.ghost_name, s.pages) };

    ghost longest = { λ _. 0 };

    ghost behaves = { λ s x r t. Accessed (paged_uses s.pages) s.bytes x r t.bytes × (t.pages ≡ s.pages) };

    fn load(&mut self, address: u32, width: u32) -> Answer {
        self.read(address, width).into()
    }

    fn store(&mut self, address: u32, width: u32, value: u32) -> Answer {
        self.write(address, width, value).into()
    }

    fn look(&self, address: u32) -> Option<u8> {
        if self.has_page(address) {
            bytes::look(self.bytes, address)
        } else {
            None
        }
    }

    ghost bounded = { Prim.search rules };

    ghost grounded = { Prim.search rules };
}

impl<'a> PlainMemory for PagedRam<'a> {
    ghost plainly = { Prim.search rules };
}
