// Loads and stores: how wide a transfer is, where it goes, and what a load leaves in its register.
ghost use Rattle.std.specs.Prelude.{◌≡◌, Decides};
ghost use Rattle.execute.specs.Transfer.{width_bytes, width_divides, Multiple, load_width, store_width, address_of, load_result, Loaded};

use crate::extend::sign_extend;
use instruction::{LoadKind, StoreKind};

// How many bytes a load or a store moves.
#[derive(Clone, Copy, Debug, PartialEq, Eq, Hash)]
pub enum Width {
    Byte = 1,
    Half = 2,
    Word = 4,
}

impl Width {
    // How many bytes it has.
    pub fn bytes(self) -> u32
        ensures { result ≡ width_bytes self }
    {
        self as u32
    }

    // Whether an address is a multiple of the width.
    pub fn divides(self, address: u32) -> bool
        ensures value { result ≡ width_divides self address }
        ensures law { Decides result (Multiple (width_bytes self) address) }
    {
        address.is_multiple_of(self.bytes())
    }
}

impl From<LoadKind> for Width {
    ghost from_gives = { λ kind width. width ≡ load_width kind };

    fn from(kind: LoadKind) -> Width {
        match kind {
            LoadKind::Byte | LoadKind::ByteUnsigned => Width::Byte,
            LoadKind::Half | LoadKind::HalfUnsigned => Width::Half,
            LoadKind::Word => Width::Word,
        }
    }
}

impl From<StoreKind> for Width {
    ghost from_gives = { λ kind width. width ≡ store_width kind };

    fn from(kind: StoreKind) -> Width {
        match kind {
            StoreKind::Byte => Width::Byte,
            StoreKind::Half => Width::Half,
            StoreKind::Word => Width::Word,
        }
    }
}

// Where a load or a store goes: its base register's word plus its constant.
pub fn effective_address(base: u32, constant: u32) -> u32
    ensures { result ≡ address_of base constant }
{
    base.wrapping_add(constant)
}

// What a load leaves in its register, from the bytes that the memory answered as one number.
pub fn load_result(kind: LoadKind, value: u32) -> u32
    ensures value { result ≡ load_result kind value }
    ensures law { Loaded kind value result }
{
    match kind {
        LoadKind::Byte => sign_extend(value, 8),
        LoadKind::Half => sign_extend(value, 16),
        LoadKind::Word => value,
        LoadKind::ByteUnsigned => value & 0xff,
        LoadKind::HalfUnsigned => value & 0xffff,
    }
}
