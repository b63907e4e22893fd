// Loads and stores over a slice of bytes, from address 0, of which at most 65,536 are used. Address and width stay the parts that a
// memory is asked a load or a store with: a struct of the two would be made and taken apart again.
ghost use Rattle.std.specs.Prelude.{◌≡◌};
ghost use Rattle.std.specs.Option.{option_map};
ghost use Rattle.memory.specs.Bytes.{loaded};
ghost use Rattle.memory.specs.declared.access.Access.TheVariants.{Store};
ghost use Rattle.storage.specs.Contents.{cells_of, ram_uses, bytes_after};

// The most bytes that RAM uses.
pub const RAM_LIMIT: usize = 65536;

// The place of the first byte of an access, if it is of 1, 2 or 4 bytes, aligned, and all its bytes are in use.
fn place(bytes: &[u8], address: u32, width: u32) -> Option<usize>
    ensures { result ≡ option_map (λ _. address) (loaded (cells_of ram_uses bytes.now) address width) }
{
    let end = bytes.len().min(RAM_LIMIT);
    let place = address as usize;
    let there = match width {
        1 => place < end,
        2 => place % 2 == 0 && place + 1 < end,
        4 => place % 4 == 0 && place + 3 < end,
        _ => false,
    };
    there.then_some(place)
}

// A load: its bytes as one number, lowest first, if they are there. By cases of the width, as the store below: with a copy of `width`
// bytes into an array the goal `returns` stays (tried), and a copy of a length that is not known would be a call.
pub(crate) fn load(bytes: &[u8], address: u32, width: u32) -> Option<u32>
    ensures { result ≡ loaded (cells_of ram_uses bytes.now) address width }
{
    let at = place(bytes, address, width)?;
    Some(match width {
        1 => u32::from(bytes[at]),
        2 => u32::from(u16::from_le_bytes([bytes[at], bytes[at + 1]])),
        _ => u32::from_le_bytes([bytes[at], bytes[at + 1], bytes[at + 2], bytes[at + 3]]),
    })
}

// A store: the low bytes of the value, lowest first, if its bytes are there. It answers 0.
pub(crate) fn store(bytes: &mut [u8], address: u32, width: u32, value: u32) -> Option<u32>
    ensures value { result ≡ option_map (λ _. 0) (loaded (cells_of ram_uses bytes.old) address width) }
    ensures bytes { bytes.new ≡ bytes_after ram_uses bytes.old (Store address width value) }
{
    let at = place(bytes, address, width)?;
    let [first, second, third, fourth] = value.to_le_bytes();
    bytes[at] = first;
    if width >= 2 {
        bytes[at + 1] = second;
    }
    if width == 4 {
        bytes[at + 2] = third;
        bytes[at + 3] = fourth;
    }
    Some(0)
}

// The byte at an address, if it is in use.
pub(crate) fn look(bytes: &[u8], address: u32) -> Option<u8>
    ensures { result ≡ cells_of ram_uses bytes.now address }
{
    let place = address as usize;
    if place < RAM_LIMIT {
        bytes.get(place).copied()
    } else {
        None
    }
}
