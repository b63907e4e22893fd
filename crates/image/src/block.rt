// One block, read from its 512 bytes by the rules.
ghost use Rattle.std.specs.Prelude.{◌≡◌, ◌≤◌, false};
ghost use Rattle.image.specs.Format.{kind_number, kind_byte, zero_byte, count_of, address_of, payload_of};
ghost use Rattle.image.specs.Rules.{wrong_kind, wrong_count, wrong_address, wrong_rest};
ghost use Rattle.image.specs.Reading.{Parsed, Ruled};

use crate::bytes::{BLOCK, CHECK_AT, all_zero, word_at, word_sum};
use crate::{Ends, Fault, Kind};

// Where the payload begins, and the most bytes that it may have.
const PAYLOAD_AT: usize = 12;

const PAYLOAD_MAX: u16 = 496;

// A block that breaks no rule. Its payload is a part of the image.
#[derive(Clone, Copy, Debug, PartialEq, Eq, Hash)]
pub struct Block<'a> {
    pub place: usize,
    pub kind: Kind,
    pub address: u32,
    pub payload: &'a [u8],
}

// The block in `bytes`, or the first rule that it breaks. `last`: it is the image's last block.
#[tactic(auto, unfolding(crate::specs::Rules::fault_of))]
pub(crate) fn parse<'a>(
    bytes: &'a [u8; BLOCK],
    place: usize,
    last: bool,
    ends: Ends,
) -> Result<Block<'a>, Fault>
    ensures { Parsed bytes.now place last ends result }
{
    rule(word_at(bytes, CHECK_AT) != word_sum(bytes), Fault::Check)?;
    rule(word_at(bytes, 0) as usize != place, Fault::Number)?;
    let kind = read_kind(bytes)?;
    let count = read_count(bytes, kind)?;
    let address = read_address(bytes, kind, count, ends)?;
    let payload = read_payload(bytes, count)?;
    // An end block stands last, and nothing else does.
    rule((kind == Kind::End) != last, Fault::End)?;
    Ok(Block {
        place,
        kind,
        address,
        payload,
    })
}

// A rule that reads nothing: its fault where it is broken.
fn rule(broken: bool, fault: Fault) -> Result<(), Fault>
    ensures { Ruled broken fault (λ _. Unit {0}) result }
{
    if broken { Err(fault) } else { Ok(()) }
}

// The kind that byte 4 says, where byte 5 is 0.
fn read_kind(bytes: &[u8; BLOCK]) -> Result<Kind, Fault>
    ensures { Ruled (wrong_kind (kind_byte bytes.now) (zero_byte bytes.now)) Fault.Kind (λ kind. kind_number kind ≡ kind_byte bytes.now) result }
{
    if bytes[5] != 0 {
        return Err(Fault::Kind);
    }
    Kind::try_from(bytes[4])
}

// The number of payload bytes; an end block has none.
fn read_count(bytes: &[u8; BLOCK], kind: Kind) -> Result<u16, Fault>
    ensures { Ruled (wrong_count (kind_number kind) (count_of bytes.now)) Fault.Count (λ count. count ≡ count_of bytes.now) result }
{
    let count = u16::from_le_bytes([bytes[6], bytes[7]]);
    if count > PAYLOAD_MAX || count % 4 != 0 || kind == Kind::End && count != 0 {
        return Err(Fault::Count);
    }
    Ok(count)
}

// The address of a payload of `count` bytes.
fn read_address(bytes: &[u8; BLOCK], kind: Kind, count: u16, ends: Ends) -> Result<u32, Fault>
    requires { wrong_count (kind_number kind) count ≡ false }
    ensures { Ruled (wrong_address (kind_number kind) (address_of bytes.now) count ends) Fault.Address (λ address. address ≡ address_of bytes.now) result }
{
    let address = word_at(bytes, 8);
    if address % 4 != 0 || address as usize + usize::from(count) > ends.end_for(kind) {
        return Err(Fault::Address);
    }
    Ok(address)
}

// The payload. The bytes beyond it, up to the check, are 0.
fn read_payload<'a>(bytes: &'a [u8; BLOCK], count: u16) -> Result<&'a [u8], Fault>
    requires is_count { count ≡ count_of bytes.now }
    requires fits { count ≤ 496 }
    ensures { Ruled (wrong_rest bytes.now) Fault.Stray (λ payload. payload.now ≡ payload_of bytes.now) result }
{
    let count = usize::from(count);
    if !all_zero(&bytes[PAYLOAD_AT + count..CHECK_AT]) {
        return Err(Fault::Stray);
    }
    Ok(&bytes[PAYLOAD_AT..PAYLOAD_AT + count])
}
