// A field's tag: its number and its wire type.
ghost use Rattle.std.specs.Prelude.{◌≡◌};
ghost use Rattle.proto_field.specs.Tag.{bad_tag, head_of, tag_at, told_tag};

use crate::Refusal;
use crate::varint::{BASE, read_long};
use wire::bytes::wide64;

// The largest field number.
pub const LAST_FIELD: u64 = 536870911;
// The wire types: a varint, eight bytes, a length and as many bytes, four bytes. They stay numbers: `tag_at`, `value_at` and C's `field_row` tell them.
pub const VARINT: u64 = 0;

pub const FIXED64: u64 = 1;

pub const LENGTH: u64 = 2;

pub const FIXED32: u64 = 5;
// The wire types that a tag can say, and the bits that they take.
pub const WIRE_TYPES: u64 = 8;

const WIRE_BITS: u64 = 3;

// A field's number, its wire type and the place after its tag.
#[derive(Clone, Copy)]
pub struct FieldHead {
    pub field: u64,
    pub wire: u64,
    pub next: usize,
}

// Whether a tag has a field number or a wire type that does not exist.
fn bad_tag(field: u64, wire: u64) -> bool
    ensures { result ≡ bad_tag field wire }
{
    if field == 0 {
        return true;
    }
    if LAST_FIELD < field {
        return true;
    }
    if wire <= LENGTH {
        return false;
    }
    wire != FIXED32
}

// The tag of a varint's value, with the place after it.
fn tag_of(value: u64, next: usize) -> Result<FieldHead, Refusal>
    ensures { told_tag result ≡ head_of (value, next) }
{
    let field = value >> WIRE_BITS;
    let wire = value - field * WIRE_TYPES;
    if bad_tag(field, wire) {
        return Err(Refusal::BadTag);
    }
    Ok(FieldHead { field, wire, next })
}

// The tag at a place. Most have one byte, as in read_varint.
pub fn read_tag(message: &[u8], at: usize) -> Result<FieldHead, Refusal>
    ensures { told_tag result ≡ tag_at message.now at }
{
    if at < message.len() {
        let value = wide64(message[at]);
        if value < BASE {
            let next = at + 1;
            return tag_of(value, next);
        }
    }
    let long = read_long(message, at)?;
    tag_of(long.value, long.next)
}
