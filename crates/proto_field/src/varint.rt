// Base 128 varints, read.
ghost use Rattle.std.specs.Prelude.{◌≡◌};
ghost use Rattle.proto_field.specs.Varint.{varint_at, told_varint};

use crate::Refusal;
use wire::bytes::wide64;

// A varint has at most this many bytes after its first.
const MORE_BYTES: usize = 9;
// The largest tenth byte.
const LAST_BYTE: u64 = 1;
// The base of the digits, and what a byte adds to its digit to say that more follow.
pub const BASE: u64 = 128;

// What was read at a place of a message, and the place after it.
#[derive(Clone, Copy)]
pub struct Placed<T> {
    pub value: T,
    pub next: usize,
}

// The varint at a place. Most have one byte: this function is small enough that those are read in the caller's own code.
pub fn read_varint(message: &[u8], at: usize) -> Result<Placed<u64>, Refusal>
    ensures { told_varint result ≡ varint_at message.now at }
{
    if at < message.len() {
        let value = wide64(message[at]);
        if value < BASE {
            let next = at + 1;
            return Ok(Placed { value, next });
        }
    }
    read_long(message, at)
}

// The varint at a place, byte by byte. With two callers, read_varint and read_tag, the compiler keeps it out of line.
pub(crate) fn read_long(message: &[u8], at: usize) -> Result<Placed<u64>, Refusal>
    ensures { told_varint result ≡ varint_at message.now at }
{
    let mut value: u64 = 0;
    let mut weight: u64 = 1;
    let mut left = MORE_BYTES;
    for i in at..message.len() {
        let byte = wide64(message[i]);
        if left == 0 {
            if LAST_BYTE < byte {
                return Err(Refusal::TooLong);
            }
            let whole = value + weight * byte;
            let next = i + 1;
            return Ok(Placed { value: whole, next });
        }
        if byte < BASE {
            let whole = value + weight * byte;
            let next = i + 1;
            return Ok(Placed { value: whole, next });
        }
        value += weight * (byte - BASE);
        weight *= BASE;
        left -= 1;
    }
    Err(Refusal::Cut)
}
