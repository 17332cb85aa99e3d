// A field's value, as its wire type says.
ghost use Rattle.std.specs.Prelude.{◌≡◌, ◌+◌, ◌≤◌, length, take};
ghost use Rattle.proto_field.specs.Value.{bytes_of, skipped_at, part_of, value_at, told_value, TellsWithin, read_parts};

use crate::Refusal;
use crate::tag::{FIXED32, FIXED64, LENGTH, VARINT};
use crate::varint::{Placed, read_varint};

// A part of the lent message.
#[derive(Clone, Copy)]
pub struct Part {
    pub start: usize,
    pub len: usize,
}

impl Part {
    // The bytes of the part.
    pub fn of(self, message: &[u8]) -> &[u8]
        requires { self.start + self.len ≤ length message.now }
        ensures { result.now ≡ bytes_of message.now self }
    {
        let end = self.start + self.len;
        &message[self.start..end]
    }

    // The message up to the part's end: what is read of the part as a message, from its start on.
    pub fn up_to_end(self, message: &[u8]) -> &[u8]
        requires { self.start + self.len ≤ length message.now }
        ensures { result.now ≡ take (self.start + self.len) message.now }
    {
        let end = self.start + self.len;
        &message[..end]
    }
}

// What a field holds: a number, a part of the message whose length is told, or eight or four bytes that are passed over.
#[derive(Clone, Copy)]
pub enum Value {
    Number(u64),
    Bytes(Part),
    Skipped(Part),
}

// Bytes that are passed over, n of them.
fn skip(message: &[u8], at: usize, n: usize) -> Result<Placed<Value>, Refusal>
    ensures { told_value result ≡ skipped_at message.now at n }
{
    let size = message.len();
    if at <= size {
        if n <= size - at {
            let next = at + n;
            return Ok(Placed {
                value: Value::Skipped(Part { start: at, len: n }),
                next,
            });
        }
    }
    Err(Refusal::Cut)
}

// The bytes that a length counts, from the place after it.
fn part_of(message: &[u8], value: u64, next: usize) -> Result<Placed<Value>, Refusal>
    requires { next ≤ length message.now }
    ensures { told_value result ≡ part_of message.now (value, next) }
{
    let size = message.len();
    let left = size - next;
    if value <= left as u64 {
        let len = value as usize;
        let end = next + len;
        return Ok(Placed {
            value: Value::Bytes(Part { start: next, len }),
            next: end,
        });
    }
    Err(Refusal::Cut)
}

// The value of a wire type at a place. A number and a length are read by the same code, which makes it small enough to be inlined.
pub fn read_value(message: &[u8], at: usize, wire: u64) -> Result<Placed<Value>, Refusal>
    ensures result_value { told_value result ≡ value_at message.now at wire }
    ensures tells_within { TellsWithin message.now read_parts (told_value result) }
{
    if LENGTH < wire {
        if wire == FIXED32 {
            return skip(message, at, 4);
        }
        return Err(Refusal::BadTag);
    }
    if wire == FIXED64 {
        return skip(message, at, 8);
    }
    let varint = read_varint(message, at)?;
    if wire == VARINT {
        return Ok(Placed {
            value: Value::Number(varint.value),
            next: varint.next,
        });
    }
    part_of(message, varint.value, varint.next)
}
