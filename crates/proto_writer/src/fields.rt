// Fields written into a lent output, and the numbers of bytes that they take. Of each kind of field one function counts and one writes:
// one generic over both would name the same steps a third time.
ghost use Rattle.std.specs.Prelude.{◌≡◌, map, ◌+◌, ◌*◌, ◌≤◌, ◌<◌, ◌^◌, length};
ghost use Rattle.wire.specs.Put.{Put};
ghost use Rattle.proto_field.specs.Signed.{extended};
ghost use Rattle.proto_field.specs.Tag.{last_field};
ghost use Rattle.proto_writer.specs.Writer.{scalar, text, packed, head_bytes, part_bytes, varints_bytes, field_bytes};

use crate::varint::{put_varint, varint_len};
use proto_field::signed::sign_extended;
use proto_field::tag::{LENGTH, VARINT, WIRE_TYPES};
use wire::bytes::copy;

// The number of bytes of a scalar.
pub fn scalar_len(field: u64, value: u64) -> usize
    requires { field ≤ last_field }
    ensures { (result ≡ length (field_bytes (scalar field value))) × (result ≤ 20) }
{
    if value == 0 {
        return 0;
    }
    let tag = field * WIRE_TYPES + VARINT;
    varint_len(tag) + varint_len(value)
}

// A scalar, written at a place; the answer is the place after it.
pub fn put_scalar(out: &mut [u8], at: usize, field: u64, value: u64) -> usize
    requires { (field ≤ last_field) × (at + length (field_bytes (scalar field value)) ≤ length out.old) }
    ensures { Put out.old at (field_bytes (scalar field value)) result out.new }
{
    if value == 0 {
        return at;
    }
    let tag = field * WIRE_TYPES + VARINT;
    let next = put_varint(out, at, tag);
    put_varint(out, next, value)
}

// The number of bytes of the tag and the length before a part.
pub fn head_len(field: u64, len: usize) -> usize
    requires { field ≤ last_field }
    ensures { (result ≡ length (head_bytes field len)) × (result ≤ 20) }
{
    let tag = field * WIRE_TYPES + LENGTH;
    varint_len(tag) + varint_len(len as u64)
}

// The tag and the length before a part, written at a place; the answer is the place after them.
pub fn put_head(out: &mut [u8], at: usize, field: u64, len: usize) -> usize
    requires { (field ≤ last_field) × (at + length (head_bytes field len) ≤ length out.old) }
    ensures { Put out.old at (head_bytes field len) result out.new }
{
    let tag = field * WIRE_TYPES + LENGTH;
    let next = put_varint(out, at, tag);
    put_varint(out, next, len as u64)
}

// The number of bytes of a part.
pub fn part_len(field: u64, bytes: &[u8]) -> usize
    requires { field ≤ last_field }
    ensures { (result ≡ length (part_bytes field bytes.now)) × (result ≤ 20 + length bytes.now) }
{
    head_len(field, bytes.len()) + bytes.len()
}

// A part, written at a place; the answer is the place after it.
pub fn put_part(out: &mut [u8], at: usize, field: u64, bytes: &[u8]) -> usize
    requires { (field ≤ last_field) × (at + length (part_bytes field bytes.now) ≤ length out.old) }
    ensures { Put out.old at (part_bytes field bytes.now) result out.new }
{
    let start = put_head(out, at, field, bytes.len());
    copy(out, start, bytes);
    start + bytes.len()
}

// The number of bytes of a string.
pub fn text_len(field: u64, bytes: &[u8]) -> usize
    requires { field ≤ last_field }
    ensures { (result ≡ length (field_bytes (text field bytes.now)))
        × (result ≤ 20 + length bytes.now) }
{
    if bytes.len() == 0 {
        return 0;
    }
    part_len(field, bytes)
}

// A string, written at a place; the answer is the place after it.
pub fn put_text(out: &mut [u8], at: usize, field: u64, bytes: &[u8]) -> usize
    requires { (field ≤ last_field) × (at + length (field_bytes (text field bytes.now)) ≤ length out.old) }
    ensures { Put out.old at (field_bytes (text field bytes.now)) result out.new }
{
    if bytes.len() == 0 {
        return at;
    }
    put_part(out, at, field, bytes)
}

// The number of bytes of signed numbers as varints.
fn varints_len(list: &[i32]) -> usize
    requires { length list.now < 2 ^ 32 }
    ensures { (result ≡ length (varints_bytes (map extended list.now)))
        × (result ≤ 10 * length list.now) }
{
    let mut n: usize = 0;
    for value in list {
        n += varint_len(sign_extended(*value));
    }
    n
}

// Signed numbers as varints, written at a place; the answer is the place after them.
fn put_varints(out: &mut [u8], at: usize, list: &[i32]) -> usize
    requires { at + length (varints_bytes (map extended list.now)) ≤ length out.old }
    ensures { Put out.old at (varints_bytes (map extended list.now)) result out.new }
{
    let mut next = at;
    for value in list {
        next = put_varint(out, next, sign_extended(*value));
    }
    next
}

// The number of bytes of a packed list.
pub fn packed_len(field: u64, list: &[i32]) -> usize
    requires { (field ≤ last_field) × (length list.now < 2 ^ 32) }
    ensures { result ≡ length (field_bytes (packed field (map extended list.now))) }
{
    if list.len() == 0 {
        return 0;
    }
    let len = varints_len(list);
    head_len(field, len) + len
}

// A packed list, written at a place; the answer is the place after it.
pub fn put_packed(out: &mut [u8], at: usize, field: u64, list: &[i32]) -> usize
    requires { (field ≤ last_field)
        × (length list.now < 2 ^ 32)
        × (at + length (field_bytes (packed field (map extended list.now))) ≤ length out.old) }
    ensures { Put out.old at (field_bytes (packed field (map extended list.now))) result
        out.new }
{
    if list.len() == 0 {
        return at;
    }
    let len = varints_len(list);
    let start = put_head(out, at, field, len);
    put_varints(out, start, list)
}
