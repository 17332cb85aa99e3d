// Base 128 varints, counted and written.
ghost use Rattle.std.specs.Prelude.{◌≡◌, ◌+◌, ◌≤◌, ◌<◌, length};
ghost use Rattle.wire.specs.Put.{Put};
ghost use Rattle.proto_writer.specs.Varint.{varint_bytes};

use proto_field::varint::BASE;

// The bits of a digit.
const DIGIT_BITS: u64 = 7;

// The number of bytes of the shortest varint of a value. The loops here end by what is left of the value, and not by a count.
pub fn varint_len(value: u64) -> usize
    ensures { (result ≡ length (varint_bytes value)) × (result ≤ 10) }
{
    let mut rest = value;
    let mut n: usize = 1;
    while BASE <= rest {
        rest = rest >> DIGIT_BITS;
        n += 1;
    }
    n
}

// A number below 256 as a byte.
fn narrow(x: u64) -> u8
    requires { x < 256 }
    ensures { result ≡ x }
{
    x as u8
}

// The shortest varint of a value, written at a place; the answer is the place after it.
pub(crate) fn put_varint(out: &mut [u8], at: usize, value: u64) -> usize
    requires { at + length (varint_bytes value) ≤ length out.old }
    ensures { Put out.old at (varint_bytes value) result out.new }
{
    let mut rest = value;
    let mut i = at;
    while BASE <= rest {
        let higher = rest >> DIGIT_BITS;
        out[i] = narrow(rest - higher * BASE + BASE);
        rest = higher;
        i += 1;
    }
    out[i] = narrow(rest);
    i + 1
}
