// Bytes and numbers, and runs of bytes in a lent slice.
ghost use Rattle.std.specs.Prelude.{◌≡◌, ◌+◌, ◌≤◌, ◌<◌, min, length, get_or};
ghost use Rattle.std.proofs.lemmas.List.Edits.{sets};
ghost use Rattle.wire.specs.Bytes.{bit, pair_of, pair_bytes};

const BYTE_BITS: usize = 8;

// A byte as a larger number.
pub fn wide(b: u8) -> usize
    ensures { (result ≡ b) × (result < 256) }
{
    usize::from(b)
}

// A byte as a number of 64 bits.
pub fn wide64(b: u8) -> u64
    ensures { (result ≡ b) × (result < 256) }
{
    u64::from(b)
}

// A flag as a number.
pub fn bit(b: bool) -> u8
    ensures { (result ≡ bit b) × (result < 2) }
{
    u8::from(b)
}

// The same in 64 bits.
pub fn bit64(b: bool) -> u64
    ensures { (result ≡ bit b) × (result < 2) }
{
    u64::from(b)
}

// The byte at a place; 0 past the end.
pub fn byte_at(bytes: &[u8], at: usize) -> u8
    ensures { result ≡ get_or bytes.now at 0 }
{
    bytes.get(at).copied().unwrap_or(0)
}

// The number of two bytes, big-endian.
pub fn pair(high: u8, low: u8) -> usize
    ensures { (result ≡ pair_of high low) × (result < 65536) }
{
    wide(high) * 256 + wide(low)
}

// Writes a number as two bytes, big-endian, at a place.
pub fn put_pair(out: &mut [u8], at: usize, n: usize)
    requires { (at + 2 ≤ length out.old) × (n < 65536) }
    ensures { out.new ≡ sets out.old at (pair_bytes n) }
{
    let high = n >> BYTE_BITS;
    out[at] = high as u8;
    out[at + 1] = (n - high * 256) as u8;
}

// Writes a run of bytes from a place on. By a loop and not by copy_from_slice: what the two cost stands at copy_clear of scan.rt.
pub fn copy(out: &mut [u8], at: usize, run: &[u8])
    requires { at + length run.now ≤ length out.old }
    ensures { out.new ≡ sets out.old at run.now }
{
    for i in 0..run.len() {
        out[at + i] = run[i];
    }
}

// The smaller of two numbers.
pub fn smaller(a: usize, b: usize) -> usize
    ensures { (result ≡ min a b) × (result ≤ a) × (result ≤ b) }
{
    a.min(b)
}
