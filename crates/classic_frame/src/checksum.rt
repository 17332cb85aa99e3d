// The checksum of a payload.
ghost use Rattle.std.specs.Prelude.{◌≡◌, ◌+◌, ◌%◌, ◌<◌, ◌≤◌, length};
ghost use Rattle.classic_frame.specs.Frame.{sum_of, checksum_of, checked};

use wire::bytes::pair;

// A sum after one more byte, modulo 65,536.
pub fn add_byte(sum: u16, b: u8) -> u16
    ensures { result ≡ (sum + b) % 65536 }
{
    std::num::wrapping_add_u16(sum, b as u16)
}

// A sum after some more bytes, modulo 65,536.
pub fn add_all(sum: u16, bytes: &[u8]) -> u16
    ensures { result ≡ (sum + sum_of bytes.now) % 65536 }
{
    let mut after = sum;
    for b in bytes {
        after = add_byte(after, *b);
    }
    after
}

// 2 plus the sum of the bytes, modulo 65,536.
pub fn checksum(payload: &[u8]) -> usize
    ensures { (result ≡ checksum_of payload.now) × (result < 65536) }
{
    add_all(2, payload) as usize
}

// Whether the first len bytes are followed by their checksum.
pub fn is_checked(buffer: &[u8], len: usize) -> bool
    requires { len + 2 ≤ length buffer.now }
    ensures { result ≡ checked buffer.now len }
{
    let sum = checksum(&buffer[..len]);
    sum == pair(buffer[len], buffer[len + 1])
}
