// Signed 32-bit numbers in varints.
ghost use Rattle.std.specs.Prelude.{◌≡◌};
ghost use Rattle.proto_field.specs.Signed.{signed_of, extended};

use crate::unsigned::low_bits;

// The largest number of 32 bits and of 64 bits.
const MAX_32: u64 = 4294967295;

const MAX_64: u64 = 18446744073709551615;
// The first of the values of 32 bits that is a negative number's.
const FIRST_NEGATIVE: u64 = 2147483648;

// The low 32 bits of a varint's value, in two's complement.
pub fn low_signed(value: u64) -> i32
    ensures { result ≡ signed_of value }
{
    let low = low_bits(value);
    if low < FIRST_NEGATIVE {
        low as i32
    } else {
        -1 - (MAX_32 - low) as i32
    }
}

// The 64 bits of a signed number, sign-extended.
pub fn sign_extended(x: i32) -> u64
    ensures { result ≡ extended x }
{
    if x < 0 {
        MAX_64 - (-1 - x) as u64
    } else {
        x as u64
    }
}
