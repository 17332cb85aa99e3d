// Unsigned 32-bit numbers in varints.
ghost use Rattle.std.specs.Prelude.{◌≡◌};
ghost use Rattle.proto_field.specs.Unsigned.{unsigned_of};

// The bits of a number of 32 bits, and the number of its values.
const BITS_32: u64 = 32;

const COUNT_32: u64 = 4294967296;

// The low 32 bits of a varint's value.
pub(crate) fn low_bits(value: u64) -> u64
    ensures { result ≡ unsigned_of value }
{
    value - (value >> BITS_32) * COUNT_32
}

// The low 32 bits of a varint's value, as a number of 32 bits.
pub fn low_unsigned(value: u64) -> u32
    ensures { result ≡ unsigned_of value }
{
    low_bits(value) as u32
}
