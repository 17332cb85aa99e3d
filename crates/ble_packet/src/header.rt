// The layout of a packet's header, for the reader and the writers.
ghost use Rattle.std.specs.Prelude.{◌≡◌, ◌%◌, ◌<◌, eqb};
ghost use Rattle.ble_packet.specs.Header.{in_range, least_header, length_place, header_size, first_byte, second_byte, stream_bits, id_bits, sequence_bits, type_bits, ack_bit, extender_bit, sequence_after};

use wire::bytes::{bit, wide};
use wire::logic::both;
use wire::stream::is_stream;

// How many ids there are, and sequences: four bits each.
pub const FOUR_BITS: u8 = 16;

// Whether a writer's stream, id and sequence are in their ranges.
pub fn in_range(stream: u8, id: u8, sequence: u8) -> bool
    ensures { result ≡ in_range stream id sequence }
{
    let low = both(id < FOUR_BITS, sequence < FOUR_BITS);
    both(is_stream(stream), low)
}

// Byte 2 of a first packet.
pub const RESERVED: u8 = 0;

// The types: first or only, continuation, last, control. They stay numbers: byte 1 is made of them (second_byte), and C is told them.
pub const TYPE_FIRST: u8 = 0;

pub const TYPE_CONTINUATION: u8 = 1;

pub const TYPE_LAST: u8 = 2;

pub const TYPE_CONTROL: u8 = 3;

// The two bytes that every packet begins with.
pub const START_SIZE: usize = 2;

// The header of a first packet, and of one that follows, where the payload length has one byte.
pub const FIRST_HEADER: usize = 6;

pub const NEXT_HEADER: usize = 3;

pub fn least_header(first: bool) -> usize
    ensures { (result ≡ least_header first) × (result < 7) × (2 < result) }
{
    if first { FIRST_HEADER } else { NEXT_HEADER }
}

// Where the payload length stands: right before the payload.
pub fn length_place(first: bool) -> usize
    ensures { (result ≡ length_place first) × (result < 6) }
{
    least_header(first) - 1
}

// The whole header: the extender gives the payload length one byte more.
pub fn header_size(first: bool, extended: bool) -> usize
    ensures { (result ≡ header_size first extended) × (result < 8) }
{
    least_header(first) + wide(bit(extended))
}

// Byte 0: stream and transaction id.
pub fn first_byte(stream: u8, id: u8) -> u8
    requires { (stream < 16) × (id < 16) }
    ensures { result ≡ first_byte stream id }
{
    stream * FOUR_BITS + id
}

// Byte 1: sequence, type, ACK flag and extender.
pub fn second_byte(sequence: u8, kind: u8, ack: bool, extended: bool) -> u8
    requires { (sequence < 16) × (kind < 4) }
    ensures { result ≡ second_byte sequence kind ack extended }
{
    sequence * FOUR_BITS + kind * 4 + bit(ack) * 2 + bit(extended)
}

// What byte 0 says.
pub fn stream_bits(first: u8) -> u8
    ensures { result ≡ stream_bits first }
{
    first >> 4
}

pub fn id_bits(first: u8) -> u8
    ensures { result ≡ id_bits first }
{
    let high = first >> 4;
    first - high * FOUR_BITS
}

fn is_odd(n: u8) -> bool
    ensures { result ≡ eqb (n % 2) 1 }
{
    let half = n >> 1;
    n - half * 2 == 1
}

// What byte 1 says.
pub fn sequence_bits(second: u8) -> u8
    ensures { result ≡ sequence_bits second }
{
    second >> 4
}

pub fn type_bits(second: u8) -> u8
    ensures { result ≡ type_bits second }
{
    let high = second >> 4;
    (second >> 2) - high * 4
}

pub fn ack_bit(second: u8) -> bool
    ensures { result ≡ ack_bit second }
{
    is_odd(second >> 1)
}

pub fn extender_bit(second: u8) -> bool
    ensures { result ≡ extender_bit second }
{
    is_odd(second)
}

// The sequence n packets later: 0 follows 15.
pub fn sequence_after(sequence: u8, n: usize) -> u8
    ensures { (result ≡ sequence_after sequence n) × (result < 16) }
{
    let rounds = n >> 4;
    let later = (n - rounds * 16) as u8;
    id_bits(id_bits(sequence) + later)
}
