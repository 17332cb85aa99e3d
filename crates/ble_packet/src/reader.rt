// Reads one packet, by the table of refusals from the top.
ghost use Rattle.std.specs.Prelude.{◌≡◌, true, false, cond, ℕ, ◌≤◌, ◌<◌, length};
ghost use Rattle.ble_packet.specs.declared.reader.Refusal.TheVariants.{UnknownStream};
ghost use Rattle.ble_packet.specs.Header.{header_size};
ghost use Rattle.ble_packet.specs.Reader.{length_at, is_acknowledgement, start_bits_of, fields_by_start, head_in, judged, read_of, number_of, told};

use crate::{control, header};
use wire::bytes::{byte_at, pair, wide};
use wire::logic::both;
use wire::refusal::Numbered;
use wire::stream::{NoStream, Stream};

#[derive(Clone, Copy)]
pub struct Head {
    pub stream: Stream,
    pub id: u8,
    pub sequence: u8,
}

// What bytes 0 and 1 say of a packet whose stream is known, but for its type.
#[derive(Clone, Copy)]
struct StartBits {
    head: Head,
    ack: bool,
    extended: bool,
}

// What a packet says: start and len are its payload's place in the packet. No struct beside each variant: `act_of` of ble_slot_steps,
// `slot_step` of capture_stream and the claims above them name each value by the variant alone.
#[derive(Clone, Copy)]
pub enum Packet {
    First {
        head: Head,
        ack: bool,
        total: usize,
        start: usize,
        len: usize,
    },
    Next {
        head: Head,
        ack: bool,
        last: bool,
        start: usize,
        len: usize,
    },
    Ack(Head),
    Nack(Head),
}

impl Packet {
    pub fn head(self) -> Head
        ensures { result ≡ head_in self }
    {
        match self {
            Packet::First {
                head,
                ack: _,
                total: _,
                start: _,
                len: _,
            } => head,
            Packet::Next {
                head,
                ack: _,
                last: _,
                start: _,
                len: _,
            } => head,
            Packet::Ack(head) => head,
            Packet::Nack(head) => head,
        }
    }
}

#[derive(Clone, Copy, Debug, PartialEq, Eq)]
pub enum Refusal {
    Short,
    UnknownStream,
    BadControl,
    Reserved,
    Length,
    TotalOver,
    Empty,
    AboveTotal,
}

impl Numbered for Refusal {
    ghost number_of = { number_of };

    fn number(&self) -> u8 {
        match self {
            Refusal::Short => 2,
            Refusal::UnknownStream => 3,
            Refusal::BadControl => 12,
            Refusal::Reserved => 4,
            Refusal::Length => 5,
            Refusal::TotalOver => 6,
            Refusal::Empty => 7,
            Refusal::AboveTotal => 8,
        }
    }
}

impl From<NoStream> for Refusal {
    ghost from_gives = { λ why given. given ≡ UnknownStream };

    fn from(_why: NoStream) -> Self {
        Refusal::UnknownStream
    }
}

// The payload length: one byte, or two with the extender.
pub fn length_at(packet: &[u8], at: usize, extended: bool) -> usize
    requires { at < 6 }
    ensures { (result ≡ length_at packet.now at extended) × (result < 65536) }
{
    let high = byte_at(packet, at);
    if extended {
        return pair(high, byte_at(packet, at + 1));
    }
    wide(high)
}

// Whether extender and tail are an acknowledgement's.
fn is_acknowledgement(packet: &[u8], ack: bool, extended: bool) -> bool
    ensures { result ≡ is_acknowledgement packet.now ack extended }
{
    let code = control::ack_code(ack);
    let end = both(
        byte_at(packet, 4) == control::ACK_MARK,
        byte_at(packet, 5) == code,
    );
    let tail = both(byte_at(packet, 3) == control::ACK_LENGTH, end);
    let whole = both(byte_at(packet, 2) == control::ACK_RESERVED, tail);
    let exact = both(packet.len() == control::ACK_SIZE, whole);
    both(!extended, exact)
}

fn start_bits(stream: Stream, first: u8, second: u8) -> StartBits
    ensures { result ≡ start_bits_of stream first second }
{
    StartBits {
        head: Head {
            stream,
            id: header::id_bits(first),
            sequence: header::sequence_bits(second),
        },
        ack: header::ack_bit(second),
        extended: header::extender_bit(second),
    }
}

// ---- the table of refusals, in its order: what is left of it for each type, where 2 and 3 were passed

fn read_control(packet: &[u8], s: StartBits) -> Result<Packet, Refusal>
    requires { 2 ≤ length packet.now }
    ensures { (limit : ℕ) → told result ≡ judged limit (fields_by_start packet.now 3 s) }
{
    let exact = is_acknowledgement(packet, s.ack, s.extended);
    if !exact {
        return Err(Refusal::BadControl);
    }
    if s.ack {
        return Ok(Packet::Ack(s.head));
    }
    Ok(Packet::Nack(s.head))
}

#[inline(always)]
fn read_first(limit: usize, packet: &[u8], s: StartBits) -> Result<Packet, Refusal>
    requires { header_size true s.extended ≤ length packet.now }
    ensures { told result ≡ judged limit (fields_by_start packet.now 0 s) }
{
    let reserved = byte_at(packet, 2);
    if reserved != header::RESERVED {
        return Err(Refusal::Reserved);
    }
    let start = header::header_size(true, s.extended);
    let len = length_at(packet, header::length_place(true), s.extended);
    if packet.len() != start + len {
        return Err(Refusal::Length);
    }
    let total = pair(byte_at(packet, 3), byte_at(packet, 4));
    if limit < total {
        return Err(Refusal::TotalOver);
    }
    if both(len == 0, total != 0) {
        return Err(Refusal::Empty);
    }
    if total < len {
        return Err(Refusal::AboveTotal);
    }
    Ok(Packet::First {
        head: s.head,
        ack: s.ack,
        total,
        start,
        len,
    })
}

// Last, or a continuation.
fn read_next(packet: &[u8], s: StartBits, last: bool) -> Result<Packet, Refusal>
    requires { header_size false s.extended ≤ length packet.now }
    ensures { (limit : ℕ) → told result ≡ judged limit (fields_by_start packet.now (cond last 2 1) s) }
{
    let start = header::header_size(false, s.extended);
    let len = length_at(packet, header::length_place(false), s.extended);
    if packet.len() != start + len {
        return Err(Refusal::Length);
    }
    if len == 0 {
        return Err(Refusal::Empty);
    }
    Ok(Packet::Next {
        head: s.head,
        ack: s.ack,
        last,
        start,
        len,
    })
}

// What one packet says, or why it is refused; the limit is the largest total.
pub fn read(limit: usize, packet: &[u8]) -> Result<Packet, Refusal>
    ensures { told result ≡ read_of limit packet.now }
{
    if packet.len() < header::START_SIZE {
        return Err(Refusal::Short);
    }
    let first = byte_at(packet, 0);
    let second = byte_at(packet, 1);
    let kind = header::type_bits(second);
    let extended = header::extender_bit(second);
    let size = header::header_size(kind == header::TYPE_FIRST, extended);
    if both(kind != header::TYPE_CONTROL, packet.len() < size) {
        return Err(Refusal::Short);
    }
    let stream = Stream::try_from(header::stream_bits(first))?;
    let s = start_bits(stream, first, second);
    if kind == header::TYPE_CONTROL {
        return read_control(packet, s);
    }
    if kind == header::TYPE_FIRST {
        return read_first(limit, packet, s);
    }
    read_next(packet, s, kind == header::TYPE_LAST)
}
