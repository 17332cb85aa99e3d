// One packet: what the calls answer as rows.
ghost use Rattle.std.specs.Prelude.{◌≡◌, cond};
ghost use Rattle.wire.specs.Bytes.{bit};
ghost use Rattle.ble_packet.specs.Header.{type_continuation, type_last};
ghost use Rattle.ble_packet.specs.Reader.{told};
ghost use Rattle.capture_packet.specs.Place.{standing_told};
ghost use Rattle.c_packets.specs.Convert.{head_row, packet_row, front_row, captured_row};

use ble_packet::header::{TYPE_CONTINUATION, TYPE_CONTROL, TYPE_FIRST, TYPE_LAST};
use ble_packet::reader;
use ble_packet::reader::{Head, Packet};
use c_rows::row::stream_number;
use capture_packet::{FoundPacket, Refusal};
use capture_reader::RefusedAt;
use wire::bytes::{bit64, wide64};

// The numbers of the answer rows.
pub const READ_ANSWER: usize = 10;

pub const CAPTURE_ANSWER: usize = 5;

// The outcome that is a packet.
const PACKET: u64 = 1;

fn kind_after(last: bool) -> u8
    ensures { result ≡ cond last type_last type_continuation }
{
    if last { TYPE_LAST } else { TYPE_CONTINUATION }
}

// What every row of a packet has, and what the other numbers are by its type.
fn head_row(
    end: usize,
    head: Head,
    kind: u8,
    ack: bool,
    extended: bool,
    total: usize,
    start: usize,
    len: usize,
) -> [u64; 10]
    ensures { result ≡ head_row end head kind (bit ack) (bit extended) total start len }
{
    let stream = head.stream;
    [
        end as u64,
        stream_number(stream),
        wide64(head.id),
        wide64(head.sequence),
        wide64(kind),
        bit64(ack),
        bit64(extended),
        total as u64,
        start as u64,
        len as u64,
    ]
}

fn packet_row(end: usize, extended: bool, packet: Packet) -> [u64; 10]
    ensures { result ≡ packet_row end (bit extended) packet }
{
    match packet {
        Packet::First {
            head,
            ack,
            total,
            start,
            len,
        } => head_row(end, head, TYPE_FIRST, ack, extended, total, start, len),
        Packet::Next {
            head,
            ack,
            last,
            start,
            len,
        } => head_row(end, head, kind_after(last), ack, extended, 0, start, len),
        Packet::Ack(head) => head_row(end, head, TYPE_CONTROL, true, false, 0, 0, 0),
        Packet::Nack(head) => head_row(end, head, TYPE_CONTROL, false, false, 0, 0, 0),
    }
}

pub fn front_row(end: usize, extended: bool, answer: Result<Packet, reader::Refusal>) -> [u64; 10]
    ensures { result ≡ front_row end (bit extended) (told answer) }
{
    match answer {
        Err(_) => [0u64; 10],
        Ok(packet) => packet_row(end, extended, packet),
    }
}

pub fn captured_row(standing: Result<Option<FoundPacket>, RefusedAt<Refusal>>) -> [u64; 5]
    ensures { result ≡ captured_row (standing_told standing) }
{
    match standing {
        Ok(Some(FoundPacket { start, size, next })) => {
            [PACKET, start as u64, size as u64, next as u64, 0]
        }
        Ok(None) => [0u64; 5],
        Err(RefusedAt { why: _, at }) => [0, 0, 0, 0, at as u64],
    }
}
