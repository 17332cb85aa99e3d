// One packet of a message, written at a place.
ghost use Rattle.std.specs.Prelude.{◌≡◌, ◌+◌, ◌≤◌, ◌<◌, length};
ghost use Rattle.std.proofs.lemmas.List.Edits.{sets};
ghost use Rattle.wire.specs.Told.{given, written};
ghost use Rattle.ble_packet.specs.Header.{four_bits, start_size, length_place, header_size};
ghost use Rattle.ble_sender.specs.Piece.{extended, is_first};
ghost use Rattle.ble_sender.specs.Writer.{type_for, start_bytes, total_bytes, length_bytes, header_bytes, packet_of, number_of, room_fits, arguments_fit, sent_for, sent_of, told, decision_of, decided, written_of, Writes, WritesGiven};

use crate::piece::{LARGEST_ROOM, LEAST_ROOM, ONE_BYTE_LENGTH, Piece, piece_at};
use ble_packet::header;
use wire::bytes::{copy, put_pair};
use wire::limit::limit_fits;
use wire::logic::both;
use wire::refusal::Numbered;

// How a message is sent. The sequence is the first packet's.
#[derive(Clone, Copy)]
pub struct Sending {
    pub room: usize,
    pub stream: u8,
    pub id: u8,
    pub sequence: u8,
    pub ack: bool,
}

#[derive(Clone, Copy, Debug, PartialEq, Eq)]
pub enum Refusal {
    Room,
    Limit,
    Argument,
    Output,
}

impl Numbered for Refusal {
    ghost number_of = { number_of };

    fn number(&self) -> u8 {
        match self {
            Refusal::Room => 13,
            Refusal::Limit => 17,
            Refusal::Argument => 15,
            Refusal::Output => 14,
        }
    }
}

// The length of the packet that was written, and the place of the next piece; none after the last.
#[derive(Clone, Copy)]
pub struct Sent {
    pub length: usize,
    pub next: Option<usize>,
}

pub fn room_fits(room: usize) -> bool
    ensures { result ≡ room_fits room }
{
    both(LEAST_ROOM <= room, room <= LARGEST_ROOM)
}

fn arguments_fit(how: Sending, limit: usize, length: usize) -> bool
    ensures { result ≡ arguments_fit limit how length }
{
    let in_range = header::in_range(how.stream, how.id, how.sequence);
    both(in_range, length <= limit)
}

// The table of refusals, from the top; where no line of it holds, the piece to write.
fn decide(
    how: Sending,
    limit: usize,
    length: usize,
    place: usize,
    space: usize,
) -> Result<Piece, Refusal>
    ensures { (decision_of result ≡ decided limit how length place space)
        × WritesGiven how length space (decision_of result) }
{
    let room = how.room;
    if !room_fits(room) {
        return Err(Refusal::Room);
    }
    if !limit_fits(limit) {
        return Err(Refusal::Limit);
    }
    if !arguments_fit(how, limit, length) {
        return Err(Refusal::Argument);
    }
    let Some(piece) = piece_at(room, length, place) else {
        return Err(Refusal::Argument);
    };
    if space < room {
        return Err(Refusal::Output);
    }
    Ok(piece)
}

// The type of a packet.
pub fn type_for(first: bool, last: bool) -> u8
    ensures { (result ≡ type_for first last) × (result < 4) }
{
    if first {
        return header::TYPE_FIRST;
    }
    if last {
        header::TYPE_LAST
    } else {
        header::TYPE_CONTINUATION
    }
}

// Bytes 0 and 1.
fn put_start(out: &mut [u8], how: Sending, piece: Piece, last: bool)
    requires { (start_size ≤ length out.old) × (how.stream < four_bits) × (how.id < four_bits) }
    ensures { out.new ≡ sets out.old 0 (start_bytes how piece last) }
{
    let first = piece.index == 0;
    let sequence = header::sequence_after(how.sequence, piece.index);
    let kind = type_for(first, last);
    let ack = both(last, how.ack);
    let extended = ONE_BYTE_LENGTH < piece.size;
    out[0] = header::first_byte(how.stream, how.id);
    out[1] = header::second_byte(sequence, kind, ack, extended);
}

// A first packet's reserved byte and total.
fn put_total(out: &mut [u8], first: bool, total: usize)
    requires { (length_place first ≤ length out.old) × (total < 65536) }
    ensures { out.new ≡ sets out.old start_size (total_bytes first total) }
{
    if first {
        out[header::START_SIZE] = header::RESERVED;
        put_pair(out, header::START_SIZE + 1, total);
    }
}

// The payload length: one byte, or two with the extender.
fn put_length(out: &mut [u8], at: usize, n: usize)
    requires { (at + length (length_bytes n) ≤ length out.old) × (n < 65536) }
    ensures { out.new ≡ sets out.old at (length_bytes n) }
{
    if ONE_BYTE_LENGTH < n {
        put_pair(out, at, n);
    } else {
        out[at] = n as u8;
    }
}

// The header, and how long it is.
pub fn put_header(out: &mut [u8], how: Sending, total: usize, piece: Piece, last: bool) -> usize
    requires { Writes how total (length out.old) piece }
    ensures { (out.new ≡ sets out.old 0 (header_bytes how total piece last))
        × (result ≡ header_size (is_first piece.index) (extended piece.size))
        × (result < 8) }
{
    let first = piece.index == 0;
    let size = piece.size;
    put_start(out, how, piece, last);
    put_total(out, first, total);
    put_length(out, header::length_place(first), size);
    header::header_size(first, ONE_BYTE_LENGTH < size)
}

fn sent_for(last: bool, length: usize, next: usize) -> Sent
    ensures { result ≡ sent_for last length next }
{
    let next = if last { None } else { Some(next) };
    Sent { length, next }
}

// The packet of a piece, first in the output.
fn write_piece(how: Sending, message: &[u8], piece: Piece, out: &mut [u8]) -> Sent
    requires { Writes how (length message.now) (length out.old) piece }
    ensures { (result ≡ sent_of how message.now piece)
        × (out.new ≡ sets out.old 0 (packet_of how message.now piece)) }
{
    let start = piece.start;
    let size = piece.size;
    let end = start + size;
    let last = end == message.len();
    let header = put_header(out, how, message.len(), piece, last);
    copy(out, header, &message[start..end]);
    sent_for(last, header + size, end)
}

// Writes the packet of the message whose piece begins at the place, for a link with a limit.
pub fn write_packet(
    how: Sending,
    limit: usize,
    message: &[u8],
    place: usize,
    out: &mut [u8],
) -> Result<Sent, Refusal>
    ensures { written (told result) out.new
        ≡ written_of limit how message.now place out.old }
{
    let piece = decide(how, limit, message.len(), place, out.len())?;
    Ok(write_piece(how, message, piece, out))
}
