// Why a sender is not lawful: of the packet that decides what came and what was expected; of a capture that goes on what is open.
#![tactic(auto)]

ghost use Rattle.std.specs.Prelude.{◌≡◌, drop};
ghost use Rattle.ble_packet.specs.Reader as packets;
ghost use Rattle.capture_judge.specs.Capture.{trace_told};
ghost use Rattle.capture_why.specs.Why.{numbers_by, packet_numbers, numbers_in, came_by, came_of, expect_in, total_read, expected_of, packet_in, stopped_of, explained_in, why_of, why_told};

use ble_packet::reader::Packet;
use ble_packet::{header, reader};
use capture_judge::capture::{Judgement, Refusal};
use capture_judge::{Settings, State};
use capture_next::{NextPacket, next_packet};
use capture_reader::{RefusedAt, WIDTH};
use capture_stream::SenderSlot;
use wire::bytes::{byte_at, pair, smaller};
use wire::refusal::Numbered;
use wire::stream::{is_stream, stream_of};

// What our reader says of a packet: the total of a first one, and the length of its payload.
#[derive(Clone, Copy, Debug, PartialEq, Eq)]
pub struct ReadNumbers {
    pub total: Option<usize>,
    pub len: usize,
}

// What came: its bytes in all, the fields of bytes 0 and 1, and what our reader says, or the number of its refusal.
// The number and not the refusal: came_of takes it from read_of, which tells no more.
#[derive(Clone, Copy, Debug, PartialEq, Eq)]
pub struct Came {
    pub size: usize,
    pub stream: u8,
    pub id: u8,
    pub sequence: u8,
    pub kind: u8,
    pub ack: bool,
    pub extended: bool,
    pub read: Result<ReadNumbers, u8>,
}

// What was expected: nothing where the stream field is no stream's; a first packet of any message, where nothing is open; or just this packet.
#[derive(Clone, Copy, Debug, PartialEq, Eq)]
pub enum Expected {
    Nothing,
    AnyFirst,
    This(NextPacket),
}

// What is open at the end; or the place of the length of the packet that decides, and what was open before it. Neither is a refusal.
#[derive(Clone, Copy, Debug, PartialEq, Eq)]
pub enum Explained {
    Ended(State),
    Stopped {
        at: usize,
        state: State,
        came: Came,
        expected: Expected,
    },
}

fn numbers(total: Option<usize>, len: usize) -> ReadNumbers
    ensures { result ≡ numbers_by total len }
{
    ReadNumbers { total, len }
}

fn packet_numbers(packet: Packet) -> ReadNumbers
    ensures { result ≡ packet_numbers packet }
{
    match packet {
        Packet::First {
            head: _,
            ack: _,
            total,
            start: _,
            len,
        } => numbers(Some(total), len),
        Packet::Next {
            head: _,
            ack: _,
            last: _,
            start: _,
            len,
        } => numbers(None, len),
        Packet::Ack(_) => numbers(None, 0),
        Packet::Nack(_) => numbers(None, 0),
    }
}

fn read_numbers(answer: Result<Packet, reader::Refusal>) -> Result<ReadNumbers, u8>
    ensures { result ≡ numbers_in (packets.told answer) }
{
    match answer {
        Err(why) => Err(why.number()),
        Ok(packet) => Ok(packet_numbers(packet)),
    }
}

fn came_by(size: usize, first: u8, second: u8, read: Result<ReadNumbers, u8>) -> Came
    ensures { result ≡ came_by size first second read }
{
    let stream = header::stream_bits(first);
    let id = header::id_bits(first);
    let sequence = header::sequence_bits(second);
    let kind = header::type_bits(second);
    let ack = header::ack_bit(second);
    let extended = header::extender_bit(second);
    Came {
        size,
        stream,
        id,
        sequence,
        kind,
        ack,
        extended,
        read,
    }
}

fn came_of(packet: &[u8], limit: usize) -> Came
    ensures { result ≡ came_of limit packet.now }
{
    let read = read_numbers(reader::read(limit, packet));
    came_by(packet.len(), byte_at(packet, 0), byte_at(packet, 1), read)
}

fn expect_in(room: usize, slot: SenderSlot, total: Option<usize>) -> Expected
    ensures { result ≡ expect_in room slot total }
{
    match (slot, total) {
        (SenderSlot::Idle, None) => Expected::AnyFirst,
        _ => Expected::This(next_packet(room, slot, total.unwrap_or(0))),
    }
}

// The total of a first packet.
fn total_read(read: Result<ReadNumbers, u8>) -> Option<usize>
    ensures { result ≡ total_read read }
{
    read.ok()?.total
}

fn expected_of(room: usize, state: State, came: Came) -> Expected
    ensures { result ≡ expected_of room state came }
{
    if !is_stream(came.stream) {
        return Expected::Nothing;
    }
    let slot = state.slot(stream_of(came.stream));
    expect_in(room, slot, total_read(came.read))
}

fn stopped_of(packet: &[u8], settings: Settings, at: usize, state: State) -> Explained
    ensures { result ≡ stopped_of settings.room settings.limit at state packet.now }
{
    let came = came_of(packet, settings.limit);
    let expected = expected_of(settings.room, state, came);
    Explained::Stopped {
        at,
        state,
        came,
        expected,
    }
}

// The packet whose length stands at the front of some bytes.
fn stopped_in(rest: &[u8], settings: Settings, at: usize, state: State) -> Explained
    ensures { result ≡ stopped_of settings.room settings.limit at state (packet_in rest.now) }
{
    let n = pair(byte_at(rest, 0), byte_at(rest, 1));
    let start = smaller(rest.len(), WIDTH);
    let size = smaller(rest.len() - start, n);
    let end = start + size;
    stopped_of(&rest[start..end], settings, at, state)
}

fn stopped_at(capture: &[u8], settings: Settings, at: usize, state: State) -> Explained
    ensures { result ≡ stopped_of settings.room settings.limit at state (packet_in (drop at capture.now)) }
{
    let start = smaller(capture.len(), at);
    stopped_in(&capture[start..], settings, at, state)
}

fn explained_in(capture: &[u8], settings: Settings, verdict: Judgement) -> Explained
    ensures { result ≡ explained_in settings.room settings.limit capture.now verdict }
{
    match verdict {
        Judgement::Going(state) => Explained::Ended(state),
        Judgement::Stopped { at, state } => stopped_at(capture, settings, at, state),
    }
}

// By what the packets of the capture say, at these settings.
pub fn explain(
    capture: &[u8],
    settings: Settings,
    traced: Result<Judgement, RefusedAt<Refusal>>,
) -> Result<Explained, RefusedAt<Refusal>>
    ensures { why_told result ≡ why_of settings.room settings.limit capture.now (trace_told traced) }
{
    Ok(explained_in(capture, settings, traced?))
}
