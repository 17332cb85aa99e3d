// Puts the messages of the three streams together from Low Energy packets: all rules, on a row of slots as a value.
#![tactic(auto)]

mod ack;
mod buffer;

ghost use Rattle.std.specs.Prelude.{◌≡◌, true, ◌&&◌, List, ℕ, ◌≤◌, ◌<◌, eqb, length, get_or};
ghost use Rattle.wire.specs.Told.{given, refused};
ghost use Rattle.ble_packet.specs.Reader.{read_of};
ghost use Rattle.ble_slot.specs.declared.Slot.{Slot};
ghost use Rattle.ble_slot.specs.Slot.{idle, slot_count};
ghost use Rattle.ble_slot.specs.Answer.{number_of};
ghost use Rattle.ble_receiver.specs.Receiver.{open_of, told_open, acted, ready, call, left, leaves, accept_of};
ghost use Rattle.ble_receiver.specs.Outcome.{left_by, first_twelve};

use ble_packet::reader::Packet;
use ble_packet::{control, header, reader};
use ble_slot::answer::Refusal;
use ble_slot::{Slot, are_lawful, lane_of};
use ble_slot_steps::{PayloadPlace, Step, act_on};
use wire::limit::{BadLimit, limit_fits};
use wire::logic::both;

// The state of a link: its limit. Its slots are lent as a row of twelve, four for each stream: control, OTA, Alexa.
#[derive(Drop)]
pub struct Receiver {
    pub limit: usize,
}

// The lent buffer has a part as long as the limit for each slot.
pub const SLOT_COUNT: usize = 12;

impl Receiver {
    // A receiver for a link with a limit.
    pub fn open(limit: usize) -> Result<Receiver, BadLimit>
        ensures { told_open result ≡ open_of limit }
    {
        if limit_fits(limit) {
            Ok(Receiver { limit })
        } else {
            Err(BadLimit)
        }
    }
}

// Whether as many slots were lent as there are, the limit is in its range, the slots are lawful for it and a buffer of this size is the
// right one.
fn is_ready(count: usize, limit: usize, slots: [Slot; 12], size: usize) -> bool
    ensures { result ≡ (eqb count slot_count && ready limit slots size) }
{
    if limit_fits(limit) {
        let fits = both(size == SLOT_COUNT * limit, are_lawful(limit, slots));
        both(count == SLOT_COUNT, fits)
    } else {
        false
    }
}

// A packet that was read: what it does, and the ACK where it finishes a transaction that wants one.
fn accept_read(
    limit: usize,
    slots: [Slot; 12],
    buffer: &mut [u8],
    packet: &[u8],
    read: Packet,
    sequence: u8,
    out: &mut [u8],
) -> Step
    requires { (ready limit slots (length buffer.old) ≡ true)
        × (read_of limit packet.now ≡ given read)
        × (sequence < 16)
        × (6 ≤ length out.old) }
    ensures { left_by slots result buffer.new out.new
        ≡ leaves sequence out.old (acted limit slots buffer.old packet.now (given read)) }
{
    let head = read.head();
    let stream = head.stream;
    let first = buffer::lane_start(stream);
    let lane = lane_of(slots, stream);
    let step = act_on(first, lane, read);
    let answer = step.answer;
    buffer::write_payload(buffer, limit, step.index, step.payload, packet);
    ack::acknowledge(answer, sequence, out);
    step
}

// A packet under a lawful row and a buffer of the right size, with what an ACK needs.
pub fn process(
    limit: usize,
    slots: [Slot; 12],
    buffer: &mut [u8],
    packet: &[u8],
    sequence: u8,
    out: &mut [u8],
) -> Step
    requires { (ready limit slots (length buffer.old) ≡ true)
        × (sequence < 16)
        × (6 ≤ length out.old) }
    ensures { left_by slots result buffer.new out.new
        ≡ leaves sequence out.old
        (acted limit slots buffer.old packet.now (read_of limit packet.now)) }
{
    match reader::read(limit, packet) {
        Err(why) => refuse(slots, Refusal::from(why)),
        Ok(read) => accept_read(limit, slots, buffer, packet, read, sequence, out),
    }
}

// A refusal that leaves all: the first slot is stored as it was.
fn refuse(slots: [Slot; 12], why: Refusal) -> Step
    ensures { (row : List Slot) (bytes out : List ℕ) → get_or row 0 idle ≡ get_or slots 0 idle
        → left_by row result bytes out ≡ left (refused (number_of why)) row bytes out }
{
    let slot = slots[0];
    Step {
        answer: Err(why),
        index: 0,
        slot,
        payload: PayloadPlace {
            at: 0,
            start: 0,
            len: 0,
        },
    }
}

// The answer to one packet and the one slot of the row that changes. Count is how many slots were lent, of which these are the first
// twelve. A finished message stands first in its slot's part of the buffer, and the ACK that it wants, with the caller's sequence, first in
// the answer buffer.
pub fn decide(
    count: usize,
    slots: [Slot; 12],
    limit: usize,
    buffer: &mut [u8],
    packet: &[u8],
    sequence: u8,
    out: &mut [u8],
) -> Step
    ensures { (row : List Slot) → length row ≡ count → slots ≡ first_twelve row
        → left_by row result buffer.new out.new
        ≡ accept_of limit row buffer.old (call packet.now sequence out.old) }
{
    if !is_ready(count, limit, slots, buffer.len()) {
        return refuse(slots, Refusal::BadStateOrBuffer);
    }
    if header::FOUR_BITS <= sequence {
        return refuse(slots, Refusal::Argument);
    }
    if out.len() < control::ACK_SIZE {
        return refuse(slots, Refusal::Output);
    }
    process(limit, slots, buffer, packet, sequence, out)
}
