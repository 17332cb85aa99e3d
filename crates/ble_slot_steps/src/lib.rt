// What a packet does to the slots of its stream.
#![tactic(auto)]

pub mod spot;

ghost use Rattle.std.specs.Prelude.{◌≡◌, ◌+◌, ◌^◌, ◌≤◌, ◌<◌};
ghost use Rattle.ble_packet.specs.declared.reader.Packet.TheVariants.{First, Next};
ghost use Rattle.ble_slot.specs.Answer.{number_of, told};
ghost use Rattle.ble_slot_steps.specs.Step.{step_of, step_at, act_at, still, nothing, finish, hold, drop_by, first_step, off_total, next_step, act_of};
ghost use Rattle.ble_slot_steps.specs.Fit.{Small};

use ble_packet::header;
use ble_packet::reader::{Head, Packet};
use ble_slot::answer::{Accepted, Refusal};
use ble_slot::{Slot, narrow, wide};
use wire::bytes::bit;
use wire::logic::either;

// The payload that is written: from start on in its packet, and its place in the slot's part of the buffer.
#[derive(Clone, Copy)]
pub struct PayloadPlace {
    pub at: usize,
    pub start: usize,
    pub len: usize,
}

// The answer, the one slot that is stored, at an index of the row, and the payload that is written in its part.
#[derive(Drop)]
pub struct Step {
    pub answer: Result<Accepted, Refusal>,
    pub index: usize,
    pub slot: Slot,
    pub payload: PayloadPlace,
}

// The transaction is finished: its wish for an ACK is told, and its slot idle.
fn finish(
    index: usize,
    head: Head,
    wanted: bool,
    total: usize,
    replaced: bool,
    payload: PayloadPlace,
) -> Step
    ensures { step_of result ≡ step_at index (finish index head wanted total replaced payload) }
{
    let stream = head.stream;
    let slot = Slot::idle();
    Step {
        answer: Ok(Accepted::Finished {
            index,
            stream,
            id: head.id,
            total,
            ack: wanted,
            replaced,
        }),
        index,
        slot,
        payload,
    }
}

// More is to come: the slot holds all up to the payload's end, and remembers the wish.
fn hold(
    index: usize,
    head: Head,
    wanted: bool,
    total: usize,
    replaced: bool,
    payload: PayloadPlace,
) -> Step
    requires { (payload.at + payload.len < 65536) × (total < 65536) }
    ensures { step_of result ≡ step_at index (hold index head wanted total replaced payload) }
{
    let stream = head.stream;
    let flag = bit(wanted);
    let whole = narrow(total);
    let held = narrow(payload.at + payload.len);
    Step {
        answer: Ok(Accepted::Taken {
            index,
            stream,
            id: head.id,
            replaced,
        }),
        index,
        slot: Slot {
            opened: 1,
            id: head.id,
            sequence: head.sequence,
            wanted: flag,
            total: whole,
            held,
        },
        payload,
    }
}

// Nothing is written: a transaction is dropped, or a slot is stored as it was.
fn put_slot(index: usize, slot: Slot, answer: Result<Accepted, Refusal>) -> Step
    ensures { step_of result ≡ step_at index (record { told = told answer; slot = slot; payload = nothing }) }
{
    Step {
        answer,
        index,
        slot,
        payload: PayloadPlace {
            at: 0,
            start: 0,
            len: 0,
        },
    }
}

// The transaction is dropped: its slot is idle.
fn drop_by(index: usize, why: Refusal) -> Step
    ensures { step_of result ≡ step_at index (drop_by (number_of why)) }
{
    put_slot(index, Slot::idle(), Err(why))
}

// What leaves all: the first of the stream's slots is stored as it was.
fn stay(first: usize, lane: [Slot; 4], answer: Result<Accepted, Refusal>) -> Step
    ensures { step_of result ≡ act_at first lane (still (told answer)) }
{
    put_slot(first, lane[0], answer)
}

// A first packet replaces what is open, its wish too; one whose payload equals its total finishes at once.
fn on_first(
    index: usize,
    slot: Slot,
    head: Head,
    ack: bool,
    total: usize,
    start: usize,
    len: usize,
) -> Step
    requires { (len ≤ total) × (total < 65536) }
    ensures { step_of result ≡ step_at index (first_step index slot head ack total start len) }
{
    let replaced = slot.opens();
    let payload = PayloadPlace { at: 0, start, len };
    if len == total {
        return finish(index, head, ack, total, replaced, payload);
    }
    hold(index, head, ack, total, replaced, payload)
}

// Whether type 1 reaches or passes the total, or type 2 misses it.
fn off_total(last: bool, held: usize, total: usize) -> bool
    ensures { result ≡ off_total last held total }
{
    if last { held != total } else { total <= held }
}

// A packet that follows in an open transaction is written behind what is held, and adds its flag to the wish.
fn on_next(
    index: usize,
    slot: Slot,
    head: Head,
    ack: bool,
    last: bool,
    start: usize,
    len: usize,
) -> Step
    requires { len < 2 ^ 63 }
    ensures { step_of result ≡ step_at index (next_step index slot head ack last start len) }
{
    let awaited = header::sequence_after(slot.sequence, 1);
    if head.sequence != awaited {
        return drop_by(index, Refusal::Sequence);
    }
    let at = wide(slot.held);
    let total = wide(slot.total);
    if off_total(last, at + len, total) {
        return drop_by(index, Refusal::Amount);
    }
    let wanted = either(slot.wants(), ack);
    let payload = PayloadPlace { at, start, len };
    if last {
        return finish(index, head, wanted, total, false, payload);
    }
    hold(index, head, wanted, total, false, payload)
}

// A first packet: what it does where there is a slot for it. `follow` has this shape too, but each of the two looks for another slot,
// refuses by another number and goes on with another function: one function over the three would say less.
fn begin(
    first: usize,
    lane: [Slot; 4],
    head: Head,
    ack: bool,
    total: usize,
    start: usize,
    len: usize,
) -> Step
    requires { (first ≤ 8) × (len ≤ total) × (total < 65536) }
    ensures { step_of result ≡ act_at first lane (act_of first lane (First head ack total start len)) }
{
    let found = spot::find_first(lane, head.id);
    match found {
        None => stay(first, lane, Err(Refusal::NoSlot)),
        Some(spot) => {
            let slot = lane[spot];
            on_first(first + spot, slot, head, ack, total, start, len)
        }
    }
}

// A packet that follows: what it does where its transaction is open.
fn follow(
    first: usize,
    lane: [Slot; 4],
    head: Head,
    ack: bool,
    last: bool,
    start: usize,
    len: usize,
) -> Step
    requires { (first ≤ 8) × (len < 2 ^ 63) }
    ensures { step_of result ≡ act_at first lane (act_of first lane (Next head ack last start len)) }
{
    let found = spot::find_open(lane, head.id);
    match found {
        None => stay(first, lane, Err(Refusal::NoTransaction)),
        Some(spot) => {
            let slot = lane[spot];
            on_next(first + spot, slot, head, ack, last, start, len)
        }
    }
}

// What a packet does to its stream's slots, the first of which has an index in the row.
pub fn act_on(first: usize, lane: [Slot; 4], packet: Packet) -> Step
    requires { (first ≤ 8) × Small packet }
    ensures { step_of result ≡ act_at first lane (act_of first lane packet) }
{
    match packet {
        Packet::First {
            head,
            ack,
            total,
            start,
            len,
        } => begin(first, lane, head, ack, total, start, len),
        Packet::Next {
            head,
            ack,
            last,
            start,
            len,
        } => follow(first, lane, head, ack, last, start, len),
        Packet::Ack(head) => stay(first, lane, Ok(Accepted::Acked(head))),
        Packet::Nack(head) => stay(first, lane, Ok(Accepted::Nacked(head))),
    }
}
