// What is open on a stream of a sender that is judged, and whether our writer would write a packet there now.
#![tactic(auto)]

ghost use Rattle.std.specs.Prelude.{◌≡◌};
ghost use Rattle.ble_packet.specs.declared.reader.Packet.TheVariants.{First, Next};
ghost use Rattle.capture_stream.specs.Slot.{is_idle, fits_piece, slot_for, first_step, next_fits, next_step, slot_step, moved_to};

use ble_packet::header;
use ble_packet::reader::Head;
use ble_sender::piece;
use wire::logic::{both, either};

// What is open on a stream: nothing, or a transaction with its id, the bytes still to come and the next sequence.
// No Option of a transaction: on_first and on_next give an Option of a slot, and an Option in an Option hides which is none.
#[derive(Clone, Copy, Debug, PartialEq, Eq)]
pub enum SenderSlot {
    Idle,
    Open { id: u8, left: usize, sequence: u8 },
}

impl SenderSlot {
    pub fn is_idle(self) -> bool
        ensures { result ≡ is_idle self }
    {
        matches!(self, SenderSlot::Idle)
    }
}

// Whether a piece is the writer's, with the extender only where it must stand, and the ACK flag only on the last packet.
fn fits_piece(room: usize, first: bool, left: usize, ack: bool, start: usize, len: usize) -> bool
    ensures { result ≡ fits_piece room first left ack start len }
{
    let size = piece::size_for(room, first, left);
    let header = header::header_size(first, piece::ONE_BYTE_LENGTH < len);
    let flagged = either(!ack, len == left);
    both(len == size, both(start == header, flagged))
}

fn slot_for(id: u8, left: usize, sequence: u8) -> SenderSlot
    ensures { result ≡ slot_for id left sequence }
{
    if left == 0 {
        return SenderSlot::Idle;
    }
    SenderSlot::Open { id, left, sequence }
}

// The slot after a first packet where nothing is open; none where our writer would not write it now.
fn begin(
    room: usize,
    head: Head,
    ack: bool,
    total: usize,
    start: usize,
    len: usize,
) -> Option<SenderSlot>
    ensures { moved_to result ≡ first_step room head ack total start len }
{
    if !fits_piece(room, true, total, ack, start, len) {
        return None;
    }
    let sequence = header::sequence_after(head.sequence, 1);
    let left = total - len;
    Some(slot_for(head.id, left, sequence))
}

// Whether a packet that follows is the next of what is open.
fn next_fits(
    room: usize,
    id: u8,
    left: usize,
    sequence: u8,
    head: Head,
    ack: bool,
    last: bool,
    start: usize,
    len: usize,
) -> bool
    ensures { result ≡ next_fits room id left sequence head ack last start len }
{
    let fits = fits_piece(room, false, left, ack, start, len);
    let whole = both(fits, last == (len == left));
    both(head.id == id, both(head.sequence == sequence, whole))
}

// The slot after a packet that follows.
fn follow(
    room: usize,
    id: u8,
    left: usize,
    sequence: u8,
    head: Head,
    ack: bool,
    last: bool,
    start: usize,
    len: usize,
) -> Option<SenderSlot>
    ensures { moved_to result ≡ next_step room id left sequence head ack last start len }
{
    if !next_fits(room, id, left, sequence, head, ack, last, start, len) {
        return None;
    }
    let after = header::sequence_after(sequence, 1);
    let rest = left - len;
    Some(slot_for(id, rest, after))
}

pub fn on_first(
    room: usize,
    slot: SenderSlot,
    head: Head,
    ack: bool,
    total: usize,
    start: usize,
    len: usize,
) -> Option<SenderSlot>
    ensures { moved_to result ≡ slot_step room slot (First head ack total start len) }
{
    match slot {
        SenderSlot::Idle => begin(room, head, ack, total, start, len),
        SenderSlot::Open {
            id: _,
            left: _,
            sequence: _,
        } => None,
    }
}

pub fn on_next(
    room: usize,
    slot: SenderSlot,
    head: Head,
    ack: bool,
    last: bool,
    start: usize,
    len: usize,
) -> Option<SenderSlot>
    ensures { moved_to result ≡ slot_step room slot (Next head ack last start len) }
{
    match slot {
        SenderSlot::Idle => None,
        SenderSlot::Open { id, left, sequence } => follow(
            room, id, left, sequence, head, ack, last, start, len,
        ),
    }
}
