// A packet given to a link whose slots are lent as a row. All rules stand below; these functions only walk the row.
#![tactic(auto)]

ghost use Rattle.std.specs.Prelude.{◌≡◌, get_or, set};
ghost use Rattle.ble_slot.specs.Answer.{told};
ghost use Rattle.ble_slot.specs.Slot.{idle};
ghost use Rattle.ble_receiver.specs.Receiver.{call, left, accept_of};
ghost use Rattle.ble_receiver.specs.Outcome.{first_twelve};
ghost use Rattle.ble_link.specs.Row.{saved_row};

use ble_receiver::{Receiver, SLOT_COUNT, decide};
use ble_slot::Slot;
use ble_slot::answer::{Accepted, Refusal};

// The slot at an index; idle past the end.
pub fn slot_at(row: &[Slot], i: usize) -> Slot
    ensures { result ≡ get_or row.now i idle }
{
    row.get(i).copied().unwrap_or(Slot::idle())
}

// Stores a slot; past the end nothing is stored.
pub fn set_slot(row: &mut [Slot], i: usize, s: Slot)
    ensures { row.new ≡ set row.old i s }
{
    if i < row.len() {
        row[i] = s;
    }
}

// The first twelve slots of a row as a value.
pub fn load(row: &[Slot]) -> [Slot; 12]
    ensures { result ≡ first_twelve row.now }
{
    [
        slot_at(row, 0),
        slot_at(row, 1),
        slot_at(row, 2),
        slot_at(row, 3),
        slot_at(row, 4),
        slot_at(row, 5),
        slot_at(row, 6),
        slot_at(row, 7),
        slot_at(row, 8),
        slot_at(row, 9),
        slot_at(row, 10),
        slot_at(row, 11),
    ]
}

// Stores all twelve slots; past the end nothing is stored.
pub fn save(row: &mut [Slot], slots: [Slot; 12])
    ensures { row.new ≡ saved_row row.old slots }
{
    for i in 0..SLOT_COUNT {
        set_slot(row, i, slots[i]);
    }
}

// The answer to one packet. A finished message stands first in its slot's part of the buffer, and the ACK that
// it wants, with the caller's sequence, first in the answer buffer. One slot of the row changes at most.
pub fn accept(
    link: Receiver,
    row: &mut [Slot],
    buffer: &mut [u8],
    packet: &[u8],
    sequence: u8,
    out: &mut [u8],
) -> Result<Accepted, Refusal>
    ensures { left (told result) row.new buffer.new out.new
        ≡ accept_of link.limit row.old buffer.old (call packet.now sequence out.old) }
{
    let count = row.len();
    let slots = load(&*row);
    let done = decide(count, slots, link.limit, buffer, packet, sequence, out);
    set_slot(row, done.index, done.slot);
    done.answer
}
