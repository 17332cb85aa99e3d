// Adds what a capture cost to a report: a fresh link reads its packets.
#![tactic(auto)]

pub mod count;
pub mod sums;

ghost use Rattle.std.specs.Prelude.{◌≡◌, Err, true, ◌&&◌, eqb, length, set, ◌*◌};
ghost use Rattle.wire.specs.Told.{given};
ghost use Rattle.wire.specs.Limit.{limit_fits};
ghost use Rattle.capture_reader.specs.Capture.{checked_of};
ghost use Rattle.ble_slot.specs.Slot.{idles, slot_count};
ghost use Rattle.ble_slot.specs.Answer as answer;
ghost use Rattle.ble_receiver.specs.Receiver as receiver;
ghost use Rattle.ble_receiver.specs.Receiver.{ready};
ghost use Rattle.ble_link.specs.Row.{saved_row};
ghost use Rattle.capture_report.specs.Report.{capture_added, taken_of, added_by, added_of};
ghost use Rattle.capture_tally.specs.Tally.{told_sum, tallied, gave_of, turn_of, passed_of, number_of, told};

use crate::count::{count_packet, open_report};
use crate::sums::add_more;
use ble_link::{load, save};
use ble_packet::control::ACK_SIZE;
use ble_receiver::{SLOT_COUNT, process};
use ble_slot::Slot;
use ble_slot_steps::Step;
use capture_reader::{RefusedAt, WIDTH, check};
use capture_report::CostReport;
use wire::bytes::pair;
use wire::limit::limit_fits;
use wire::logic::both;
use wire::refusal::Numbered;

// Lent: a row of other than twelve slots, or a buffer of other than twelve times the limit. Sum: a number of the report would have more
// than 64 bits.
#[derive(Clone, Copy, Debug, PartialEq, Eq)]
pub enum Refusal {
    Limit,
    Lent,
    Capture(capture_reader::Refusal),
    Sum,
}

impl Numbered for Refusal {
    ghost number_of = { number_of };

    fn number(&self) -> u8 {
        match self {
            Refusal::Limit => 17,
            Refusal::Lent => 1,
            Refusal::Capture(why) => why.number(),
            Refusal::Sum => 19,
        }
    }
}

// The link's slots and the sums so far; none where one of them would have more than 64 bits.
#[derive(Drop)]
struct Tally {
    slots: [Slot; 12],
    sum: Option<CostReport>,
}

// What is told, and the row afterwards.
#[derive(Drop)]
pub struct RowAdded {
    pub answer: Result<CostReport, RefusedAt<Refusal>>,
    pub slots: [Slot; 12],
}

fn idle_row() -> [Slot; 12]
    ensures { result ≡ idles }
{
    [Slot::idle(); 12]
}

fn with_slot(slots: [Slot; 12], index: usize, slot: Slot) -> [Slot; 12]
    ensures { result ≡ set slots index slot }
{
    let mut row = slots;
    if index < SLOT_COUNT {
        row[index] = slot;
    }
    row
}

// A packet given to the link. Row and buffer are this call's own work, so nothing of them is judged again; so are the answer sequence and
// the answer buffer.
fn give(limit: usize, slots: [Slot; 12], buffer: &mut [u8], packet: &[u8]) -> Step
    requires { ready limit slots (length buffer.old) ≡ true }
    ensures { receiver.result (answer.told result.answer) (set slots result.index result.slot) buffer.new ≡ gave_of limit slots buffer.old packet.now }
{
    let mut out = [0u8; ACK_SIZE];
    process(limit, slots, buffer, packet, 0, &mut out)
}

// A packet given to the link and counted.
fn take(limit: usize, tally: Tally, buffer: &mut [u8], packet: &[u8]) -> Tally
    requires { ready limit tally.slots (length buffer.old) ≡ true }
    ensures { tallied result buffer.new ≡ turn_of (told_sum tally.sum) limit tally.slots buffer.old packet.now }
{
    let slots = tally.slots;
    let done = give(limit, slots, buffer, packet);
    let sum = count_packet(tally.sum, packet, done.answer);
    let row = with_slot(slots, done.index, done.slot);
    Tally { slots: row, sum }
}

// Every packet of a sound capture given to a fresh link, and what is open at the end.
fn pass(report: CostReport, limit: usize, buffer: &mut [u8], capture: &[u8]) -> Tally
    requires { (checked_of capture.now ≡ given tt) × (ready limit idles (length buffer.old) ≡ true) }
    ensures { given (tallied result buffer.new) ≡ passed_of (given report) limit idles buffer.old capture.now }
{
    let mut at = 1;
    let mut tally = Tally {
        slots: idle_row(),
        sum: Some(report),
    };
    // From place to place, by lengths that are read there: no range or iterator says it.
    while at < capture.len() {
        let n = pair(capture[at], capture[at + 1]);
        let start = at + WIDTH;
        let next = start + n;
        tally = take(limit, tally, buffer, &capture[start..next]);
        at = next;
    }
    let slots = tally.slots;
    let sum = add_more(tally.sum, open_report(slots));
    Tally { slots, sum }
}

// Whether as many slots as there are, and a part of the buffer for each, were lent.
fn lent_fits(count: usize, size: usize, limit: usize) -> bool
    requires { limit_fits limit ≡ true }
    ensures { result ≡ (eqb count slot_count && eqb size (slot_count * limit)) }
{
    both(count == SLOT_COUNT, size == SLOT_COUNT * limit)
}

fn refuse(why: Refusal, at: usize, slots: [Slot; 12]) -> RowAdded
    ensures { result ≡ record { answer = Err (record { why = why; at = at }); slots = slots } }
{
    RowAdded {
        answer: Err(RefusedAt { why, at }),
        slots,
    }
}

fn answer_of(sum: Option<CostReport>) -> Result<CostReport, RefusedAt<Refusal>>
    ensures { told result ≡ told_sum sum }
{
    sum.ok_or(RefusedAt {
        why: Refusal::Sum,
        at: 0,
    })
}

// A capture added, by the row's length and its first twelve slots.
pub fn add_by_value(
    count: usize,
    slots: [Slot; 12],
    report: CostReport,
    limit: usize,
    buffer: &mut [u8],
    capture: &[u8],
) -> RowAdded
    ensures { capture_added (told result.answer) result.slots buffer.new ≡ added_by report limit slots buffer.old (taken_of limit count (length buffer.old) capture.now) }
{
    if !limit_fits(limit) {
        return refuse(Refusal::Limit, 0, slots);
    }
    if !lent_fits(count, buffer.len(), limit) {
        return refuse(Refusal::Lent, 0, slots);
    }
    match check(capture) {
        Err(RefusedAt { why, at }) => refuse(Refusal::Capture(why), at, slots),
        Ok(()) => {
            let tally = pass(report, limit, buffer, capture);
            let slots = tally.slots;
            RowAdded {
                answer: answer_of(tally.sum),
                slots,
            }
        }
    }
}

// Stores the slots that the link was left with: twelve, as an array of them has.
fn store(row: &mut [Slot], slots: [Slot; 12])
    ensures { (row.new ≡ saved_row row.old slots) × (length slots ≡ slot_count) }
{
    save(row, slots);
}

// Adds a capture, read by a fresh link of a limit, to a report. What is in the lent row and buffer before does not matter; afterwards
// they are as the last packet left them, with 19 too, and every other refusal leaves them.
pub fn add(
    report: CostReport,
    limit: usize,
    row: &mut [Slot],
    buffer: &mut [u8],
    capture: &[u8],
) -> Result<CostReport, RefusedAt<Refusal>>
    ensures { capture_added (told result) row.new buffer.new ≡ added_of report limit row.old buffer.old capture.now }
{
    let count = row.len();
    let slots = load(&*row);
    let done = add_by_value(count, slots, report, limit, buffer, capture);
    store(row, done.slots);
    done.answer
}
