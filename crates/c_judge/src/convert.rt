// Captures: what their calls answer as rows.
ghost use Rattle.std.specs.Prelude.{◌≡◌, cond, ◌∷◌, ◌++◌, replicate, unwrap_or};
ghost use Rattle.wire.specs.Told.{given};
ghost use Rattle.capture_judge.specs.Capture.{told};
ghost use Rattle.capture_why.specs.Why.{total_read, why_told};
ghost use Rattle.c_judge.specs.Convert.{judged_row, slot_numbers, state_numbers, state_row, came_row, any_numbers, next_numbers, expected_numbers, expected_row, refusal_read, len_read, why_row};

use capture_judge::State;
use capture_judge::capture::{Refusal, SenderVerdict};
use capture_next::NextPacket;
use capture_reader::RefusedAt;
use capture_stream::SenderSlot;
use capture_why::{Came, Expected, Explained, ReadNumbers};
use wire::bytes::bit64;

// The numbers of the answer row: outcome and place.
pub const JUDGE_ANSWER: usize = 2;

// .. and of why: those, three times four of what is open, ten of what came, seven of what was expected.
pub const WHY_ANSWER: usize = 31;

// The outcomes; a refusal has none.
const LAWFUL: u64 = 1;

const OPEN: u64 = 2;

const UNLAWFUL: u64 = 3;

// What was expected.
const ANY_FIRST: u64 = 1;

const FIRST: u64 = 2;

const NEXT: u64 = 3;

pub fn judged_row(judged: Result<SenderVerdict, RefusedAt<Refusal>>) -> [u64; 2]
    ensures { result ≡ judged_row (told judged) }
{
    match judged {
        Err(RefusedAt { why: _, at }) => [0, at as u64],
        Ok(SenderVerdict::Lawful) => [LAWFUL, 0],
        Ok(SenderVerdict::Open) => [OPEN, 0],
        Ok(SenderVerdict::Unlawful(at)) => [UNLAWFUL, at as u64],
    }
}

// What is open on a stream, as numbers. This and the two below are parts of the row of pito_capture_why, so `opened` is a number beside
// others.
#[derive(Drop)]
struct SlotNumbers {
    opened: u64,
    id: u64,
    left: u64,
    sequence: u64,
}

#[derive(Drop)]
struct StateNumbers {
    control: SlotNumbers,
    ota: SlotNumbers,
    alexa: SlotNumbers,
}

// What was expected, as numbers.
#[derive(Drop)]
struct ExpectedNumbers {
    expected: u64,
    id: u64,
    sequence: u64,
    kind: u64,
    len: u64,
    extended: u64,
    last: u64,
}

fn slot_numbers(slot: SenderSlot) -> SlotNumbers
    ensures { result ≡ slot_numbers slot }
{
    match slot {
        SenderSlot::Idle => SlotNumbers {
            opened: 0,
            id: 0,
            left: 0,
            sequence: 0,
        },
        SenderSlot::Open { id, left, sequence } => SlotNumbers {
            opened: 1,
            id: id as u64,
            left: left as u64,
            sequence: sequence as u64,
        },
    }
}

fn state_numbers(state: State) -> StateNumbers
    ensures { result ≡ state_numbers state }
{
    let first = state.control;
    let second = state.ota;
    let third = state.alexa;
    let control = slot_numbers(first);
    let ota = slot_numbers(second);
    let alexa = slot_numbers(third);
    StateNumbers {
        control,
        ota,
        alexa,
    }
}

fn next_numbers(next: NextPacket) -> ExpectedNumbers
    ensures { result ≡ next_numbers next }
{
    let extended = bit64(next.extended);
    let last = bit64(next.last);
    let first = ExpectedNumbers {
        expected: FIRST,
        id: 0,
        sequence: 0,
        kind: next.kind as u64,
        len: next.len as u64,
        extended,
        last,
    };
    match next.head {
        None => first,
        Some(head) => ExpectedNumbers {
            expected: NEXT,
            id: head.id as u64,
            sequence: head.sequence as u64,
            ..first
        },
    }
}

// A first packet of any message, or nothing.
fn any_numbers(expected: u64) -> ExpectedNumbers
    ensures { result ≡ any_numbers expected }
{
    ExpectedNumbers {
        expected,
        id: 0,
        sequence: 0,
        kind: 0,
        len: 0,
        extended: 0,
        last: 0,
    }
}

fn expected_numbers(expected: Expected) -> ExpectedNumbers
    ensures { result ≡ expected_numbers expected }
{
    match expected {
        Expected::Nothing => any_numbers(0),
        Expected::AnyFirst => any_numbers(ANY_FIRST),
        Expected::This(next) => next_numbers(next),
    }
}

// The number of our reader's refusal, the total and the length of the payload; 0 where there is no such number.
fn read_numbers(read: Result<ReadNumbers, u8>) -> (u64, u64, u64)
    ensures { result ≡ (refusal_read read, unwrap_or (total_read read) 0, len_read read) }
{
    match read {
        Ok(numbers) => (0, numbers.total.unwrap_or(0) as u64, numbers.len as u64),
        Err(number) => (number as u64, 0, 0),
    }
}

fn stopped_row(at: usize, state: StateNumbers, came: Came, expected: ExpectedNumbers) -> [u64; 31]
    ensures { result ≡ 3 ∷ at ∷ state_row state ++ came_row came ++ expected_row expected }
{
    let control = state.control;
    let ota = state.ota;
    let alexa = state.alexa;
    let (refusal, total, len) = read_numbers(came.read);
    let ack = bit64(came.ack);
    let extended = bit64(came.extended);
    [
        UNLAWFUL,
        at as u64,
        control.opened,
        control.id,
        control.left,
        control.sequence,
        ota.opened,
        ota.id,
        ota.left,
        ota.sequence,
        alexa.opened,
        alexa.id,
        alexa.left,
        alexa.sequence,
        refusal,
        came.size as u64,
        came.stream as u64,
        came.id as u64,
        came.sequence as u64,
        came.kind as u64,
        ack,
        extended,
        total,
        len,
        expected.expected,
        expected.id,
        expected.sequence,
        expected.kind,
        expected.len,
        expected.extended,
        expected.last,
    ]
}

fn ended_row(outcome: u64, state: StateNumbers) -> [u64; 31]
    ensures { result ≡ outcome ∷ 0 ∷ state_row state ++ replicate 17 0 }
{
    let control = state.control;
    let ota = state.ota;
    let alexa = state.alexa;
    let mut row = [0u64; 31];
    row[0] = outcome;
    row[2] = control.opened;
    row[3] = control.id;
    row[4] = control.left;
    row[5] = control.sequence;
    row[6] = ota.opened;
    row[7] = ota.id;
    row[8] = ota.left;
    row[9] = ota.sequence;
    row[10] = alexa.opened;
    row[11] = alexa.id;
    row[12] = alexa.left;
    row[13] = alexa.sequence;
    row
}

// The outcome of a capture that goes on, by whether nothing is open.
fn outcome_of(idle: bool) -> u64
    ensures { result ≡ cond idle 1 2 }
{
    if idle { LAWFUL } else { OPEN }
}

fn refused_row(at: usize) -> [u64; 31]
    ensures { result ≡ 0 ∷ at ∷ replicate 29 0 }
{
    let mut row = [0u64; 31];
    row[1] = at as u64;
    row
}

fn explained_row(explained: Explained) -> [u64; 31]
    ensures { result ≡ why_row (given explained) }
{
    match explained {
        Explained::Ended(state) => {
            let outcome = outcome_of(state.is_idle());
            ended_row(outcome, state_numbers(state))
        }
        Explained::Stopped {
            at,
            state,
            came,
            expected,
        } => stopped_row(at, state_numbers(state), came, expected_numbers(expected)),
    }
}

pub fn why_row(why: Result<Explained, RefusedAt<Refusal>>) -> [u64; 31]
    ensures { result ≡ why_row (why_told why) }
{
    match why {
        Err(RefusedAt { why: _, at }) => refused_row(at),
        Ok(explained) => explained_row(explained),
    }
}
