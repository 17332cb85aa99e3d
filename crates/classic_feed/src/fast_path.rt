// The fast path over many bytes: what passes bytes at once promises only that nothing is lost by it.
ghost use Rattle.std.specs.Prelude.{◌≡◌, ◌≤◌, length};
ghost use Rattle.wire.specs.Scan.{Clear};
ghost use Rattle.classic_frame.specs.Mark.{start_mark};
ghost use Rattle.classic_extractor.specs.declared.state.Phase.TheVariants.{Outside, Body};
ghost use Rattle.classic_extractor.specs.Outcome.{told};
ghost use Rattle.classic_extractor.specs.State.{begun, Fits};
ghost use Rattle.classic_extractor.specs.Step.{step, advance_of};
ghost use Rattle.classic_feed.specs.FastPath.{mark_of, mark_at, start_report, is_header, header_at, Onward};

use classic_extractor::outcome::{Refusal, StepOutcome};
use classic_extractor::phase::Advanced;
use classic_extractor::state::{CHECKSUM, Phase, Progress};
use classic_frame::header::{ERROR_ID, PACKET_ID};
use classic_frame::mark::{Mark, is_mark, kind_of, mark_for};
use wire::bytes::{byte_at, smaller};
use wire::logic::both;
use wire::scan::{clear_run, copy_clear};

// The bytes before the body.
const HEADER: usize = 4;

// The state, and the place of the first byte that was not passed.
#[derive(Drop)]
pub struct Passed {
    pub next: Progress,
    pub at: usize,
}

// Passes bytes that need no step of their own.
pub fn pass(state: Progress, limit: usize, buffer: &mut [u8], bytes: &[u8], i: usize) -> Passed
    requires fits { Fits limit state buffer.old }
    requires i_in_bounds { i ≤ length bytes.now }
    ensures { Onward limit bytes.now state buffer.old i
        result.next buffer.new result.at }
{
    let phase = state.phase;
    match phase {
        Phase::Outside => find_frame(state, limit, buffer, bytes, i),
        Phase::PacketId => Passed { next: state, at: i },
        Phase::ErrorId => Passed { next: state, at: i },
        Phase::Sequence => Passed { next: state, at: i },
        Phase::Body => take_body(state, limit, buffer, bytes, i),
        Phase::Escaped => Passed { next: state, at: i },
    }
}

// Passes the bytes up to a start mark; where four bytes stand there, also the header and the body, or, if they are no header, the start
// mark alone.
fn find_frame(state: Progress, limit: usize, buffer: &mut [u8], bytes: &[u8], i: usize) -> Passed
    requires fits { Fits limit state buffer.old }
    requires i_in_bounds { i ≤ length bytes.now }
    requires phase_value { state.phase ≡ Outside }
    ensures { Onward limit bytes.now state buffer.old i
        result.next buffer.new result.at }
{
    let at = i + before_start(&bytes[i..]);
    if bytes.len() - at < HEADER {
        return Passed { next: state, at };
    }
    if header_at(bytes, at) {
        let sequence = bytes[at + 3];
        let body = Progress {
            phase: Phase::Body,
            sequence,
            held: 0,
        };
        return take_body(body, limit, buffer, bytes, at + 4);
    }
    if byte_at(bytes, at) == Mark::START {
        let after = at + 1;
        return Passed {
            next: Progress::begun(),
            at: after,
        };
    }
    Passed { next: state, at }
}

// How many bytes stand before a start mark. Most frames follow the one before at once.
fn before_start(run: &[u8]) -> usize
    ensures { Clear start_mark start_mark run.now result }
{
    if byte_at(run, 0) == Mark::START {
        return 0;
    }
    clear_run(run, Mark::START, Mark::START)
}

// Stores the bytes of a body from i on, plain and escaped ones, up to what wants a step of its own.
fn take_body(state: Progress, limit: usize, buffer: &mut [u8], bytes: &[u8], i: usize) -> Passed
    requires fits { Fits limit state buffer.old }
    requires i_in_bounds { i ≤ length bytes.now }
    requires phase_value { state.phase ≡ Body }
    ensures { Onward limit bytes.now state buffer.old i
        result.next buffer.new result.at }
{
    let mut here = state;
    let mut at = i;
    loop {
        let run = take_run(here, limit, buffer, bytes, at);
        let end = run.at;
        let after = run.next;
        let pair = take_pair(after, limit, buffer, bytes, end);
        at = pair.at;
        here = pair.next;
        if at == end {
            return Passed { next: here, at };
        }
    }
}

// Stores the plain bytes from i on, of which there are none where another escape mark follows.
fn take_run(state: Progress, limit: usize, buffer: &mut [u8], bytes: &[u8], i: usize) -> Passed
    requires fits { Fits limit state buffer.old }
    requires i_in_bounds { i ≤ length bytes.now }
    requires phase_value { state.phase ≡ Body }
    ensures { (Onward limit bytes.now state buffer.old i
        result.next buffer.new result.at)
        × (result.next.phase ≡ Body) }
{
    if byte_at(bytes, i) == Mark::ESCAPE {
        return Passed {
            next: Progress {
                phase: Phase::Body,
                sequence: state.sequence,
                held: state.held,
            },
            at: i,
        };
    }
    take_plain(state, limit, buffer, bytes, i)
}

// Stores the plain bytes from i on for which there is room, in the body.
fn take_plain(state: Progress, limit: usize, buffer: &mut [u8], bytes: &[u8], i: usize) -> Passed
    requires fits { Fits limit state buffer.old }
    requires i_in_bounds { i ≤ length bytes.now }
    requires phase_value { state.phase ≡ Body }
    ensures { (Onward limit bytes.now state buffer.old i
        result.next buffer.new result.at)
        × (result.next.phase ≡ Body) }
{
    let held = state.held;
    let room = limit + CHECKSUM;
    let end = i + smaller(bytes.len() - i, room - held);
    let n = copy_clear(buffer, held, &bytes[i..end], Mark::START, Mark::ESCAPE);
    let count = held + n;
    let after = i + n;
    Passed {
        next: Progress {
            phase: Phase::Body,
            sequence: state.sequence,
            held: count,
        },
        at: after,
    }
}

// Stores the mark that an escape mark and its code at i stand for, where both are there and there is room.
fn take_pair(state: Progress, limit: usize, buffer: &mut [u8], bytes: &[u8], i: usize) -> Passed
    requires fits { Fits limit state buffer.old }
    requires i_in_bounds { i ≤ length bytes.now }
    requires phase_value { state.phase ≡ Body }
    ensures { (Onward limit bytes.now state buffer.old i
        result.next buffer.new result.at)
        × (result.next.phase ≡ Body) }
{
    let held = state.held;
    let room = limit + CHECKSUM;
    let Some(mark) = mark_at(bytes, i) else {
        return Passed { next: state, at: i };
    };
    if held < room {
        buffer[held] = mark;
        let count = held + 1;
        let after = i + 2;
        Passed {
            next: Progress {
                phase: Phase::Body,
                sequence: state.sequence,
                held: count,
            },
            at: after,
        }
    } else {
        Passed { next: state, at: i }
    }
}

// The mark that an escape mark and a code stand for.
fn mark_of(b: u8, code: u8) -> Option<u8>
    ensures { result ≡ mark_of b code }
{
    if b == Mark::ESCAPE {
        mark_for(code)
    } else {
        None
    }
}

// The same of the two bytes at a place, where both are there.
fn mark_at(bytes: &[u8], at: usize) -> Option<u8>
    requires { at ≤ length bytes.now }
    ensures { result ≡ mark_at bytes.now at }
{
    if bytes.len() - at < 2 {
        None
    } else {
        mark_of(bytes[at], bytes[at + 1])
    }
}

// Whether four bytes are a frame's header.
fn is_header(a: u8, b: u8, c: u8, d: u8) -> bool
    ensures { result ≡ is_header a b c d }
{
    let tail = both(c == ERROR_ID, !is_mark(d));
    both(a == Mark::START, both(b == PACKET_ID, tail))
}

// Whether a header stands at a place.
fn header_at(bytes: &[u8], at: usize) -> bool
    requires { at ≤ length bytes.now }
    ensures { result ≡ header_at bytes.now at }
{
    if bytes.len() - at < HEADER {
        false
    } else {
        is_header(bytes[at], bytes[at + 1], bytes[at + 2], bytes[at + 3])
    }
}

// A start mark in a phase: the frame begins, within another one by a refusal.
fn at_start(phase: Phase) -> Advanced
    ensures { (told result.outcome ≡ start_report phase) × (result.next ≡ begun) }
{
    if phase == Phase::Outside {
        Advanced {
            outcome: StepOutcome::Taken,
            next: Progress::begun(),
        }
    } else {
        Advanced {
            outcome: StepOutcome::Refused(Refusal::StartInside),
            next: Progress::begun(),
        }
    }
}

// One byte of many, as `advance` takes it: a function of its own is compiled into the loop. A start mark is looked for first.
pub fn fast_step(state: Progress, limit: usize, buffer: &mut [u8], b: u8) -> Advanced
    requires { Fits limit state buffer.old }
    ensures { step (told result.outcome) result.next buffer.new
        ≡ advance_of limit state buffer.old b }
{
    let phase = state.phase;
    if b == Mark::START {
        return at_start(phase);
    }
    let kind = kind_of(b);
    match phase {
        Phase::Outside => state.at_outside(kind),
        Phase::PacketId => state.at_header(kind, PACKET_ID, Phase::ErrorId, b),
        Phase::ErrorId => state.at_header(kind, ERROR_ID, Phase::Sequence, b),
        Phase::Sequence => state.at_sequence(kind, b),
        Phase::Body => state.at_body(buffer, kind, b),
        Phase::Escaped => state.at_escaped(buffer, kind, b),
    }
}
