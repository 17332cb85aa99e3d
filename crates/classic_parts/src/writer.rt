// The calls: a frame begun, and each part of it.
ghost use Rattle.std.specs.Prelude.{◌≡◌, length, Ok, Err};
ghost use Rattle.classic_parts.specs.State.{ended};
ghost use Rattle.classic_parts.specs.Fill.{fill_of};
ghost use Rattle.classic_parts.specs.Writer.{count, filled, wrote, begin_of, part_of, number_of, told_begun, told, begun_number};

use crate::state::{PartProgress, PartWriter, bad_start};
use wire::limit::limit_fits;
use wire::refusal::Numbered;

// Refusals 1, 26 and 14, in the order in which they are judged.
#[derive(Clone, Copy, Debug, PartialEq, Eq)]
pub enum Refusal {
    Unlawful,
    TooMuch,
    NoRoom,
}

impl Numbered for Refusal {
    ghost number_of = { number_of };

    fn number(&self) -> u8 {
        match self {
            Refusal::Unlawful => 1,
            Refusal::TooMuch => 26,
            Refusal::NoRoom => 14,
        }
    }
}

// Why no frame is begun: refusals 17 and 15, in the order in which they are judged.
#[derive(Clone, Copy, Debug, PartialEq, Eq)]
pub enum BadStart {
    Limit,
    Argument,
}

impl Numbered for BadStart {
    ghost number_of = { begun_number };

    fn number(&self) -> u8 {
        match self {
            BadStart::Limit => 17,
            BadStart::Argument => 15,
        }
    }
}

// The payload bytes taken, the bytes written and whether the frame has ended.
#[derive(Clone, Copy, Debug, PartialEq, Eq)]
pub struct PartCount {
    pub taken: usize,
    pub written: usize,
    pub ended: bool,
}

// What a call answers, and the state after it, which a refusal leaves too.
#[derive(Drop)]
pub struct PartWritten {
    pub outcome: Result<PartCount, Refusal>,
    pub next: PartWriter,
}

// The same of the progress alone.
#[derive(Drop)]
struct PartAdvanced {
    outcome: Result<PartCount, Refusal>,
    next: PartProgress,
}

// What a call answers that is refused.
fn refuse(why: Refusal, next: PartProgress) -> PartAdvanced
    ensures { result ≡ record { outcome = Err why; next = next } }
{
    PartAdvanced {
        outcome: Err(why),
        next,
    }
}

// What a call answers that stops in a state.
fn stop(next: PartProgress, taken: usize, written: usize) -> PartAdvanced
    ensures { result ≡ record { outcome = Ok (count taken written (ended next)); next = next } }
{
    PartAdvanced {
        outcome: Ok(PartCount {
            taken,
            written,
            ended: next.has_ended(),
        }),
        next,
    }
}

impl PartProgress {
    // Fills an output as far as the frame and the payload offered go. A turn passes a run of bytes and then one, so no range counts them.
    fn fill(self, payload: &[u8], out: &mut [u8]) -> PartAdvanced
        ensures { wrote (told result.outcome) result.next out.new
            ≡ filled out.old (fill_of (length out.old) self payload.now) }
    {
        let mut state = self;
        let mut taken = 0;
        let mut i = 0;
        loop {
            let passed = state.pass(payload, taken, out, i);
            state = passed.next;
            taken = passed.taken;
            i = passed.at;
            if i >= out.len() {
                return stop(state, taken, i);
            }
            let Some(emitted) = state.emit(&payload[taken..]) else {
                return stop(state, taken, i);
            };
            out[i] = emitted.value;
            state = emitted.next;
            taken += emitted.taken;
            i += 1;
        }
    }

    // Takes payload and writes the frame on, for any limit and any progress.
    fn take_part(self, limit: usize, payload: &[u8], out: &mut [u8]) -> PartAdvanced
        ensures { wrote (told result.outcome) result.next out.new
            ≡ part_of limit self payload.now out.old }
    {
        if !self.is_lawful(limit) {
            return refuse(Refusal::Unlawful, self);
        }
        if self.missing() < payload.len() {
            return refuse(Refusal::TooMuch, self);
        }
        if out.len() == 0 {
            return refuse(Refusal::NoRoom, self);
        }
        self.fill(payload, out)
    }
}

impl PartWriter {
    // Begins a frame whose payload will have `total` bytes, for a link with a limit.
    pub fn begin(sequence: u8, limit: usize, total: usize) -> Result<Self, BadStart>
        ensures { told_begun result ≡ begin_of limit sequence total }
    {
        if !limit_fits(limit) {
            return Err(BadStart::Limit);
        }
        if bad_start(limit, sequence, total) {
            return Err(BadStart::Argument);
        }
        let progress = PartProgress::start(sequence, total);
        Ok(PartWriter { limit, progress })
    }

    // Takes payload and writes the frame on into an output.
    pub fn write(self, payload: &[u8], out: &mut [u8]) -> PartWritten
        ensures { (wrote (told result.outcome) result.next.progress out.new
            ≡ part_of self.limit self.progress payload.now out.old)
            × (result.next.limit ≡ self.limit) }
    {
        let progress = self.progress;
        let done = progress.take_part(self.limit, payload, out);
        let outcome = done.outcome;
        let progress = done.next;
        PartWritten {
            outcome,
            next: PartWriter {
                limit: self.limit,
                progress,
            },
        }
    }
}
