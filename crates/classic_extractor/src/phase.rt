// What a byte does in each phase: a function a phase, with an arm for each kind of byte, as the tables of docs/FORMATS.md.
ghost use Rattle.std.specs.Prelude.{◌≡◌, List, ℕ, ◌+◌, ◌≤◌, length};
ghost use Rattle.classic_frame.specs.declared.mark.Kind.TheVariants.{Plain};
ghost use Rattle.classic_extractor.specs.declared.outcome.Refusal.TheVariants.{StartInside};
ghost use Rattle.classic_extractor.specs.declared.outcome.StepOutcome.TheVariants.{Skipped, Taken, Refused};
ghost use Rattle.classic_extractor.specs.Outcome.{told, told_end};
ghost use Rattle.classic_extractor.specs.State.{begun, outside};
ghost use Rattle.classic_extractor.specs.Action.{outside_by, header_by, sequence_by, body_by, code_of, code_by};
ghost use Rattle.classic_extractor.specs.Step.{step, store_of, end_of, perform_of};

use crate::outcome::{Frame, Refusal, StepOutcome};
use crate::state::{Phase, Progress};
use classic_frame::checksum::is_checked;
use classic_frame::mark::{Kind, mark_for};

// What a byte did, and the progress after it.
#[derive(Drop)]
pub struct Advanced {
    pub outcome: StepOutcome,
    pub next: Progress,
}

pub fn refuse(why: Refusal, next: Progress) -> Advanced
    ensures { result ≡ record { outcome = Refused why; next = next } }
{
    Advanced {
        outcome: StepOutcome::Refused(why),
        next,
    }
}

// A start mark within a frame: the next one begins.
fn restart() -> Advanced
    ensures { result ≡ record { outcome = Refused StartInside; next = begun } }
{
    refuse(Refusal::StartInside, Progress::begun())
}

// A byte that ends the frame by a refusal.
fn drop_frame(why: Refusal) -> Advanced
    ensures { result ≡ record { outcome = Refused why; next = outside } }
{
    refuse(why, Progress::outside())
}

// The byte is taken, and leaves this state.
fn go_on(phase: Phase, sequence: u8, held: usize) -> Advanced
    ensures { result
        ≡ record { outcome = Taken; next = record { phase = phase; sequence = sequence; held = held } } }
{
    Advanced {
        outcome: StepOutcome::Taken,
        next: Progress {
            phase,
            sequence,
            held,
        },
    }
}

impl Progress {
    // Stores a byte at the count held, where there is room. The buffer's size tells the limit.
    fn store(self, buffer: &mut [u8], x: u8) -> Advanced
        ensures { (limit : ℕ) → length buffer.old ≡ limit + 2
            → step (told result.outcome) result.next buffer.new ≡ store_of limit self buffer.old x }
    {
        let held = self.held;
        if held < buffer.len() {
            buffer[held] = x;
            let count = held + 1;
            Advanced {
                outcome: StepOutcome::Taken,
                next: Progress {
                    phase: Phase::Body,
                    sequence: self.sequence,
                    held: count,
                },
            }
        } else {
            Advanced {
                outcome: StepOutcome::Refused(Refusal::TooLong),
                next: Progress::outside(),
            }
        }
    }

    // The frame that the end mark ends, by the bytes held.
    pub fn end(self, buffer: &[u8]) -> Result<Frame, Refusal>
        requires { self.held ≤ length buffer.now }
        ensures { told_end result ≡ end_of self buffer.now }
    {
        let held = self.held;
        if held < 2 {
            return Err(Refusal::EarlyEnd);
        }
        let len = held - 2;
        if !is_checked(buffer, len) {
            return Err(Refusal::BadChecksum);
        }
        Ok(Frame {
            sequence: self.sequence,
            len,
        })
    }

    // The byte is skipped. The state is made by its fields: one moved whole takes its padding along, through memory.
    fn skip(self) -> Advanced
        ensures { result ≡ record { outcome = Skipped; next = self } }
    {
        let phase = self.phase;
        Advanced {
            outcome: StepOutcome::Skipped,
            next: Progress {
                phase,
                sequence: self.sequence,
                held: self.held,
            },
        }
    }

    pub fn at_outside(self, kind: Kind) -> Advanced
        ensures { (limit : ℕ) (l : List ℕ) (b : ℕ) → step (told result.outcome) result.next l
            ≡ perform_of limit self l b (outside_by kind) }
    {
        match kind {
            Kind::Start => go_on(Phase::PacketId, 0, 0),
            Kind::End => self.skip(),
            Kind::Escape => self.skip(),
            Kind::Plain => self.skip(),
        }
    }

    // A header byte that has to be the one wanted.
    fn expect(self, wanted: u8, next: Phase, b: u8) -> Advanced
        ensures { (limit : ℕ) (l : List ℕ) → step (told result.outcome) result.next l
            ≡ perform_of limit self l b (header_by Plain wanted next b) }
    {
        if b == wanted {
            go_on(next, self.sequence, self.held)
        } else {
            drop_frame(Refusal::BadHeader)
        }
    }

    pub fn at_header(self, kind: Kind, wanted: u8, next: Phase, b: u8) -> Advanced
        ensures { (limit : ℕ) (l : List ℕ) → step (told result.outcome) result.next l
            ≡ perform_of limit self l b (header_by kind wanted next b) }
    {
        match kind {
            Kind::Start => restart(),
            Kind::End => drop_frame(Refusal::EarlyEnd),
            Kind::Escape => drop_frame(Refusal::BadHeader),
            Kind::Plain => self.expect(wanted, next, b),
        }
    }

    pub fn at_sequence(self, kind: Kind, b: u8) -> Advanced
        ensures { (limit : ℕ) (l : List ℕ) → step (told result.outcome) result.next l
            ≡ perform_of limit self l b (sequence_by kind) }
    {
        match kind {
            Kind::Start => restart(),
            Kind::End => drop_frame(Refusal::EarlyEnd),
            Kind::Escape => drop_frame(Refusal::BadHeader),
            Kind::Plain => go_on(Phase::Body, b, self.held),
        }
    }

    pub fn at_body(self, buffer: &mut [u8], kind: Kind, b: u8) -> Advanced
        requires { self.held ≤ length buffer.old }
        ensures { (limit : ℕ) → length buffer.old ≡ limit + 2
            → step (told result.outcome) result.next buffer.new
            ≡ perform_of limit self buffer.old b (body_by kind b) }
    {
        match kind {
            Kind::Start => restart(),
            Kind::End => match self.end(buffer) {
                Ok(frame) => Advanced {
                    outcome: StepOutcome::Frame(frame),
                    next: Progress::outside(),
                },
                Err(why) => drop_frame(why),
            },
            Kind::Escape => go_on(Phase::Escaped, self.sequence, self.held),
            Kind::Plain => self.store(buffer, b),
        }
    }

    // The byte that a code after F2 stands for.
    fn decode(self, buffer: &mut [u8], b: u8) -> Advanced
        ensures { (limit : ℕ) → length buffer.old ≡ limit + 2
            → step (told result.outcome) result.next buffer.new
            ≡ perform_of limit self buffer.old b (code_of b) }
    {
        match mark_for(b) {
            Some(mark) => self.store(buffer, mark),
            None => drop_frame(Refusal::BadEscape),
        }
    }

    pub fn at_escaped(self, buffer: &mut [u8], kind: Kind, b: u8) -> Advanced
        ensures { (limit : ℕ) → length buffer.old ≡ limit + 2
            → step (told result.outcome) result.next buffer.new
            ≡ perform_of limit self buffer.old b (code_by kind b) }
    {
        match kind {
            Kind::Start => restart(),
            Kind::End => drop_frame(Refusal::BadEscape),
            Kind::Escape => drop_frame(Refusal::BadEscape),
            Kind::Plain => self.decode(buffer, b),
        }
    }
}
