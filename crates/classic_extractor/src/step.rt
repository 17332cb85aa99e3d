// One byte, one step.
ghost use Rattle.std.specs.Prelude.{◌≡◌, ℕ, ◌+◌, ◌≤◌, length};
ghost use Rattle.classic_extractor.specs.Outcome.{told};
ghost use Rattle.classic_extractor.specs.Step.{step, advance_of, byte_step_of};

use crate::outcome::{Refusal, StepOutcome};
use crate::phase::{Advanced, refuse};
use crate::state::{Extractor, Phase, Progress};
use classic_frame::header::{ERROR_ID, PACKET_ID};
use classic_frame::mark::kind_of;

// What a byte did, and the state after it, which a refusal leaves too.
#[derive(Drop)]
pub struct Stepped {
    pub outcome: StepOutcome,
    pub next: Extractor,
}

impl Progress {
    // One byte, in a lawful state and over a buffer whose size tells the limit.
    fn advance(self, buffer: &mut [u8], b: u8) -> Advanced
        requires { self.held ≤ length buffer.old }
        ensures { (limit : ℕ) → length buffer.old ≡ limit + 2
            → step (told result.outcome) result.next buffer.new ≡ advance_of limit self buffer.old b }
    {
        let phase = self.phase;
        let kind = kind_of(b);
        match phase {
            Phase::Outside => self.at_outside(kind),
            Phase::PacketId => self.at_header(kind, PACKET_ID, Phase::ErrorId, b),
            Phase::ErrorId => self.at_header(kind, ERROR_ID, Phase::Sequence, b),
            Phase::Sequence => self.at_sequence(kind, b),
            Phase::Body => self.at_body(buffer, kind, b),
            Phase::Escaped => self.at_escaped(buffer, kind, b),
        }
    }

    // One byte, for any limit and any progress.
    fn take(self, limit: usize, buffer: &mut [u8], b: u8) -> Advanced
        ensures { step (told result.outcome) result.next buffer.new
            ≡ byte_step_of limit self buffer.old b }
    {
        if self.is_ready(limit, buffer.len()) {
            self.advance(buffer, b)
        } else {
            refuse(Refusal::BadStateOrBuffer, self)
        }
    }
}

impl Extractor {
    // One byte.
    pub fn step(self, buffer: &mut [u8], b: u8) -> Stepped
        ensures { (step (told result.outcome) result.next.progress buffer.new
            ≡ byte_step_of self.limit self.progress buffer.old b) × (result.next.limit ≡ self.limit) }
    {
        let progress = self.progress;
        let done = progress.take(self.limit, buffer, b);
        let progress = done.next;
        Stepped {
            outcome: done.outcome,
            next: Extractor {
                limit: self.limit,
                progress,
            },
        }
    }
}
