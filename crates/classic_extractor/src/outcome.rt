// What a byte did, and why it was refused.
ghost use Rattle.std.specs.Prelude.{◌≡◌};
ghost use Rattle.classic_extractor.specs.Outcome.{number_of};

use wire::refusal::Numbered;

// Refusals 1, 20, 23, 21, 22, 24, 25, in the order in which they are judged.
#[derive(Clone, Copy, Debug, PartialEq, Eq)]
pub enum Refusal {
    BadStateOrBuffer,
    StartInside,
    BadEscape,
    EarlyEnd,
    BadHeader,
    TooLong,
    BadChecksum,
}

impl Numbered for Refusal {
    ghost number_of = { number_of };

    fn number(&self) -> u8 {
        match self {
            Refusal::BadStateOrBuffer => 1,
            Refusal::StartInside => 20,
            Refusal::BadEscape => 23,
            Refusal::EarlyEnd => 21,
            Refusal::BadHeader => 22,
            Refusal::TooLong => 24,
            Refusal::BadChecksum => 25,
        }
    }
}

// A frame that has ended: its sequence and its payload's length. The payload stands first in the buffer.
#[derive(Clone, Copy, Debug, PartialEq, Eq)]
pub struct Frame {
    pub sequence: u8,
    pub len: usize,
}

// What a byte did. Not a `Result` of the first three: with one `pito_extractor_step`, and `pito_extractor_feed` where it
// refuses, take 5 to 12 instructions in 100 more.
#[derive(Clone, Copy, Debug, PartialEq, Eq)]
pub enum StepOutcome {
    Skipped,
    Taken,
    Frame(Frame),
    Refused(Refusal),
}
