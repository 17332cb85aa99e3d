// Classic: the extractor's state and what its calls answer as rows, and what the frame writer answers.
ghost use Rattle.std.specs.Prelude.{◌≡◌, true, [], ◌∷◌, length, get_or};
ghost use Rattle.classic_extractor.specs.Outcome.{told};
ghost use Rattle.c_rows.specs.Row.{afterwards};
ghost use Rattle.c_classic.specs.Convert.{phase_number, phase_of, is_extractor, extractor_of, extractor_row, reply, reply_of};

use c_rows::row::{BYTES, DONE, UNFIT, fill};
use classic_extractor::outcome::StepOutcome;
use classic_extractor::state::{Extractor, Phase, Progress};
use wire::bytes::wide64;
use wire::logic::both;
use wire::refusal::Numbered;

// The numbers of a state row, and how many phases there are.
pub const STATE: usize = 4;

const PHASES: u64 = 6;

// The numbers of the answer rows of a step and of a feed.
pub const STEP_ANSWER: usize = 3;

pub const FEED_ANSWER: usize = 4;

// The outcomes of a step and of a feed; a refusal has none.
const SKIPPED: u64 = 0;

const TAKEN: u64 = 1;

pub const FRAME: u64 = 2;

pub const ALL_USED: u64 = 0;

pub const NOTHING: u64 = 0;

// What a call answers: the number that it returns, and what the row tells, both of the C interface.
#[derive(Drop)]
pub struct ClassicAnswer {
    pub number: u64,
    pub outcome: u64,
    pub sequence: u64,
    pub length: u64,
}

// The numbers of phases in the rows of the C interface. No impl of `From`: neither type is of this crate.
fn phase_number(phase: Phase) -> u64
    ensures { result ≡ phase_number phase }
{
    match phase {
        Phase::Outside => 0,
        Phase::PacketId => 1,
        Phase::ErrorId => 2,
        Phase::Sequence => 3,
        Phase::Body => 4,
        Phase::Escaped => 5,
    }
}

fn phase_of(n: u64) -> Phase
    ensures { result ≡ phase_of n }
{
    match n {
        0 => Phase::Outside,
        1 => Phase::PacketId,
        2 => Phase::ErrorId,
        3 => Phase::Sequence,
        4 => Phase::Body,
        _ => Phase::Escaped,
    }
}

// Whether a row has numbers that a state can have. Its length first: otherwise each number is read by a test of its own.
pub fn is_extractor(row: &[u64]) -> bool
    ensures { result ≡ is_extractor row.now }
{
    if row.len() != STATE {
        return false;
    }
    both(row[1] < PHASES, row[2] < BYTES)
}

pub fn extractor_of(row: &[u64]) -> Extractor
    requires { is_extractor row.now ≡ true }
    ensures { result ≡ extractor_of row.now }
{
    let phase = phase_of(row[1]);
    let sequence = row[2] as u8;
    let held = row[3] as usize;
    let limit = row[0] as usize;
    Extractor {
        limit,
        progress: Progress {
            phase,
            sequence,
            held,
        },
    }
}

// The numbers of a state row after the limit.
fn progress_row(progress: Progress) -> [u64; 3]
    ensures { result ≡ phase_number progress.phase ∷ progress.sequence ∷ progress.held ∷ [] }
{
    let phase = progress.phase;
    [
        phase_number(phase),
        wide64(progress.sequence),
        progress.held as u64,
    ]
}

// Writes the progress of a state row, unless the call is refused by 1; the limit stays.
pub fn put_progress(row: &mut [u64], number: u64, progress: Progress)
    requires { length row.old ≡ 4 }
    ensures { row.new
        ≡ afterwards number row.old (extractor_row (get_or row.old 0 0) progress) }
{
    if number != UNFIT {
        let numbers = progress_row(progress);
        fill(row, 1, &numbers);
    }
}

pub fn extractor_row(state: Extractor) -> [u64; 4]
    ensures { result ≡ extractor_row state.limit state.progress }
{
    let progress = state.progress;
    let phase = progress.phase;
    [
        state.limit as u64,
        phase_number(phase),
        wide64(progress.sequence),
        progress.held as u64,
    ]
}

impl ClassicAnswer {
    fn new(number: u64, outcome: u64, sequence: u8, len: usize) -> Self
        ensures { result ≡ reply number outcome sequence len }
    {
        ClassicAnswer {
            number,
            outcome,
            sequence: sequence as u64,
            length: len as u64,
        }
    }
}

pub fn step_reply(outcome: StepOutcome) -> ClassicAnswer
    ensures { result ≡ reply_of (told outcome) }
{
    match outcome {
        StepOutcome::Skipped => ClassicAnswer::new(DONE, SKIPPED, 0, 0),
        StepOutcome::Taken => ClassicAnswer::new(DONE, TAKEN, 0, 0),
        StepOutcome::Frame(frame) => ClassicAnswer::new(DONE, FRAME, frame.sequence, frame.len),
        StepOutcome::Refused(why) => ClassicAnswer::new(wide64(why.number()), NOTHING, 0, 0),
    }
}
