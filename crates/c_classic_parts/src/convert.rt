// The state of a frame that is written by parts, and what a call answers, as rows.
ghost use Rattle.std.specs.Prelude.{◌≡◌, true};
ghost use Rattle.classic_parts.specs.Writer.{told};
ghost use Rattle.c_classic_parts.specs.Convert.{stage_number, stage_of, pending_number, pending_of, is_state, state_of, state_row, reply_of};

use c_rows::row::{BYTES, DONE};
use classic_frame::mark::Kind;
use classic_parts::state::{PartProgress, PartWriter, Stage};
use classic_parts::writer::{PartCount, Refusal};
use wire::bytes::{bit64, wide64};
use wire::logic::both;
use wire::refusal::Numbered;

// The numbers of a state row; how many sums, stages and pending marks there are.
pub const STATE: usize = 7;

const SUMS: u64 = 65536;

const STAGES: u64 = 8;

const PENDING: u64 = 4;

// The numbers of an answer row.
pub const PART_ANSWER: usize = 3;

// What a call answers: the number that it returns, and what the row tells, both of the C interface.
#[derive(Drop)]
pub struct PartAnswer {
    pub number: u64,
    pub taken: u64,
    pub written: u64,
    pub ended: u64,
}

// The numbers of stages and pending codes in the rows of the C interface. No impl of `From`: neither type is of this crate.
fn stage_number(stage: Stage) -> u64
    ensures { result ≡ stage_number stage }
{
    match stage {
        Stage::Start => 0,
        Stage::PacketId => 1,
        Stage::ErrorId => 2,
        Stage::Sequence => 3,
        Stage::Payload => 4,
        Stage::Low => 5,
        Stage::End => 6,
        Stage::Done => 7,
    }
}

fn stage_of(n: u64) -> Stage
    ensures { result ≡ stage_of n }
{
    match n {
        0 => Stage::Start,
        1 => Stage::PacketId,
        2 => Stage::ErrorId,
        3 => Stage::Sequence,
        4 => Stage::Payload,
        5 => Stage::Low,
        6 => Stage::End,
        _ => Stage::Done,
    }
}

fn pending_number(kind: Kind) -> u64
    ensures { result ≡ pending_number kind }
{
    match kind {
        Kind::Start => 1,
        Kind::End => 2,
        Kind::Escape => 3,
        Kind::Plain => 0,
    }
}

fn pending_of(n: u64) -> Kind
    ensures { result ≡ pending_of n }
{
    match n {
        1 => Kind::Start,
        2 => Kind::End,
        3 => Kind::Escape,
        _ => Kind::Plain,
    }
}

// Whether a row has numbers that a state can have. Its length first: otherwise each number is read by a test of its own.
pub fn is_state(row: &[u64]) -> bool
    ensures { result ≡ is_state row.now }
{
    if row.len() != STATE {
        return false;
    }
    let ends = both(row[5] < STAGES, row[6] < PENDING);
    let sums = both(row[4] < SUMS, ends);
    both(row[1] < BYTES, sums)
}

pub fn state_of(row: &[u64]) -> PartWriter
    requires { is_state row.now ≡ true }
    ensures { result ≡ state_of row.now }
{
    let stage = stage_of(row[5]);
    let pending = pending_of(row[6]);
    let sequence = row[1] as u8;
    let total = row[2] as usize;
    let taken = row[3] as usize;
    let sum = row[4] as u16;
    let limit = row[0] as usize;
    PartWriter {
        limit,
        progress: PartProgress {
            sequence,
            total,
            taken,
            sum,
            stage,
            pending,
        },
    }
}

pub fn state_row(state: PartWriter) -> [u64; 7]
    ensures { result ≡ state_row state.limit state.progress }
{
    let progress = state.progress;
    let stage = progress.stage;
    let pending = progress.pending;
    [
        state.limit as u64,
        wide64(progress.sequence),
        progress.total as u64,
        progress.taken as u64,
        progress.sum as u64,
        stage_number(stage),
        pending_number(pending),
    ]
}

pub fn part_reply(outcome: Result<PartCount, Refusal>) -> PartAnswer
    ensures { result ≡ reply_of (told outcome) }
{
    match outcome {
        Ok(count) => PartAnswer {
            number: DONE,
            taken: count.taken as u64,
            written: count.written as u64,
            ended: bit64(count.ended),
        },
        Err(why) => PartAnswer {
            number: wide64(why.number()),
            taken: 0,
            written: 0,
            ended: 0,
        },
    }
}
