// The state of a frame that is written by parts: its link's limit, and its progress. Every value has a meaning, that of what
// is still to be written.
ghost use Rattle.std.specs.Prelude.{◌≡◌};
ghost use Rattle.classic_parts.specs.State.{start_of, bad_start, lawful, missing, in_payload, ended};

use classic_frame::mark::{Kind, is_mark};
use wire::limit::limit_fits;
use wire::logic::{both, either};

// What is written next. Payload: a payload byte or, after the last one, the high byte of the checksum.
#[derive(Clone, Copy, Debug, PartialEq, Eq)]
pub enum Stage {
    Start,
    PacketId,
    ErrorId,
    Sequence,
    Payload,
    Low,
    End,
    Done,
}

// The frame's sequence, its payload's length, the payload bytes taken and their checksum, the stage, and the mark of which
// only F2 is written (plain: none): its code comes before the stage's byte. It is no option of a mark, since the states of the
// theorem `PartsExample` have a `Kind` there.
#[derive(Clone, Copy)]
pub struct PartProgress {
    pub sequence: u8,
    pub total: usize,
    pub taken: usize,
    pub sum: u16,
    pub stage: Stage,
    pub pending: Kind,
}

#[derive(Drop)]
pub struct PartWriter {
    pub limit: usize,
    pub progress: PartProgress,
}

pub fn bad_start(limit: usize, sequence: u8, total: usize) -> bool
    ensures { result ≡ bad_start limit sequence total }
{
    either(is_mark(sequence), limit < total)
}

impl PartProgress {
    // Before the first byte of a frame.
    pub fn start(sequence: u8, total: usize) -> Self
        ensures { result ≡ start_of sequence total }
    {
        PartProgress {
            sequence,
            total,
            taken: 0,
            sum: 2,
            stage: Stage::Start,
            pending: Kind::Plain,
        }
    }

    // Whether the limit is in its range, and the progress lawful for it.
    pub fn is_lawful(self, limit: usize) -> bool
        ensures { result ≡ lawful limit self }
    {
        let told = both(
            !bad_start(limit, self.sequence, self.total),
            self.taken <= self.total,
        );
        both(limit_fits(limit), told)
    }

    // The payload bytes still missing.
    pub fn missing(self) -> usize
        ensures { result ≡ missing self }
    {
        if self.taken < self.total {
            self.total - self.taken
        } else {
            0
        }
    }

    // Whether the next byte is that of the stage, and the stage is the payload's.
    pub fn is_in_payload(self) -> bool
        ensures { result ≡ in_payload self }
    {
        both(self.stage == Stage::Payload, !self.pending.needs_code())
    }

    // Whether all of the frame is written.
    pub fn has_ended(self) -> bool
        ensures { result ≡ ended self }
    {
        both(self.stage == Stage::Done, !self.pending.needs_code())
    }
}
