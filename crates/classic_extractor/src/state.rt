// The extractor's state: its link's limit, where in a frame it is, and what it holds of it.
ghost use Rattle.std.specs.Prelude.{◌≡◌, ◌≤◌};
ghost use Rattle.classic_extractor.specs.State.{outside, begun, sequence_read, lawful_before, lawful_after, lawful, ready, empty, open_of, told_open};

use classic_frame::mark::is_mark;
use wire::limit::{BadLimit, limit_fits};
use wire::logic::both;

// What the next byte is taken for, in the order of a frame.
#[derive(Clone, Copy, Debug, PartialEq, Eq, PartialOrd, Ord)]
pub enum Phase {
    Outside,
    PacketId,
    ErrorId,
    Sequence,
    Body,
    Escaped,
}

// Where in a frame the extractor is, and what it holds of it.
#[derive(Clone, Copy)]
pub struct Progress {
    pub phase: Phase,
    pub held: usize,
    pub sequence: u8,
}

#[derive(Clone, Copy)]
pub struct Extractor {
    pub limit: usize,
    pub progress: Progress,
}

// What the lent buffer has beside the limit: room for a checksum.
pub const CHECKSUM: usize = 2;

impl Progress {
    pub fn outside() -> Self
        ensures { result ≡ outside }
    {
        Progress {
            phase: Phase::Outside,
            sequence: 0,
            held: 0,
        }
    }

    // After a start mark.
    pub fn begun() -> Self
        ensures { result ≡ begun }
    {
        Progress {
            phase: Phase::PacketId,
            sequence: 0,
            held: 0,
        }
    }

    fn is_lawful(self, limit: usize) -> bool
        requires { limit ≤ 65535 }
        ensures { result ≡ lawful limit self }
    {
        let phase = self.phase;
        if sequence_read(phase) {
            lawful_after(limit, self.sequence, self.held)
        } else {
            lawful_before(self.sequence, self.held)
        }
    }

    // Whether the limit is in its range, the progress lawful for it and a buffer of this size the right one.
    pub fn is_ready(self, limit: usize, size: usize) -> bool
        ensures { result ≡ ready limit self size }
    {
        if limit_fits(limit) {
            both(size == limit + CHECKSUM, self.is_lawful(limit))
        } else {
            false
        }
    }
}

impl Extractor {
    pub fn outside(limit: usize) -> Self
        ensures { result ≡ empty limit }
    {
        let progress = Progress::outside();
        Extractor { limit, progress }
    }

    // An extractor for a link with a limit, in its empty state.
    pub fn open(limit: usize) -> Result<Self, BadLimit>
        ensures { told_open result ≡ open_of limit }
    {
        if limit_fits(limit) {
            Ok(Extractor::outside(limit))
        } else {
            Err(BadLimit)
        }
    }
}

// Whether the sequence byte is read in a phase.
fn sequence_read(phase: Phase) -> bool
    ensures { result ≡ sequence_read phase }
{
    phase >= Phase::Body
}

fn lawful_before(sequence: u8, held: usize) -> bool
    ensures { result ≡ lawful_before sequence held }
{
    both(sequence == 0, held == 0)
}

fn lawful_after(limit: usize, sequence: u8, held: usize) -> bool
    requires { limit ≤ 65535 }
    ensures { result ≡ lawful_after limit sequence held }
{
    both(!is_mark(sequence), held <= limit + CHECKSUM)
}
