// Many bytes given at once.
ghost use Rattle.std.specs.Prelude.{◌≡◌};
ghost use Rattle.classic_extractor.specs.State.{Fits};
ghost use Rattle.classic_feed.specs.Feed.{told_feed, fed, feed_from, feed_of};

use crate::fast_path::{fast_step, pass};
use classic_extractor::outcome::{Frame, Refusal, StepOutcome};
use classic_extractor::state::{Extractor, Progress};

// What many bytes did, up to the first frame or refusal: no frame where all of them are used. The state after them is told
// on a refusal too.
#[derive(Drop)]
pub struct Fed {
    pub outcome: Result<Option<Frame>, Refusal>,
    pub used: usize,
    pub next: Extractor,
}

// The same state made by its fields: one moved whole takes its padding along, through memory.
fn rebuilt(state: Progress) -> Progress
    ensures { result ≡ state }
{
    let phase = state.phase;
    Progress {
        phase,
        sequence: state.sequence,
        held: state.held,
    }
}

// What a call leaves that ends in a state.
fn ended(
    outcome: Result<Option<Frame>, Refusal>,
    used: usize,
    limit: usize,
    progress: Progress,
) -> Fed
    ensures { result
        ≡ record { outcome = outcome; used = used; next = record { limit = limit; progress = progress } } }
{
    let next = Extractor { limit, progress };
    Fed {
        outcome,
        used,
        next,
    }
}

// The bytes one after another, in a lawful state and over a buffer of the right size. A turn passes a run of them and then one.
fn run(start: Progress, limit: usize, buffer: &mut [u8], bytes: &[u8]) -> Fed
    requires { Fits limit start buffer.old }
    ensures { (fed (told_feed result.outcome) result.used result.next.progress buffer.new
        ≡ feed_from limit 0 start buffer.old bytes.now) × (result.next.limit ≡ limit) }
{
    let mut state = start;
    let mut i = 0;
    loop {
        let passed = pass(state, limit, buffer, bytes, i);
        i = passed.at;
        let there = passed.next;
        state = rebuilt(there);
        if i >= bytes.len() {
            return ended(Ok(None), i, limit, state);
        }
        let done = fast_step(state, limit, buffer, bytes[i]);
        i += 1;
        let then = done.next;
        state = rebuilt(then);
        match done.outcome {
            StepOutcome::Skipped => {}
            StepOutcome::Taken => {}
            StepOutcome::Frame(frame) => return ended(Ok(Some(frame)), i, limit, state),
            StepOutcome::Refused(why) => return ended(Err(why), i, limit, state),
        }
    }
}

// Many bytes, up to the first frame or refusal.
pub fn feed(state: Extractor, buffer: &mut [u8], bytes: &[u8]) -> Fed
    ensures { (fed (told_feed result.outcome) result.used result.next.progress buffer.new
        ≡ feed_of state.limit state.progress buffer.old bytes.now)
        × (result.next.limit ≡ state.limit) }
{
    let progress = state.progress;
    let limit = state.limit;
    if progress.is_ready(limit, buffer.len()) {
        run(progress, limit, buffer, bytes)
    } else {
        Fed {
            outcome: Err(Refusal::BadStateOrBuffer),
            used: 0,
            next: state,
        }
    }
}
