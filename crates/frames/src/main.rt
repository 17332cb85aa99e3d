// Lists the frames of a Classic byte stream from standard input.
#![tactic(auto)]

use classic_extractor::outcome::{Frame, Refusal};
use classic_extractor::state::{CHECKSUM, Extractor, Phase, Progress};
use classic_feed::many::{Fed, feed};
use classic_frame::mark::Mark;
use cli_console::{Console, Output, complain, is_alone, read_some};
use std::io::Read;
use std::num::{wrapping_add_u64, wrapping_sub_u64};
use wire::logic::both;
use wire::refusal::Numbered;

// The limit of the link that is listed.
const LIMIT: usize = 4096;

// The bytes of the extractor's buffer.
const ROOM: usize = LIMIT + CHECKSUM;

// The bytes read at once.
const BLOCK: usize = 65536;

// The extractor's state, the bytes used so far and those of them that were skipped, and what is written.
#[derive(Drop)]
struct Listing {
    state: Extractor,
    used: u64,
    skipped: u64,
    output: Output,
}

fn say_frame(output: Output, place: u64, frame: Frame) -> Output {
    let placed = output.text(b"frame ").number(place);
    let numbered = placed.text(b" ").number(u64::from(frame.sequence));
    numbered.text(b" ").number(frame.len as u64).text(b"\n")
}

fn say_refused(output: Output, place: u64, why: Refusal) -> Output {
    let refused = output.text(b"refused ").number(u64::from(why.number()));
    refused.text(b" at ").number(place).text(b"\n")
}

fn say_outcome(output: Output, place: u64, outcome: Result<Option<Frame>, Refusal>) -> Output {
    match outcome {
        Ok(None) => output,
        Ok(Some(frame)) => say_frame(output, place, frame),
        Err(why) => say_refused(output, place, why),
    }
}

fn say_end(listing: Listing) {
    let used = listing.used;
    let skipped = listing.skipped;
    let state = listing.state;
    let progress = state.progress;
    let output = listing.output;
    let counted = output.text(b"skipped ").number(skipped);
    let ended = counted.text(b"\nend ").number(used);
    if is_outside(progress) {
        ended.text(b" outside\n");
    } else {
        ended.text(b" inside\n");
    }
    if both(used != 0, skipped == used) {
        complain(
            output.console,
            b"frames: no frame begins in these bytes: none of them is F0\n",
        );
    }
}

fn is_outside(progress: Progress) -> bool {
    progress.phase == Phase::Outside
}

// The bytes of one call that were skipped: outside of a frame, those before a start mark.
fn skipped_in(state: Extractor, bytes: &[u8]) -> usize {
    let progress = state.progress;
    if !is_outside(progress) {
        return 0;
    }
    bytes
        .iter()
        .position(|b| *b == Mark::START)
        .unwrap_or(bytes.len())
}

// Lists what one call did with the bytes that it used.
fn list_call(listing: Listing, fed: Fed, bytes: &[u8]) -> Listing {
    let before = listing.state;
    let skipped = skipped_in(before, bytes);
    let used = wrapping_add_u64(listing.used, bytes.len() as u64);
    let outcome = fed.outcome;
    let output = say_outcome(listing.output, wrapping_sub_u64(used, 1), outcome);
    let state = fed.next;
    Listing {
        state,
        used,
        skipped: wrapping_add_u64(listing.skipped, skipped as u64),
        output,
    }
}

// Lists the frames of a block. A call that uses nothing, which a lawful state never makes, ends it.
fn list_block(listing: Listing, buffer: &mut [u8], bytes: &[u8]) -> Listing {
    let mut now = listing;
    let mut at = 0;
    while at < bytes.len() {
        let state = now.state;
        let fed = feed(state, buffer, &bytes[at..]);
        let used = fed.used;
        if used == 0 {
            return now;
        }
        let end = at + used;
        now = list_call(now, fed, &bytes[at..end]);
        at = end;
    }
    now
}

// Lists what standard input holds, each read as it comes: a frame is told when its last byte is there, though the stream stays open.
// Nothing says that it ends, so the loop counts up to a number that no run comes to.
fn list_all<R: Read>(console: Console, stream: &mut R, buffer: &mut [u8]) {
    let mut bytes = [0u8; BLOCK];
    let state = Extractor::outside(LIMIT);
    let mut listing = Listing {
        state,
        used: 0,
        skipped: 0,
        output: Output::new(console),
    };
    for _turn in 0..u64::MAX {
        let Ok(got) = read_some(console, stream, &mut bytes) else {
            return;
        };
        if got == 0 {
            break;
        }
        listing = list_block(listing, buffer, &bytes[..got]);
        let output = listing.output;
        if output.failed {
            return;
        }
    }
    say_end(listing);
}

fn main(rt: HostRuntime) {
    let console = Console::of(&rt);
    if !is_alone(&rt, console, b"usage: frames < BYTES\n") {
        return;
    }
    let mut input = rt.stdin();
    let mut buffer = [0u8; ROOM];
    list_all(console, &mut input, &mut buffer);
}
