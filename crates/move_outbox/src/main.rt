// Writes the outbox file given on standard input in the version that the argument names, 01 or 02, to standard output. Where
// it refuses, standard output gets nothing, and the error output says why. The file may be of any size: one pass judges it, and
// another writes, each through a buffer that holds the version byte and the bytes from a record's place on. An input that the buffer
// holds whole is not read again.
#![tactic(auto)]

use cli_console::sentences::explain_outbox;
use cli_console::{
    Console, Failed, Output, argument_count, argument_is, complain, complain_number, read_full,
    room,
};
use cli_listing::{Refilled, carry_over, judge_part, refill};
use outbox::format::{FIRST_PLACE, FileVersion};
use outbox_move::{MoveRefusal, move_file};
use std::fs;
use std::io::{Read, Stdin};
use std::num::wrapping_add_u64;
use std::os::unix::fs::FileTypeExt;
use std::rt::{Env, Files};
use wire::refusal::Numbered;

// In any version a part has less than twice its bytes.
const MOVED_ROOM: usize = 131082;

// Standard input as a file that can be opened again.
const INPUT: &str = "/dev/stdin";

// A refusal of the file: its number, and its place in the whole file.
#[derive(Clone, Copy, Debug, PartialEq, Eq)]
struct Complaint {
    number: u8,
    place: u64,
}

impl Complaint {
    // Told by a place of a part, and by how many bytes of the file are gone from that part.
    fn at(number: u8, gone: u64, place: usize) -> Self {
        Complaint {
            number,
            place: wrapping_add_u64(gone, place as u64),
        }
    }
}

// What a pass has come to: what is written, and whether that has the version byte; the first refusal of a part that is whole, if any.
#[derive(Drop)]
struct PassSoFar {
    output: Output,
    begun: bool,
    refused: Option<Complaint>,
}

fn complain_at(console: Console, refused: Complaint) {
    complain(console, b"move_outbox: refused ");
    complain_number(console, u64::from(refused.number));
    complain(console, b" at ");
    complain_number(console, refused.place);
    complain(console, b"\n");
    explain_outbox(console, refused.number);
}

// The version that the argument names, where it names one.
fn argument<E: Env>(rt: &E) -> Option<FileVersion> {
    if argument_count(rt) != 2 {
        return None;
    }
    if argument_is(rt, 1, b"01") {
        return Some(FileVersion::One);
    }
    if argument_is(rt, 1, b"02") {
        return Some(FileVersion::Two);
    }
    None
}

fn first_place(begun: bool) -> usize {
    if begun { FIRST_PLACE } else { 0 }
}

// Writes a part that was moved, for the pass that writes. Each has the version byte, which the new file has once.
fn write_part(before: PassSoFar, moved: &[u8]) -> PassSoFar {
    let from = first_place(before.begun).min(moved.len());
    let output = before.output;
    PassSoFar {
        output: output.text(&moved[from..]),
        begun: true,
        refused: before.refused,
    }
}

// The first refusal stays.
fn refuse(before: PassSoFar, why: MoveRefusal, gone: u64) -> PassSoFar {
    let place = match why {
        MoveRefusal::NoRoom => 0,
        MoveRefusal::TooLong(too_long) => too_long.place,
        MoveRefusal::Broken(broken) => broken.place,
    };
    let refused = before
        .refused
        .or(Some(Complaint::at(why.number(), gone, place)));
    PassSoFar {
        output: before.output,
        begun: before.begun,
        refused,
    }
}

// The records of a part that is whole, as an outbox of their own, given to `keep` as they are moved.
fn move_part<K: Fn(PassSoFar, &[u8]) -> PassSoFar>(
    before: PassSoFar,
    keep: &K,
    part: &[u8],
    gone: u64,
    wished: FileVersion,
    space: &mut [u8],
) -> PassSoFar
    requires { K.IsAlwaysCallable keep.now }
{
    match move_file(part, wished, space) {
        Ok(n) => keep(before, &space[..n]),
        Err(why) => refuse(before, why, gone),
    }
}

// The end of a pass over a whole file: whether nothing was refused.
fn end_pass(passed: PassSoFar) -> bool {
    if let Some(refused) = passed.refused {
        let output = passed.output;
        complain_at(output.console, refused);
        return false;
    }
    true
}

// What standard input begins with: all of it, where it ends before the buffer is full.
fn first_part<R: Read>(
    console: Console,
    input: &mut R,
    buffer: &mut [u8],
) -> Result<Refilled, Failed> {
    let held = read_full(console, input, buffer)?;
    Ok(Refilled {
        held,
        last: held < buffer.len(),
    })
}

// A pass over standard input from its first part on, up to its end, a refusal, or a read or a write that fails; whether it came to
// the end and nothing was refused. Nothing says that the input ends, so the loop counts up to a number that no run comes to.
fn pass_over<R: Read, K: Fn(PassSoFar, &[u8]) -> PassSoFar>(
    console: Console,
    input: &mut R,
    keep: &K,
    wished: FileVersion,
    first: Refilled,
    buffer: &mut [u8],
    space: &mut [u8],
) -> bool
    requires { K.IsAlwaysCallable keep.now }
{
    let mut passed = PassSoFar {
        output: Output::new(console),
        begun: false,
        refused: None,
    };
    let mut gone = 0;
    let mut held = first.held.min(buffer.len());
    let mut last = first.last;
    for _turn in 0..u64::MAX {
        let listed = match judge_part(&buffer[..held], last) {
            Ok(part) => part,
            Err(broken) => {
                complain_at(console, Complaint::at(broken.number(), gone, broken.place));
                return false;
            }
        };
        let place = listed.place;
        let end = place.min(held);
        passed = move_part(passed, keep, &buffer[..end], gone, wished, space);
        if listed.over {
            return end_pass(passed);
        }
        gone = wrapping_add_u64(gone, (place - FIRST_PLACE) as u64);
        let kept = carry_over(buffer, place, held);
        let Ok(filled) = refill(console, input, buffer, kept) else {
            return false;
        };
        let output = passed.output;
        if output.failed {
            return false;
        }
        held = filled.held;
        last = filled.last;
    }
    false
}

// Whether standard input has a first byte that can be gone back to, as a file or a disk has and a pipe has not.
fn has_start<F: Files>(rt: &F) -> bool {
    fs::metadata(rt, INPUT).is_ok_and(|found| {
        let kind = found.file_type();
        kind.is_file() || kind.is_block_device()
    })
}

// Standard input from its first byte on.
fn from_start<F: Files>(rt: &F) -> Option<F::File> {
    if !has_start(rt) {
        return None;
    }
    fs::open(rt, INPUT).ok()
}

// Nothing is written before the whole file is judged.
fn move_input<F: Files>(
    rt: &F,
    console: Console,
    input: Stdin,
    wished: FileVersion,
    buffer: &mut [u8],
    space: &mut [u8],
) {
    let mut judged = input;
    let Ok(first) = first_part(console, &mut judged, buffer) else {
        return;
    };
    let held = first.held;
    let is_whole = first.last;
    if !pass_over(
        console,
        &mut judged,
        &|before, _| before,
        wished,
        first,
        buffer,
        space,
    ) {
        return;
    }
    if is_whole {
        let same = Refilled { held, last: true };
        pass_over(
            console,
            &mut judged,
            &write_part,
            wished,
            same,
            buffer,
            space,
        );
        return;
    }
    match from_start(rt) {
        Some(file) => {
            let mut again = file;
            let Ok(start) = refill(console, &mut again, buffer, 0) else {
                return;
            };
            pass_over(
                console,
                &mut again,
                &write_part,
                wished,
                start,
                buffer,
                space,
            );
        }
        None => complain(
            console,
            b"move_outbox: this input cannot be read twice: give the file itself (move_outbox 02 < OUTBOX)\n",
        ),
    }
}

fn main(rt: HostRuntime) {
    let console = Console::of(&rt);
    let input = rt.stdin();
    let mut buffer = cli_listing::room();
    let mut space = room::<MOVED_ROOM>();
    match argument(&rt) {
        Some(wished) => move_input(&rt, console, input, wished, &mut buffer, &mut space),
        None => complain(console, b"usage: move_outbox 01|02 < OUTBOX > NEW_OUTBOX\n"),
    }
}
