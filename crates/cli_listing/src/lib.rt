// Lists the records of an outbox file on standard output, for the crew: what a box kept. The file may be of any size: it
// passes through one buffer that holds the version byte and the bytes from a record's place on.
#![tactic(auto)]

ghost use Rattle.std.specs.Prelude.{◌≡◌, ◌≤◌, length, take, ◌==◌, IfOk};
ghost use Rattle.std.specs.Result.{IfErr};
ghost use Rattle.outbox.specs.Format.{format_of, first_place};
ghost use Rattle.outbox.specs.Reader.{broken_number};
ghost use Rattle.cli_listing.specs.Listing.{buffer_size, ends_by, listed, listed_of, told_part, carried, carry_of, ListsAsWhole};

use cli_console::sentences::explain_outbox;
use cli_console::{Console, Failed, Output, read_some};
use cli_payloads::say_payload;
use outbox::format::FIRST_PLACE;
use outbox::reader::{FoundRecord, ReadRefusal, read, walk};
use outbox::verdict::{Broken, Fault};
use std::io::Read;
use std::num::wrapping_add_u64;
use wire::logic::both;
use wire::refusal::Numbered;

// The bytes of a part: the version byte and the longest record of any version.
const ROOM: usize = 65541;

// What is shown of a record: its place, stream and length, or its payload too.
#[derive(Clone, Copy)]
pub enum RecordView {
    Lengths,
    Payloads,
}

// How far the listing of a part of a file went, and whether the listing is over: it is at the end of the file or at a refusal.
// Two fields, since `ListsAsWhole` speaks of both, and each place means something.
#[derive(Clone, Copy, Debug, PartialEq, Eq)]
pub struct Listed {
    pub over: bool,
    pub place: usize,
}

// What was listed, and what is written of it.
#[derive(Drop)]
pub struct ShownPart {
    pub listed: Listed,
    pub output: Output,
}

// Room for a part.
pub fn room() -> [u8; ROOM]
    ensures { buffer_size ≡ length result }
{
    cli_console::room()
}

// The bytes that a part begins with, and whether the input has ended.
#[derive(Drop)]
pub struct Refilled {
    pub held: usize,
    pub last: bool,
}

// A place of the file, by how many bytes of it are gone from the part.
fn say_place(output: Output, gone: u64, place: usize) -> Output {
    output.number(wrapping_add_u64(gone, place as u64))
}

fn say_record(output: Output, gone: u64, place: usize, found: FoundRecord) -> Output {
    let placed = say_place(output.text(b"record "), gone, place);
    placed
        .text(b" ")
        .number(u64::from(found.stream))
        .text(b" ")
        .number(found.size as u64)
}

// The payload, where it is to be shown, and the end of the record's line.
fn say_rest(output: Output, view: RecordView, part: &[u8], found: FoundRecord) -> Output {
    let from = found.start.min(part.len());
    let len = found.size.min(part.len() - from);
    match view {
        RecordView::Lengths => output.text(b"\n"),
        RecordView::Payloads => say_payload(output, &part[from..from + len]).text(b"\n"),
    }
}

fn say_end(output: Output, gone: u64, place: usize) -> Output {
    say_place(output.text(b"end "), gone, place).text(b"\n")
}

fn say_refused(output: Output, number: u8, gone: u64, place: usize) -> Output {
    let refused = output.text(b"refused ").number(u64::from(number));
    let said = say_place(refused.text(b" at "), gone, place).text(b"\n");
    explain_outbox(output.console, number);
    said
}

// The end of a part: of the file only where the part is its last.
fn list_end(output: Output, gone: u64, place: usize, last: bool) -> ShownPart
    ensures { result.listed ≡ listed last place }
{
    let listed = Listed { over: last, place };
    if last {
        return ShownPart {
            listed,
            output: say_end(output, gone, place),
        };
    }
    ShownPart { listed, output }
}

// A refusal in a part: a record that is cut short may go on in the next part.
fn judge_refusal(broken: Broken, last: bool) -> Result<Listed, Broken>
    ensures { told_part result ≡ listed (ends_by last (broken_number broken)) broken.place }
{
    if both(broken.fault == Fault::Cut, !last) {
        return Ok(Listed {
            over: false,
            place: broken.place,
        });
    }
    Err(broken)
}

// A part looked through, and nothing written of it: how far it is whole, or the refusal that ends the listing there.
pub fn judge_part(part: &[u8], last: bool) -> Result<Listed, Broken>
    ensures { told_part result ≡ listed_of (format_of part.now) last part.now }
{
    match walk(part) {
        Ok(()) => Ok(Listed {
            over: last,
            place: part.len(),
        }),
        Err(broken) => judge_refusal(broken, last),
    }
}

fn list_refusal(output: Output, broken: Broken, gone: u64, last: bool) -> ShownPart
    ensures { result.listed ≡ listed (ends_by last (broken_number broken)) broken.place }
{
    match judge_refusal(broken, last) {
        Ok(listed) => ShownPart { listed, output },
        Err(broken) => ShownPart {
            listed: Listed {
                over: true,
                place: broken.place,
            },
            output: say_refused(output, broken.number(), gone, broken.place),
        },
    }
}

// A line for each whole record of a part, and one for the end or the refusal where the listing is over.
pub fn list_part(output: Output, view: RecordView, part: &[u8], gone: u64, last: bool) -> ShownPart
    ensures { result.listed ≡ listed_of (format_of part.now) last part.now }
{
    let mut said = output;
    let mut place = FIRST_PLACE;
    loop {
        match read(part, place) {
            Ok(Some(found)) => {
                said = say_record(said, gone, place, found);
                said = say_rest(said, view, part, found);
                place = found.next;
            }
            Ok(None) => {
                return list_end(said, gone, place, last);
            }
            Err(ReadRefusal::BadPlace) => {
                return ShownPart {
                    listed: Listed {
                        over: true,
                        place: 0,
                    },
                    output: say_refused(said, ReadRefusal::BadPlace.number(), gone, place),
                };
            }
            Err(ReadRefusal::Broken(broken)) => {
                return list_refusal(said, broken, gone, last);
            }
        }
    }
}

// Moves the bytes of a part from a place on to where the first record stands, and tells how many bytes the part then has.
pub fn carry_over(buffer: &mut [u8], place: usize, held: usize) -> usize
    requires { (first_place ≤ place) × (place ≤ held) × (held ≤ length buffer.old) }
    ensures { carried result buffer.new ≡ carry_of buffer.old place held }
{
    let n = held - place;
    buffer.copy_within(place..held, FIRST_PLACE);
    FIRST_PLACE + n
}

// One read of standard input behind the bytes that the buffer keeps: what has come is listed, though the stream stays open.
pub fn refill<R: Read>(
    console: Console,
    input: &mut R,
    buffer: &mut [u8],
    kept: usize,
) -> Result<Refilled, Failed>
    requires { kept ≤ length buffer.old }
    ensures came { (IfOk result (λ part. part.held ≤ length buffer.new))
        × (take kept buffer.new ≡ take kept buffer.old) }
    ensures failed { IfErr result (λ failed. failed.held ≤ length buffer.new) }
{
    match read_some(console, input, &mut buffer[kept..]) {
        Ok(read) => Ok(Refilled {
            held: kept + read,
            last: read == 0,
        }),
        Err(failed) => Err(Failed {
            held: kept + failed.held,
        }),
    }
}

// Lists what standard input holds, each record as it comes, up to a read or a write that fails. A part is never full before a read: a
// full one is listed beyond its first record. Nothing says that the input ends, so the loop counts up to a number that no run comes to.
pub fn list<R: Read>(console: Console, input: &mut R, buffer: &mut [u8], view: RecordView) {
    let mut output = Output::new(console);
    let mut gone = 0;
    let mut kept = 0;
    for _turn in 0..u64::MAX {
        let Ok(filled) = refill(console, input, buffer, kept) else {
            return;
        };
        if output.failed {
            return;
        }
        let held = filled.held;
        let shown = list_part(output, view, &buffer[..held], gone, filled.last);
        let listed = shown.listed;
        if listed.over {
            return;
        }
        output = shown.output;
        let place = listed.place;
        gone = wrapping_add_u64(gone, (place - FIRST_PLACE) as u64);
        kept = carry_over(buffer, place, held);
    }
}

// A file that is listed part by part gives what it gives as a whole, and a part with room for the longest record is listed
// beyond its first record or to the end of the listing.
pub fn lists_as_whole()
    ensures { ListsAsWhole }
{}
