// Prints what the radio cost over some captures. Arguments: the limit of the links, then the names of the captures. A capture that is
// refused is named on standard output, one that cannot be read on the error output, and the others are added all the same.
#![tactic(auto)]

ghost use Rattle.std.specs.Prelude.{◌≡◌, true, IfSome};
ghost use Rattle.wire.specs.Limit.{limit_fits};

use ble_receiver::SLOT_COUNT;
use ble_slot::Slot;
use capture_reader::RefusedAt;
use capture_report::{CostReport, Costs};
use capture_tally::add_by_value;
use cli_console::{Console, Output, argument, argument_count, complain, fail, read_quietly, room};
use std::fs;
use std::io::{Error, ErrorKind, Read, Result};
use std::num::{wrapping_add_u64, wrapping_sub_u64};
use std::rt::{Env, Files};
use std::str::from_utf8;
use wire::limit::limit_fits;
use wire::refusal::Numbered;

// The longest capture that is read.
const LONGEST: usize = 1048576;

// The buffer of a link of the largest limit.
const LARGEST_BUFFER: usize = 786420;

// The digits of the largest limit, and a few more.
const LIMIT_WORD: usize = 8;

// The bytes of the longest file name.
const LONGEST_NAME: usize = 4096;

// The report so far, how many captures it has, and what is written.
#[derive(Drop)]
struct ReportSoFar {
    report: CostReport,
    captures: u64,
    output: Output,
}

fn usage(console: Console) {
    complain(console, b"usage: radio_report LIMIT CAPTURE..\n");
    complain(
        console,
        b"  LIMIT    of the links that read the captures, 1 to 65535\n",
    );
    complain(
        console,
        b"  CAPTURE  a file of up to 1048576 bytes: the byte 01, then each packet with its length of two bytes before it\n",
    );
}

// The first argument as the limit of a link, where it is one: decimal digits alone.
fn limit_given<E: Env>(rt: &E) -> Option<usize>
    ensures { IfSome result (λ limit. limit_fits limit ≡ true) }
{
    let mut word = [0u8; LIMIT_WORD];
    let n = argument(rt, 1, &mut word)?;
    let digits = &word[..n];
    if !digits.iter().all(|b| b.is_ascii_digit()) {
        return None;
    }
    let limit = from_utf8(digits).ok()?.parse().ok()?;
    if limit_fits(limit) { Some(limit) } else { None }
}

fn nothing_yet(console: Console) -> ReportSoFar {
    ReportSoFar {
        report: CostReport::default(),
        captures: 0,
        output: Output::new(console),
    }
}

fn say_refused(output: Output, name: &[u8], number: u8, place: usize) -> Output {
    let refused = output
        .text(name)
        .text(b": refused ")
        .number(u64::from(number));
    refused.text(b" at ").number(place as u64).text(b"\n")
}

fn add_capture(
    before: ReportSoFar,
    name: &[u8],
    limit: usize,
    buffer: &mut [u8],
    capture: &[u8],
) -> ReportSoFar {
    let report = before.report;
    let output = before.output;
    let row = [Slot::idle(); SLOT_COUNT];
    let added = add_by_value(SLOT_COUNT, row, report, limit, buffer, capture);
    match added.answer {
        Ok(sums) => ReportSoFar {
            report: sums,
            captures: wrapping_add_u64(before.captures, 1),
            output,
        },
        Err(RefusedAt { why, at }) => ReportSoFar {
            report,
            captures: before.captures,
            output: say_refused(output, name, why.number(), at),
        },
    }
}

// Whether a file was read to its end.
fn is_at_end<F: Read>(console: Console, file: &mut F, name: &[u8]) -> bool {
    let mut more = [0u8; 1];
    match file.read(&mut more) {
        Ok(0) => true,
        Ok(_) => {
            complain(console, name);
            complain(console, b": more than 1048576 bytes\n");
            false
        }
        Err(error) => {
            fail(console, name, error);
            false
        }
    }
}

fn add_opened<F: Read + Drop>(
    before: ReportSoFar,
    opened: F,
    name: &[u8],
    limit: usize,
    buffer: &mut [u8],
    space: &mut [u8],
) -> ReportSoFar {
    let output = before.output;
    let mut file = opened;
    let held = read_quietly(&mut file, space);
    if !is_at_end(output.console, &mut file, name) {
        return before;
    }
    add_capture(before, name, limit, buffer, &space[..held])
}

// A file's name is text.
fn open_capture<R: Files>(rt: &R, name: &[u8]) -> Result<R::File> {
    match from_utf8(name) {
        Ok(path) => fs::open(rt, path),
        Err(_) => Err(Error::from(ErrorKind::InvalidFilename)),
    }
}

fn add_file<R: Files>(
    rt: &R,
    before: ReportSoFar,
    name: &[u8],
    limit: usize,
    buffer: &mut [u8],
    space: &mut [u8],
) -> ReportSoFar {
    match open_capture(rt, name) {
        Ok(file) => add_opened(before, file, name, limit, buffer, space),
        Err(error) => {
            let output = before.output;
            fail(output.console, name, error);
            before
        }
    }
}

fn add_argument<R: Env + Files>(
    rt: &R,
    before: ReportSoFar,
    i: usize,
    limit: usize,
    buffer: &mut [u8],
    space: &mut [u8],
) -> ReportSoFar {
    let mut name = [0u8; LONGEST_NAME];
    let n = argument(rt, i, &mut name).unwrap_or(0);
    add_file(rt, before, &name[..n], limit, buffer, space)
}

// Adds each file that an argument names, from the second one on.
fn add_files<R: Env + Files>(
    rt: &R,
    console: Console,
    count: usize,
    limit: usize,
    buffer: &mut [u8],
    space: &mut [u8],
) -> ReportSoFar {
    let mut sums = nothing_yet(console);
    for i in 2..count {
        sums = add_argument(rt, sums, i, limit, buffer, space);
    }
    sums
}

// A number at the right of its column, with a blank before it.
fn say_number(output: Output, n: u64) -> Output {
    output.text(b" ").column(n)
}

fn say_costs(output: Output, label: &[u8], costs: Costs) -> Output {
    let firsts = say_number(output.text(label), costs.firsts);
    let finished = say_number(firsts, costs.finished);
    let replaced = say_number(finished, costs.replaced);
    let dropped = say_number(replaced, costs.dropped);
    let pending = say_number(dropped, costs.pending);
    let payload = say_number(pending, costs.payload);
    say_number(payload, costs.bytes).text(b"\n")
}

// No three numbers of captures that a machine holds have a sum of more than 64 bits.
fn sum(a: u64, b: u64, c: u64) -> u64 {
    wrapping_add_u64(wrapping_add_u64(a, b), c)
}

fn total(report: CostReport) -> Costs {
    let a = report.control;
    let b = report.ota;
    let c = report.alexa;
    Costs {
        firsts: sum(a.firsts, b.firsts, c.firsts),
        finished: sum(a.finished, b.finished, c.finished),
        replaced: sum(a.replaced, b.replaced, c.replaced),
        dropped: sum(a.dropped, b.dropped, c.dropped),
        pending: sum(a.pending, b.pending, c.pending),
        payload: sum(a.payload, b.payload, c.payload),
        bytes: sum(a.bytes, b.bytes, c.bytes),
    }
}

fn say_report(output: Output, report: CostReport) -> Output {
    let heads = output.text(
        b"            firsts   finished   replaced    dropped       open    payload      bytes\n",
    );
    let control = say_costs(heads, b"control", report.control);
    let ota = say_costs(control, b"OTA    ", report.ota);
    let alexa = say_costs(ota, b"Alexa  ", report.alexa);
    say_costs(alexa, b"total  ", total(report))
}

fn say_all(sums: ReportSoFar, count: usize) {
    let report = sums.report;
    let output = sums.output;
    let table = say_report(output, report);
    let added = table.number(sums.captures).text(b" of ");
    added
        .number(wrapping_sub_u64(count as u64, 2))
        .text(b" captures\n");
}

fn report_files<R: Env + Files>(
    rt: &R,
    console: Console,
    count: usize,
    limit: usize,
    size: usize,
    parts: &mut [u8],
    space: &mut [u8],
) {
    let n = size.min(parts.len());
    let sums = add_files(rt, console, count, limit, &mut parts[0..n], space);
    say_all(sums, count);
}

// The bytes of a link's buffer.
fn buffer_size(limit: usize) -> usize
    requires { limit_fits limit ≡ true }
{
    SLOT_COUNT * limit
}

fn main(rt: HostRuntime) {
    let console = Console::of(&rt);
    let count = argument_count(&rt);
    let Some(limit) = limit_given(&rt) else {
        usage(console);
        return;
    };
    if count < 3 {
        usage(console);
        return;
    }
    let size = buffer_size(limit);
    let mut space = room::<LONGEST>();
    let mut parts = room::<LARGEST_BUFFER>();
    report_files(&rt, console, count, limit, size, &mut parts, &mut space);
}
