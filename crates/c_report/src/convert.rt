// A report as a row, and what is told of a capture that is added.
ghost use Rattle.std.specs.Prelude.{◌≡◌, ◌≤◌, length};
ghost use Rattle.capture_tally.specs.Tally.{told};
ghost use Rattle.c_report.specs.Convert.{report_row, costs_at, report_at, report_after, place_row};

use c_rows::row::{number_at, write_row};
use capture_reader::RefusedAt;
use capture_report::{CostReport, Costs};
use capture_tally::Refusal;

// The numbers of a report: seven for each stream, in the order control, OTA, Alexa.
pub const REPORT: usize = 21;

// The numbers of the answer row: the place.
pub const ADD_ANSWER: usize = 1;

fn costs_at(row: &[u64], at: usize) -> Costs
    requires { at ≤ 14 }
    ensures { result ≡ costs_at row.now at }
{
    let firsts = number_at(row, at);
    let finished = number_at(row, at + 1);
    let replaced = number_at(row, at + 2);
    let dropped = number_at(row, at + 3);
    let pending = number_at(row, at + 4);
    let payload = number_at(row, at + 5);
    let bytes = number_at(row, at + 6);
    Costs {
        firsts,
        finished,
        replaced,
        dropped,
        pending,
        payload,
        bytes,
    }
}

pub fn report_at(row: &[u64]) -> CostReport
    ensures { result ≡ report_at row.now }
{
    let control = costs_at(row, 0);
    let ota = costs_at(row, 7);
    let alexa = costs_at(row, 14);
    CostReport {
        control,
        ota,
        alexa,
    }
}

fn report_row(report: CostReport) -> [u64; 21]
    ensures { result ≡ report_row report }
{
    let control = report.control;
    let ota = report.ota;
    let alexa = report.alexa;
    [
        control.firsts,
        control.finished,
        control.replaced,
        control.dropped,
        control.pending,
        control.payload,
        control.bytes,
        ota.firsts,
        ota.finished,
        ota.replaced,
        ota.dropped,
        ota.pending,
        ota.payload,
        ota.bytes,
        alexa.firsts,
        alexa.finished,
        alexa.replaced,
        alexa.dropped,
        alexa.pending,
        alexa.payload,
        alexa.bytes,
    ]
}

// Writes the report where one is told.
pub fn put_report(row: &mut [u64], added: Result<CostReport, RefusedAt<Refusal>>)
    requires { length row.old ≡ 21 }
    ensures { row.new ≡ report_after row.old (told added) }
{
    if let Ok(report) = added {
        let numbers = report_row(report);
        write_row(row, &numbers);
    }
}

pub fn place_row(added: Result<CostReport, RefusedAt<Refusal>>) -> [u64; 1]
    ensures { result ≡ place_row (told added) }
{
    match added {
        Ok(_) => [0],
        Err(RefusedAt { why: _, at }) => [at as u64],
    }
}
