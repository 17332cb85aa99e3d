// One capture added to a report, for C: what it is added to, and what is told of it.
ghost use Rattle.std.specs.Prelude.{◌≡◌};
ghost use Rattle.capture_tally.specs.Tally.{told};
ghost use Rattle.c_report.specs.Calls.{adding_to, added, told_rows, report_called, report_add_of};

use crate::convert::{ADD_ANSWER, REPORT, place_row, put_report, report_at};
use ble_slot::Slot;
use c_rows::row::{UNFIT, number_of_result, put};
use capture_reader::RefusedAt;
use capture_report::CostReport;
use capture_tally::{Refusal, add};
use wire::logic::both;

// What a capture is added to: a report, and the limit of the link that reads it.
#[derive(Drop)]
pub struct AddingTo {
    pub report: CostReport,
    pub limit: usize,
}

// What a capture is added to; size is the answer row's. Rows of other lengths get the limit 0, on which a link leaves all.
pub fn adding_to(report: &[u64], limit: u64, size: usize) -> AddingTo
    ensures { result ≡ adding_to report.now limit size }
{
    let before = report_at(report);
    let limit = if both(report.len() == REPORT, size == ADD_ANSWER) {
        limit as usize
    } else {
        0
    };
    AddingTo {
        report: before,
        limit,
    }
}

// Tells what came of a capture in the report and the answer row, and returns its number; 1 where one of them has another length.
pub fn tell_added(
    report: &mut [u64],
    answer: &mut [u64],
    done: Result<CostReport, RefusedAt<Refusal>>,
) -> u64
    ensures { added result report.new answer.new
        ≡ told_rows report.old answer.old (told done) }
{
    let fits = both(report.len() == REPORT, answer.len() == ADD_ANSWER);
    if !fits {
        return UNFIT;
    }
    let number = number_of_result(&done);
    put_report(report, done);
    let place = place_row(done);
    put(answer, number, &place);
    number
}

// Adds what a capture cost, read by a fresh link of a limit, to a report.
pub fn pito_report_add(
    report: &mut [u64],
    limit: u64,
    row: &mut [Slot],
    buffer: &mut [u8],
    capture: &[u8],
    answer: &mut [u64],
) -> u64
    ensures { report_called result report.new row.new buffer.new answer.new
        ≡ report_add_of report.old limit row.old buffer.old capture.now
        answer.old }
{
    let to = adding_to(&*report, limit, answer.len());
    let done = add(to.report, to.limit, row, buffer, capture);
    tell_added(report, answer, done)
}
