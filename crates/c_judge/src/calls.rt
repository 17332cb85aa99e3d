// Captures for C: whether one is lawful, and why not.
ghost use Rattle.std.specs.Prelude.{◌≡◌, []};
ghost use Rattle.c_rows.specs.Called.{called};
ghost use Rattle.c_judge.specs.Calls.{capture_judge_of, capture_why_of};

use crate::convert::{JUDGE_ANSWER, WHY_ANSWER, judged_row, why_row};
use c_rows::row::{UNFIT, number_of_result, put};
use capture_judge::Settings;
use capture_judge::capture::{judge_capture, trace};
use capture_why::explain;

// Judges a capture for a room and a limit.
pub fn pito_capture_judge(capture: &[u8], room: u64, limit: u64, answer: &mut [u64]) -> u64
    ensures { called result [] [] answer.new
        ≡ capture_judge_of capture.now room limit answer.old }
{
    if answer.len() != JUDGE_ANSWER {
        return UNFIT;
    }
    let settings = Settings {
        room: room as usize,
        limit: limit as usize,
    };
    let judged = judge_capture(capture, settings);
    let number = number_of_result(&judged);
    let row = judged_row(judged);
    put(answer, number, &row);
    number
}

// Judges it as pito_capture_judge does, and tells what is open, what came and what was expected.
pub fn pito_capture_why(capture: &[u8], room: u64, limit: u64, answer: &mut [u64]) -> u64
    ensures { called result [] [] answer.new
        ≡ capture_why_of capture.now room limit answer.old }
{
    if answer.len() != WHY_ANSWER {
        return UNFIT;
    }
    let settings = Settings {
        room: room as usize,
        limit: limit as usize,
    };
    let why = explain(capture, settings, trace(capture, settings));
    let number = number_of_result(&why);
    let row = why_row(why);
    put(answer, number, &row);
    number
}
