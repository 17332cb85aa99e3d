// The frame writer by parts for C.
ghost use Rattle.std.specs.Prelude.{◌≡◌, true, [], length};
ghost use Rattle.classic_parts.specs.Writer.{part_of};
ghost use Rattle.c_rows.specs.Called.{called};
ghost use Rattle.c_classic_parts.specs.Convert.{is_state, state_of};
ghost use Rattle.c_classic_parts.specs.Calls.{kept, parted, frame_begin_of, frame_part_of};

use crate::convert::{PART_ANSWER, STATE, is_state, part_reply, state_of, state_row};
use c_rows::row::{DONE, UNFIT, byte_or, put, write_row};
use classic_frame::mark::Mark;
use classic_parts::state::PartWriter;
use wire::bytes::wide64;
use wire::refusal::Numbered;

// Writes a state row, unless the call is refused.
fn keep(state: &mut [u64], number: u64, row: &[u64])
    requires { length state.old ≡ length row.now }
    ensures { state.new ≡ kept number state.old row.now }
{
    if number == DONE {
        write_row(state, row);
    }
}

// Begins a frame whose payload will have `total` bytes, for a link with a limit.
pub fn pito_frame_begin(sequence: u64, limit: u64, total: u64, state: &mut [u64]) -> u64
    ensures { called result state.new [] [] ≡ frame_begin_of limit sequence total state.old }
{
    if state.len() != STATE {
        return UNFIT;
    }
    let sequence = byte_or(Mark::START, sequence);
    match PartWriter::begin(sequence, limit as usize, total as usize) {
        Ok(next) => {
            let row = state_row(next);
            write_row(state, &row);
            DONE
        }
        Err(why) => wide64(why.number()),
    }
}

// Takes payload and writes the frame on into an output.
pub fn pito_frame_part(
    state: &mut [u64],
    payload: &[u8],
    output: &mut [u8],
    answer: &mut [u64],
) -> u64
    ensures { called result state.new output.new answer.new
        ≡ frame_part_of state.old payload.now output.old answer.old }
{
    if answer.len() != PART_ANSWER {
        return UNFIT;
    }
    if !is_state(state) {
        return UNFIT;
    }
    part_fitting(state, payload, output, answer)
}

// The same with rows that fit.
fn part_fitting(state: &mut [u64], payload: &[u8], output: &mut [u8], answer: &mut [u64]) -> u64
    requires { (is_state state.old ≡ true) × (length answer.old ≡ 3) }
    ensures { called result state.new output.new answer.new
        ≡ (let s = state_of state.old in
        parted state.old answer.old s.limit
        (part_of s.limit s.progress payload.now output.old)) }
{
    let done = state_of(state).write(payload, output);
    let outcome = done.outcome;
    let reply = part_reply(outcome);
    let number = reply.number;
    let next = done.next;
    let numbers = state_row(next);
    let row = [reply.taken, reply.written, reply.ended];
    keep(state, number, &numbers);
    put(answer, number, &row);
    number
}
