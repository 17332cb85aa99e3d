// Classic for C: the extractor and the frame writer.
ghost use Rattle.std.specs.Prelude.{◌≡◌, true, [], length};
ghost use Rattle.classic_extractor.specs.Step.{byte_step_of};
ghost use Rattle.classic_feed.specs.Feed.{feed_of};
ghost use Rattle.c_rows.specs.Called.{called};
ghost use Rattle.c_classic.specs.Convert.{is_extractor, extractor_of};
ghost use Rattle.c_classic.specs.Calls.{extractor_open_of, stepped, extractor_step_of, fed_call, none_used, extractor_feed_of, frame_write_of, next_sequence_of};

use crate::convert::{
    ALL_USED, FEED_ANSWER, FRAME, NOTHING, STATE, STEP_ANSWER, extractor_of, extractor_row,
    is_extractor, put_progress, step_reply,
};
use c_rows::row::{COUNT_ANSWER, Count, DONE, UNFIT, byte_or, put, tell, write_row};
use classic_extractor::state::Extractor;
use classic_feed::many::feed;
use classic_frame::header;
use classic_frame::mark::Mark;
use classic_writer::writer::write_frame;
use wire::bytes::wide64;
use wire::refusal::Numbered;

// Opens an extractor for a link with a limit: its empty state.
pub fn pito_extractor_open(limit: u64, state: &mut [u64]) -> u64
    ensures { called result state.new [] [] ≡ extractor_open_of limit state.old }
{
    if state.len() != STATE {
        return UNFIT;
    }
    match Extractor::open(limit as usize) {
        Ok(next) => {
            let row = extractor_row(next);
            write_row(state, &row);
            DONE
        }
        Err(why) => wide64(why.number()),
    }
}

// One byte given to the extractor.
pub fn pito_extractor_step(
    state: &mut [u64],
    buffer: &mut [u8],
    byte: u8,
    answer: &mut [u64],
) -> u64
    ensures { called result state.new buffer.new answer.new
        ≡ extractor_step_of state.old buffer.old byte answer.old }
{
    if answer.len() != STEP_ANSWER {
        return UNFIT;
    }
    if !is_extractor(state) {
        return UNFIT;
    }
    step_fitting(state, buffer, byte, answer)
}

// The same with rows that fit.
fn step_fitting(state: &mut [u64], buffer: &mut [u8], byte: u8, answer: &mut [u64]) -> u64
    requires { (is_extractor state.old ≡ true) × (length answer.old ≡ 3) }
    ensures { called result state.new buffer.new answer.new
        ≡ (let x = extractor_of state.old in
        stepped state.old answer.old x.limit
        (byte_step_of x.limit x.progress buffer.old byte)) }
{
    let done = extractor_of(state).step(buffer, byte);
    let reply = step_reply(done.outcome);
    let number = reply.number;
    let next = done.next;
    let progress = next.progress;
    let row = [reply.outcome, reply.sequence, reply.length];
    put_progress(state, number, progress);
    put(answer, number, &row);
    number
}

// What a feed answers that is refused by 1, over an answer row of its length.
fn unfit_feed(answer: &mut [u64]) -> u64
    requires { length answer.old ≡ 4 }
    ensures { (result ≡ 1) × (answer.new ≡ none_used answer.old) }
{
    let row = [0u64; 4];
    write_row(answer, &row);
    UNFIT
}

// Many bytes given to the extractor. The answer row tells 0 used under 1, where it has its length. State and buffer are
// judged here as well as in `feed`: the compiler then judges them once, and keeps nothing for 1 through the bytes.
pub fn pito_extractor_feed(
    state: &mut [u64],
    buffer: &mut [u8],
    bytes: &[u8],
    answer: &mut [u64],
) -> u64
    ensures { called result state.new buffer.new answer.new
        ≡ extractor_feed_of state.old buffer.old bytes.now answer.old }
{
    if answer.len() != FEED_ANSWER {
        return UNFIT;
    }
    if !is_extractor(state) {
        return unfit_feed(answer);
    }
    let there = extractor_of(state);
    let progress = there.progress;
    if !progress.is_ready(there.limit, buffer.len()) {
        return unfit_feed(answer);
    }
    feed_fitting(state, buffer, bytes, answer)
}

// The same with rows that fit. Each outcome writes its own row: to choose one first costs more.
fn feed_fitting(state: &mut [u64], buffer: &mut [u8], bytes: &[u8], answer: &mut [u64]) -> u64
    requires { (is_extractor state.old ≡ true) × (length answer.old ≡ 4) }
    ensures { called result state.new buffer.new answer.new
        ≡ (let x = extractor_of state.old in
        fed_call state.old x.limit
        (feed_of x.limit x.progress buffer.old bytes.now)) }
{
    let done = feed(extractor_of(state), buffer, bytes);
    let next = done.next;
    let progress = next.progress;
    let used = done.used as u64;
    match done.outcome {
        Ok(None) => {
            let row = [ALL_USED, used, 0, 0];
            write_row(answer, &row);
            put_progress(state, DONE, progress);
            DONE
        }
        Ok(Some(frame)) => {
            let row = [FRAME, used, wide64(frame.sequence), frame.len as u64];
            write_row(answer, &row);
            put_progress(state, DONE, progress);
            DONE
        }
        Err(why) => {
            let number = wide64(why.number());
            let row = [NOTHING, used, 0, 0];
            write_row(answer, &row);
            put_progress(state, number, progress);
            number
        }
    }
}

// Writes the frame of a payload, for a link with a limit.
pub fn pito_frame_write(
    sequence: u64,
    limit: u64,
    payload: &[u8],
    output: &mut [u8],
    answer: &mut [u64],
) -> u64
    ensures { called result [] output.new answer.new
        ≡ frame_write_of limit sequence payload.now output.old answer.old }
{
    if answer.len() != COUNT_ANSWER {
        return UNFIT;
    }
    let sequence = byte_or(Mark::START, sequence);
    let outcome = write_frame(sequence, limit as usize, payload, output);
    tell(answer, Count::told(outcome))
}

// The sequence byte after a sequence byte.
pub fn pito_next_sequence(sequence: u8, answer: &mut [u64]) -> u64
    ensures { called result [] [] answer.new ≡ next_sequence_of sequence answer.old }
{
    if answer.len() != COUNT_ANSWER {
        return UNFIT;
    }
    let size = wide64(header::next_sequence(sequence));
    tell(answer, Count { number: DONE, size })
}
