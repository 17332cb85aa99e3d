// The outbox for C: a new one, a record appended, a record read at a place, and whether all is whole.
ghost use Rattle.std.specs.Prelude.{◌≡◌, []};
ghost use Rattle.c_rows.specs.Called.{called};
ghost use Rattle.c_outbox.specs.Calls.{outbox_new_of, outbox_append_of, outbox_record_of, outbox_whole_of};

use crate::convert::{
    APPEND_ANSWER, RECORD_ANSWER, WHOLE_ANSWER, tell_append, tell_record, whole_row,
};
use c_rows::row::{COUNT_ANSWER, Count, OUT_OF_RANGE, UNFIT, byte_or, put, tell};
use outbox::{reader, writer};
use wire::bytes::wide64;
use wire::refusal::number_in;

// Begins a new outbox.
pub fn pito_outbox_new(output: &mut [u8], answer: &mut [u64]) -> u64
    ensures { called result [] output.new answer.new
        ≡ outbox_new_of output.old answer.old }
{
    if answer.len() != COUNT_ANSWER {
        return UNFIT;
    }
    let created = writer::create(output);
    tell(answer, Count::told(created))
}

// Appends a record after the used bytes.
pub fn pito_outbox_append(
    buffer: &mut [u8],
    used: u64,
    stream: u64,
    payload: &[u8],
    answer: &mut [u64],
) -> u64
    ensures { called result [] buffer.new answer.new
        ≡ outbox_append_of buffer.old used stream payload.now answer.old }
{
    if answer.len() != APPEND_ANSWER {
        return UNFIT;
    }
    let known = byte_or(OUT_OF_RANGE, stream);
    let appended = writer::append(buffer, used as usize, known, payload);
    tell_append(answer, appended)
}

// Reads the record at a place.
pub fn pito_outbox_record(bytes: &[u8], place: u64, answer: &mut [u64]) -> u64
    ensures { called result [] [] answer.new
        ≡ outbox_record_of bytes.now place answer.old }
{
    if answer.len() != RECORD_ANSWER {
        return UNFIT;
    }
    let reading = reader::read(bytes, place as usize);
    tell_record(answer, reading)
}

// Whether an outbox is whole.
pub fn pito_outbox_whole(bytes: &[u8], answer: &mut [u64]) -> u64
    ensures { called result [] [] answer.new
        ≡ outbox_whole_of bytes.now answer.old }
{
    if answer.len() != WHOLE_ANSWER {
        return UNFIT;
    }
    let walked = reader::walk(bytes);
    let number = wide64(number_in(&walked));
    let row = whole_row(walked);
    put(answer, number, &row);
    number
}
