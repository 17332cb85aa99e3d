// Firmware messages for C, read and written, and the reader of any field.
ghost use Rattle.std.specs.Prelude.{◌≡◌, []};
ghost use Rattle.c_rows.specs.Called.{called};
ghost use Rattle.c_firmware.specs.Calls.{segment_read_of, segment_write_of, apply_read_of, apply_write_of, field_read_of};

use c_firmware_rows::apply::{APPLY_ANSWER, APPLY_ROW, apply_at, bad_row, put_apply};
use c_firmware_rows::field_row::{FIELD_ANSWER, found_row};
use c_firmware_rows::segment::{SEGMENT_ANSWER, is_wide, segment_row};
use c_message_rows::convert::{WROTE_ANSWER, tell_wrote};
use c_rows::row::{UNFIT, number_of_result, put};
use msg_apply_writer::apply::write_apply;
use msg_firmware::apply::read_apply;
use msg_firmware::segment::read_segment;
use msg_segment_writer::write_segment;
use proto_field::fields::found_at;
use proto_field::unsigned::low_unsigned;
use proto_strings::TextWriteRefusal;
use proto_writer::message::WriteRefusal;
use wire::logic::either;

// Reads an UpdateComponentSegment.
pub fn segment_read(message: &[u8], answer: &mut [u64]) -> u64
    ensures { called result [] [] answer.new
        ≡ segment_read_of message.now answer.old }
{
    if answer.len() != SEGMENT_ANSWER {
        return UNFIT;
    }
    let read = read_segment(message);
    let number = number_of_result(&read);
    let row = segment_row(read);
    put(answer, number, &row);
    number
}

// Writes an UpdateComponentSegment.
pub fn segment_write(
    name: &[u8],
    offset: u64,
    size: u64,
    signature: &[u8],
    output: &mut [u8],
    answer: &mut [u64],
) -> u64
    ensures { called result [] output.new answer.new
        ≡ segment_write_of name.now offset size signature.now output.old
        answer.old }
{
    if answer.len() != WROTE_ANSWER {
        return UNFIT;
    }
    if either(is_wide(offset), is_wide(size)) {
        return tell_wrote(
            answer,
            Err(TextWriteRefusal::Refused(WriteRefusal::BadArgument)),
        );
    }
    let wrote = write_segment(
        output,
        name,
        low_unsigned(offset),
        low_unsigned(size),
        signature,
    );
    tell_wrote(answer, wrote)
}

// Reads an ApplyFirmware.
pub fn apply_read(message: &[u8], answer: &mut [u64]) -> u64
    ensures { called result [] [] answer.new ≡ apply_read_of message.now answer.old }
{
    if answer.len() != APPLY_ANSWER {
        return UNFIT;
    }
    let read = read_apply(message);
    let number = number_of_result(&read);
    put_apply(answer, number, read);
    number
}

// Writes an ApplyFirmware, of a row whose parts are places in the texts.
pub fn apply_write(row: &[u64], texts: &[u8], output: &mut [u8], answer: &mut [u64]) -> u64
    ensures { called result [] output.new answer.new
        ≡ apply_write_of row.now texts.now output.old answer.old }
{
    if row.len() != APPLY_ROW {
        return UNFIT;
    }
    if answer.len() != WROTE_ANSWER {
        return UNFIT;
    }
    if bad_row(row) {
        return tell_wrote(
            answer,
            Err(TextWriteRefusal::Refused(WriteRefusal::BadArgument)),
        );
    }
    let apply = apply_at(row);
    let wrote = write_apply(output, apply, texts);
    tell_wrote(answer, wrote)
}

// Reads the field at a place of any message.
pub fn field_read(message: &[u8], place: u64, answer: &mut [u64]) -> u64
    ensures { called result [] [] answer.new
        ≡ field_read_of message.now place answer.old }
{
    if answer.len() != FIELD_ANSWER {
        return UNFIT;
    }
    let told = found_row(found_at(message, place as usize));
    let number = told.number;
    let row = told.row;
    put(answer, number, &row);
    number
}
