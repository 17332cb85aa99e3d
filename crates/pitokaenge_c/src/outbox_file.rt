// The outbox file for C: a new one, a record appended, a record read at a place, whether all is whole, and a file written in another
// version.
ghost use Rattle.std.specs.Prelude.{◌≡◌, []};
ghost use Rattle.c_outbox.specs.Calls.{outbox_new_of, outbox_append_of, outbox_record_of, outbox_whole_of};
ghost use Rattle.c_outbox_move.specs.Calls.{outbox_move_of};
ghost use Rattle.c_rows.specs.Called.{called};
ghost use Rattle.outbox.specs.Format.{version_one, version_two};

// Begins a new outbox.
#[unsafe(no_mangle)]
pub extern "C" fn pito_outbox_new(output: &mut [u8], answer: &mut [u64]) -> u64
    ensures { called result [] output.new answer.new
        ≡ outbox_new_of output.old answer.old }
{
    c_outbox::calls::pito_outbox_new(output, answer)
}

// Appends a record after the used bytes.
#[unsafe(no_mangle)]
pub extern "C" fn pito_outbox_append(
    buffer: &mut [u8],
    used: u64,
    stream: u64,
    payload: &[u8],
    answer: &mut [u64],
) -> u64
    ensures { called result [] buffer.new answer.new
        ≡ outbox_append_of buffer.old used stream payload.now answer.old }
{
    c_outbox::calls::pito_outbox_append(buffer, used, stream, payload, answer)
}

// Reads the record at a place.
#[unsafe(no_mangle)]
pub extern "C" fn pito_outbox_record(bytes: &[u8], place: u64, answer: &mut [u64]) -> u64
    ensures { called result [] [] answer.new
        ≡ outbox_record_of bytes.now place answer.old }
{
    c_outbox::calls::pito_outbox_record(bytes, place, answer)
}

// Whether an outbox is whole.
#[unsafe(no_mangle)]
pub extern "C" fn pito_outbox_whole(bytes: &[u8], answer: &mut [u64]) -> u64
    ensures { called result [] [] answer.new
        ≡ outbox_whole_of bytes.now answer.old }
{
    c_outbox::calls::pito_outbox_whole(bytes, answer)
}

// Writes a file as version 01.
#[unsafe(no_mangle)]
pub extern "C" fn pito_outbox_to_01(bytes: &[u8], output: &mut [u8], answer: &mut [u64]) -> u64
    ensures { called result [] output.new answer.new
        ≡ outbox_move_of version_one bytes.now output.old answer.old }
{
    c_outbox_move::pito_outbox_to_01(bytes, output, answer)
}

// Writes a file as version 02.
#[unsafe(no_mangle)]
pub extern "C" fn pito_outbox_to_02(bytes: &[u8], output: &mut [u8], answer: &mut [u64]) -> u64
    ensures { called result [] output.new answer.new
        ≡ outbox_move_of version_two bytes.now output.old answer.old }
{
    c_outbox_move::pito_outbox_to_02(bytes, output, answer)
}
