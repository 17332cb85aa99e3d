// Classic for C: the extractor, and the frame writer, whole and by parts.
ghost use Rattle.std.specs.Prelude.{◌≡◌, []};
ghost use Rattle.c_classic.specs.Calls.{extractor_open_of, extractor_step_of, extractor_feed_of, frame_write_of, next_sequence_of};
ghost use Rattle.c_classic_parts.specs.Calls.{frame_begin_of, frame_part_of};
ghost use Rattle.c_rows.specs.Called.{called};

// Opens an extractor for a link with a limit: its empty state.
#[unsafe(no_mangle)]
pub extern "C" fn pito_extractor_open(limit: u64, state: &mut [u64]) -> u64
    ensures { called result state.new [] [] ≡ extractor_open_of limit state.old }
{
    c_classic::calls::pito_extractor_open(limit, state)
}

// One byte given to the extractor.
#[unsafe(no_mangle)]
pub extern "C" fn pito_extractor_step(
    state: &mut [u64],
    buffer: &mut [u8],
    byte: u8,
    answer: &mut [u64],
) -> u64
    ensures { called result state.new buffer.new answer.new
        ≡ extractor_step_of state.old buffer.old byte answer.old }
{
    c_classic::calls::pito_extractor_step(state, buffer, byte, answer)
}

// Many bytes given to the extractor. The answer row tells 0 used under 1, where it has its length.
#[unsafe(no_mangle)]
pub extern "C" fn pito_extractor_feed(
    state: &mut [u64],
    buffer: &mut [u8],
    bytes: &[u8],
    answer: &mut [u64],
) -> u64
    ensures { called result state.new buffer.new answer.new
        ≡ extractor_feed_of state.old buffer.old bytes.now answer.old }
{
    c_classic::calls::pito_extractor_feed(state, buffer, bytes, answer)
}

// Writes the frame of a payload, for a link with a limit.
#[unsafe(no_mangle)]
pub extern "C" fn pito_frame_write(
    sequence: u64,
    limit: u64,
    payload: &[u8],
    output: &mut [u8],
    answer: &mut [u64],
) -> u64
    ensures { called result [] output.new answer.new
        ≡ frame_write_of limit sequence payload.now output.old answer.old }
{
    c_classic::calls::pito_frame_write(sequence, limit, payload, output, answer)
}

// Begins a frame whose payload will have `total` bytes, for a link with a limit.
#[unsafe(no_mangle)]
pub extern "C" fn pito_frame_begin(sequence: u64, limit: u64, total: u64, state: &mut [u64]) -> u64
    ensures { called result state.new [] [] ≡ frame_begin_of limit sequence total state.old }
{
    c_classic_parts::calls::pito_frame_begin(sequence, limit, total, state)
}

// Takes payload and writes the frame on into an output.
#[unsafe(no_mangle)]
pub extern "C" fn pito_frame_part(
    state: &mut [u64],
    payload: &[u8],
    output: &mut [u8],
    answer: &mut [u64],
) -> u64
    ensures { called result state.new output.new answer.new
        ≡ frame_part_of state.old payload.now output.old answer.old }
{
    c_classic_parts::calls::pito_frame_part(state, payload, output, answer)
}

// The sequence byte after a sequence byte.
#[unsafe(no_mangle)]
pub extern "C" fn pito_next_sequence(sequence: u8, answer: &mut [u64]) -> u64
    ensures { called result [] [] answer.new ≡ next_sequence_of sequence answer.old }
{
    c_classic::calls::pito_next_sequence(sequence, answer)
}
