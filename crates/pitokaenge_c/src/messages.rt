// The messages for C: control, firmware, and any message, field by field.
ghost use Rattle.std.specs.Prelude.{◌≡◌, []};
ghost use Rattle.c_firmware.specs.Calls.{segment_read_of, segment_write_of, apply_read_of, apply_write_of, field_read_of};
ghost use Rattle.c_message_rows.specs.Convert.{payload_for};
ghost use Rattle.c_messages.specs.Calls.{envelope_read_of, envelope_write_of, response_read_of, response_write_of, information_read_of, information_write_of, features_read_of, features_write_of};
ghost use Rattle.c_rows.specs.Called.{called};

// ---- control messages

// Reads a control envelope.
#[unsafe(no_mangle)]
pub extern "C" fn pito_envelope_read(message: &[u8], answer: &mut [u64]) -> u64
    ensures { called result [] [] answer.new
        ≡ envelope_read_of message.now answer.old }
{
    c_message_exports::pito_envelope_read(message, answer)
}

// Writes a control envelope.
#[unsafe(no_mangle)]
pub extern "C" fn pito_envelope_write(
    command: u64,
    payload: u64,
    error_code: u64,
    field: u64,
    bytes: &[u8],
    output: &mut [u8],
    answer: &mut [u64],
) -> u64
    ensures { called result [] output.new answer.new
        ≡ envelope_write_of command (payload_for command payload error_code field) bytes.now
        output.old answer.old }
{
    c_message_exports::pito_envelope_write(
        command, payload, error_code, field, bytes, output, answer,
    )
}

// Reads a response.
#[unsafe(no_mangle)]
pub extern "C" fn pito_response_read(message: &[u8], answer: &mut [u64]) -> u64
    ensures { called result [] [] answer.new
        ≡ response_read_of message.now answer.old }
{
    c_message_exports::pito_response_read(message, answer)
}

// Writes a response.
#[unsafe(no_mangle)]
pub extern "C" fn pito_response_write(
    error_code: u64,
    field: u64,
    bytes: &[u8],
    output: &mut [u8],
    answer: &mut [u64],
) -> u64
    ensures { called result [] output.new answer.new
        ≡ response_write_of error_code field bytes.now output.old answer.old }
{
    c_message_exports::pito_response_write(error_code, field, bytes, output, answer)
}

// Reads device information.
#[unsafe(no_mangle)]
pub extern "C" fn pito_information_read(message: &[u8], answer: &mut [u64]) -> u64
    ensures { called result [] [] answer.new
        ≡ information_read_of message.now answer.old }
{
    c_message_exports::pito_information_read(message, answer)
}

// Writes device information.
#[unsafe(no_mangle)]
pub extern "C" fn pito_information_write(
    serial_number: &[u8],
    name: &[u8],
    device_type: &[u8],
    transports: &[u64],
    output: &mut [u8],
    answer: &mut [u64],
) -> u64
    ensures { called result [] output.new answer.new
        ≡ information_write_of serial_number.now name.now device_type.now
        transports.now output.old answer.old }
{
    c_message_exports::pito_information_write(
        serial_number,
        name,
        device_type,
        transports,
        output,
        answer,
    )
}

// Reads device features.
#[unsafe(no_mangle)]
pub extern "C" fn pito_features_read(message: &[u8], answer: &mut [u64]) -> u64
    ensures { called result [] [] answer.new
        ≡ features_read_of message.now answer.old }
{
    c_message_exports::pito_features_read(message, answer)
}

// Writes device features.
#[unsafe(no_mangle)]
pub extern "C" fn pito_features_write(
    features: u64,
    device_attributes: u64,
    output: &mut [u8],
    answer: &mut [u64],
) -> u64
    ensures { called result [] output.new answer.new
        ≡ features_write_of features device_attributes output.old answer.old }
{
    c_message_exports::pito_features_write(features, device_attributes, output, answer)
}

// ---- firmware messages

// Reads an UpdateComponentSegment.
#[unsafe(no_mangle)]
pub extern "C" fn pito_segment_read(message: &[u8], answer: &mut [u64]) -> u64
    ensures { called result [] [] answer.new
        ≡ segment_read_of message.now answer.old }
{
    c_message_exports::pito_segment_read(message, answer)
}

// Writes an UpdateComponentSegment.
#[unsafe(no_mangle)]
pub extern "C" fn pito_segment_write(
    name: &[u8],
    offset: u64,
    size: u64,
    signature: &[u8],
    output: &mut [u8],
    answer: &mut [u64],
) -> u64
    ensures { called result [] output.new answer.new
        ≡ segment_write_of name.now offset size signature.now output.old
        answer.old }
{
    c_message_exports::pito_segment_write(name, offset, size, signature, output, answer)
}

// Reads an ApplyFirmware.
#[unsafe(no_mangle)]
pub extern "C" fn pito_apply_read(message: &[u8], answer: &mut [u64]) -> u64
    ensures { called result [] [] answer.new ≡ apply_read_of message.now answer.old }
{
    c_message_exports::pito_apply_read(message, answer)
}

// Writes an ApplyFirmware.
#[unsafe(no_mangle)]
pub extern "C" fn pito_apply_write(
    row: &[u64],
    texts: &[u8],
    output: &mut [u8],
    answer: &mut [u64],
) -> u64
    ensures { called result [] output.new answer.new
        ≡ apply_write_of row.now texts.now output.old answer.old }
{
    c_message_exports::pito_apply_write(row, texts, output, answer)
}

// ---- any message, field by field

// Reads the field at a place.
#[unsafe(no_mangle)]
pub extern "C" fn pito_field_read(message: &[u8], place: u64, answer: &mut [u64]) -> u64
    ensures { called result [] [] answer.new
        ≡ field_read_of message.now place answer.old }
{
    c_message_exports::pito_field_read(message, place, answer)
}
