// Control messages for C: the envelope, the response, device information and device features, read and written.
ghost use Rattle.std.specs.Prelude.{◌≡◌, []};
ghost use Rattle.c_message_rows.specs.Convert.{payload_for};
ghost use Rattle.c_rows.specs.Called.{called};
ghost use Rattle.c_messages.specs.Calls.{envelope_read_of, envelope_write_of, response_read_of, response_write_of, information_read_of, information_write_of, features_read_of, features_write_of};

use c_message_rows::convert::{
    ENVELOPE_ANSWER, FEATURES_ANSWER, INFORMATION_ANSWER, RESPONSE_ANSWER, WROTE_ANSWER,
    all_signed, envelope_row, features_row, payload_for, put_information, response_payload,
    response_row, signed_list, tell_wrote,
};
use c_rows::row::{COUNT_ANSWER, Count, UNFIT, number_of_result, put, tell};
use msg_control::envelope::{read_envelope, write_envelope};
use msg_control::response::{read_response, write_response};
use msg_device::features::{DeviceFeatures, read_features, write_features};
use msg_device::information::{InformationToWrite, read_information, write_information};
use proto_field::signed::low_signed;
use proto_reader::gathered::MOST_TRANSPORTS;
use proto_strings::TextWriteRefusal;
use proto_writer::message::WriteRefusal;

// Reads a control envelope. The readers' calls here and in c_firmware are of one shape: each has its own row, length and definition in C.
pub fn envelope_read(message: &[u8], answer: &mut [u64]) -> u64
    ensures { called result [] [] answer.new
        ≡ envelope_read_of message.now answer.old }
{
    if answer.len() != ENVELOPE_ANSWER {
        return UNFIT;
    }
    let read = read_envelope(message);
    let number = number_of_result(&read);
    let row = envelope_row(read);
    put(answer, number, &row);
    number
}

// Writes a control envelope.
pub fn envelope_write(
    command: u64,
    payload: u64,
    error_code: u64,
    field: u64,
    bytes: &[u8],
    output: &mut [u8],
    answer: &mut [u64],
) -> u64
    ensures { called result [] output.new answer.new
        ≡ envelope_write_of command (payload_for command payload error_code field) bytes.now
        output.old answer.old }
{
    if answer.len() != COUNT_ANSWER {
        return UNFIT;
    }
    let wanted = payload_for(command, payload, error_code, field);
    let wrote = write_envelope(output, low_signed(command), wanted, bytes);
    tell(answer, Count::told(wrote))
}

// Reads a response.
pub fn response_read(message: &[u8], answer: &mut [u64]) -> u64
    ensures { called result [] [] answer.new
        ≡ response_read_of message.now answer.old }
{
    if answer.len() != RESPONSE_ANSWER {
        return UNFIT;
    }
    let read = read_response(message);
    let number = number_of_result(&read);
    let row = response_row(read);
    put(answer, number, &row);
    number
}

// Writes a response.
pub fn response_write(
    error_code: u64,
    field: u64,
    bytes: &[u8],
    output: &mut [u8],
    answer: &mut [u64],
) -> u64
    ensures { called result [] output.new answer.new
        ≡ response_write_of error_code field bytes.now output.old answer.old }
{
    if answer.len() != COUNT_ANSWER {
        return UNFIT;
    }
    let wanted = response_payload(error_code, field);
    let wrote = write_response(output, low_signed(error_code), wanted, bytes);
    tell(answer, Count::told(wrote))
}

// Reads device features.
pub fn features_read(message: &[u8], answer: &mut [u64]) -> u64
    ensures { called result [] [] answer.new
        ≡ features_read_of message.now answer.old }
{
    if answer.len() != FEATURES_ANSWER {
        return UNFIT;
    }
    let read = read_features(message);
    let number = number_of_result(&read);
    let row = features_row(read);
    put(answer, number, &row);
    number
}

// Writes device features.
pub fn features_write(
    features: u64,
    device_attributes: u64,
    output: &mut [u8],
    answer: &mut [u64],
) -> u64
    ensures { called result [] output.new answer.new
        ≡ features_write_of features device_attributes output.old answer.old }
{
    if answer.len() != COUNT_ANSWER {
        return UNFIT;
    }
    let wanted = DeviceFeatures {
        features,
        device_attributes,
    };
    let wrote = write_features(output, wanted);
    tell(answer, Count::told(wrote))
}

// Reads device information.
pub fn information_read(message: &[u8], answer: &mut [u64]) -> u64
    ensures { called result [] [] answer.new
        ≡ information_read_of message.now answer.old }
{
    if answer.len() != INFORMATION_ANSWER {
        return UNFIT;
    }
    let read = read_information(message);
    let number = number_of_result(&read);
    put_information(answer, number, read);
    number
}

// Writes device information.
pub fn information_write(
    serial_number: &[u8],
    name: &[u8],
    device_type: &[u8],
    transports: &[u64],
    output: &mut [u8],
    answer: &mut [u64],
) -> u64
    ensures { called result [] output.new answer.new
        ≡ information_write_of serial_number.now name.now device_type.now
        transports.now output.old answer.old }
{
    if answer.len() != WROTE_ANSWER {
        return UNFIT;
    }
    if MOST_TRANSPORTS < transports.len() {
        return tell_wrote(
            answer,
            Err(TextWriteRefusal::Refused(WriteRefusal::BadArgument)),
        );
    }
    if !all_signed(transports) {
        return tell_wrote(
            answer,
            Err(TextWriteRefusal::Refused(WriteRefusal::BadArgument)),
        );
    }
    let list = signed_list(transports);
    let wanted = InformationToWrite {
        serial_number,
        name,
        transports: &list[..transports.len()],
        device_type,
    };
    let wrote = write_information(output, wanted);
    tell_wrote(answer, wrote)
}
