// Device information.
ghost use Rattle.std.specs.Prelude.{◌≡◌, ◌≤◌, length, ltb, IfOk, Some};
ghost use Rattle.wire.specs.Told.{written};
ghost use Rattle.wire.specs.Put.{Put};
ghost use Rattle.proto_writer.specs.Writer.{message_bytes};
ghost use Rattle.proto_reader.specs.Gathered.{most_transports};
ghost use Rattle.proto_reader.specs.Refusal.{TellsStrings};
ghost use Rattle.msg_device.specs.Information.{no_information, information_of, told_information, information_parts, strings_to_write, fields_to_write, information_to_write};
ghost use Rattle.proto_writer.specs.Message.{writes_message, told_wrote, less_room};
ghost use Rattle.proto_strings.specs.Texts.{first_fault, told_text_wrote};

use proto_field::value::Part;
use proto_reader::gathered::MOST_TRANSPORTS;
use proto_reader::reader::read_fields;
use proto_reader::refusal::MessageRefusal;
use proto_schema::{DEVICE_TYPE, FIRST, NAME, SECOND, SERIAL_NUMBER, Schema, THIRD, TRANSPORTS};
use proto_strings::{TextFault, TextWriteRefusal, check_text};
use proto_writer::fields::{packed_len, put_packed, put_text, text_len};
use proto_writer::message::WriteRefusal;

// Strings are parts of the lent message. The memory is fixed: of the eight transports the first count are there, and `information_row` tells all.
#[derive(Clone, Copy)]
pub struct DeviceInformation {
    pub serial_number: Part,
    pub name: Part,
    pub transports: [i32; 8],
    pub count: usize,
    pub device_type: Part,
}

impl DeviceInformation {
    // The empty one: what rows tell of information that is refused.
    pub fn none() -> Self
        ensures { result ≡ no_information }
    {
        let none = Part { start: 0, len: 0 };
        DeviceInformation {
            serial_number: none,
            name: none,
            transports: [0i32; 8],
            count: 0,
            device_type: none,
        }
    }
}

// Device information.
#[tactic(auto, unfolding(crate::specs::Information::information_of))]
pub fn read_information(message: &[u8]) -> Result<DeviceInformation, MessageRefusal>
    ensures result_value { told_information result ≡ information_of message.now }
    ensures tells_strings { TellsStrings message.now information_parts (told_information result) }
    ensures count_le_most_transports { IfOk result (λ i. i.count ≤ most_transports) }
{
    let gathered = read_fields(Schema::Information, message, 0)?;
    Ok(DeviceInformation {
        serial_number: gathered.texts[FIRST],
        name: gathered.texts[SECOND],
        transports: gathered.transports,
        count: gathered.count,
        device_type: gathered.texts[THIRD],
    })
}

// What device information is written of; its strings and transports are lent.
#[derive(Clone, Copy)]
pub struct InformationToWrite<'a> {
    pub serial_number: &'a [u8],
    pub name: &'a [u8],
    pub transports: &'a [i32],
    pub device_type: &'a [u8],
}

// The room that device information leaves in an output of this length.
pub fn information_room(len: usize, information: InformationToWrite) -> Option<usize>
    requires { length information.transports.now ≤ most_transports }
    ensures { result
        ≡ less_room
        (length
        (message_bytes
        (fields_to_write information.entry))) (Some len) }
{
    len.checked_sub(text_len(SERIAL_NUMBER, information.serial_number))?
        .checked_sub(text_len(NAME, information.name))?
        .checked_sub(packed_len(TRANSPORTS, information.transports))?
        .checked_sub(text_len(DEVICE_TYPE, information.device_type))
}

// Device information, written from the first byte on; the answer is the place after it.
pub fn put_information(out: &mut [u8], information: InformationToWrite) -> usize
    requires { (length information.transports.now ≤ most_transports)
        × (length
        (message_bytes (fields_to_write information))
        ≤ length out.old) }
    ensures { Put out.old 0
        (message_bytes
        (fields_to_write information.entry)) result out.new }
{
    let second = put_text(out, 0, SERIAL_NUMBER, information.serial_number);
    let third = put_text(out, second, NAME, information.name);
    let fourth = put_packed(out, third, TRANSPORTS, information.transports);
    put_text(out, fourth, DEVICE_TYPE, information.device_type)
}

// Device information whatever its strings are.
fn fill_information(out: &mut [u8], information: InformationToWrite) -> Result<usize, WriteRefusal>
    ensures { written (told_wrote result) out.new
        ≡ writes_message (ltb most_transports (length information.entry.transports.now))
        (fields_to_write information.entry)
        out.old }
{
    if MOST_TRANSPORTS < information.transports.len() {
        return Err(WriteRefusal::BadArgument);
    }
    if information_room(out.len(), information).is_none() {
        return Err(WriteRefusal::NoRoom);
    }
    Ok(put_information(out, information))
}

// The first string that is not well formed.
pub fn information_fault(information: InformationToWrite) -> Result<(), TextFault>
    ensures { result
        ≡ first_fault (strings_to_write information.entry) }
{
    check_text(SERIAL_NUMBER, information.serial_number)?;
    check_text(NAME, information.name)?;
    check_text(DEVICE_TYPE, information.device_type)
}

// Writes device information.
pub fn write_information(
    out: &mut [u8],
    information: InformationToWrite,
) -> Result<usize, TextWriteRefusal>
    ensures { written (told_text_wrote result) out.new
        ≡ information_to_write information.entry out.old }
{
    if MOST_TRANSPORTS < information.transports.len() {
        return Err(TextWriteRefusal::Refused(WriteRefusal::BadArgument));
    }
    information_fault(information)?;
    Ok(fill_information(out, information)?)
}
