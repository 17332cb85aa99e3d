// Control messages: what was read as rows, and what the writers are given by numbers.
ghost use Rattle.std.specs.Prelude.{◌≡◌, map, ◌≤◌, length, take};
ghost use Rattle.proto_field.specs.Signed.{signed_of};
ghost use Rattle.proto_reader.specs.Refusal.{why_of, number_more, told_more};
ghost use Rattle.msg_control.specs.Envelope.{told_envelope};
ghost use Rattle.msg_control.specs.Response.{told_response};
ghost use Rattle.msg_device.specs.Features.{told_features};
ghost use Rattle.msg_device.specs.Information.{told_information};
ghost use Rattle.wire.specs.Told.{told_by};
ghost use Rattle.c_rows.specs.Row.{afterwards};
ghost use Rattle.c_message_rows.specs.Convert.{is_signed, all_signed, payload_row, envelope_row, response_payload_of, payload_for, response_row, parts_row, transports_row, fault_of, fault_row, information_row, wrote_row, features_row};

use c_rows::row::{DONE, UNFIT, fill, put};
use msg_control::envelope::{Envelope, EnvelopePayload, Payload};
use msg_control::response::Response;
use msg_device::features::DeviceFeatures;
use msg_device::information::DeviceInformation;
use proto_field::signed::{low_signed, sign_extended};
use proto_reader::gathered::MOST_TRANSPORTS;
use proto_reader::refusal::MessageRefusal;
use proto_schema::NO_FIELD;
use proto_strings::Faulted;
use wire::bytes::wide64;
use wire::refusal::Numbered;

// The numbers of the answer rows.
pub const ENVELOPE_ANSWER: usize = 6;

pub const RESPONSE_ANSWER: usize = 4;

pub const INFORMATION_ANSWER: usize = 17;

pub const FEATURES_ANSWER: usize = 2;

// .. and of a writer of strings.
pub const WROTE_ANSWER: usize = 3;

// The places of the transports, and of the field and the place that go with a refusal.
const FIRST_TRANSPORT: usize = 7;

const FAULT: usize = 15;

// The payloads of an envelope.
const NONE: u64 = 0;

const RESPONSE: u64 = 1;

const MEMBER: u64 = 2;

// Whether a number is a signed one of 32 bits, extended to 64.
fn is_signed(n: u64) -> bool
    ensures { result ≡ is_signed n }
{
    sign_extended(low_signed(n)) == n
}

// ---- writers of strings

// Tells what such a writer wrote in an answer row, and returns its number.
pub fn tell_wrote<E: Faulted>(answer: &mut [u64], wrote: Result<usize, E>) -> u64
    requires { length answer.old ≡ 3 }
    ensures { (result ≡ number_more (told_by (λ why. (E.number_of why, E.goes_with why)) wrote))
        × (answer.new
        ≡ afterwards (number_more (told_by (λ why. (E.number_of why, E.goes_with why)) wrote)) answer.old
        (wrote_row (told_by (λ why. (E.number_of why, E.goes_with why)) wrote))) }
{
    match wrote {
        Ok(size) => {
            let row = [size as u64, 0, 0];
            put(answer, DONE, &row);
            DONE
        }
        Err(why) => {
            let number = wide64(why.number());
            let fault = why.fault();
            let row = [0, fault[0], fault[1]];
            put(answer, number, &row);
            number
        }
    }
}

// ---- the envelope

// What the row tells of a payload, after the command.
fn payload_row(command: u64, payload: Payload) -> [u64; 6]
    ensures { result ≡ payload_row command payload }
{
    match payload {
        Payload::None => [command, NONE, 0, 0, 0, 0],
        Payload::Response(response) => {
            let part = response.part;
            [
                command,
                RESPONSE,
                sign_extended(response.error_code),
                response.field,
                part.start as u64,
                part.len as u64,
            ]
        }
        Payload::Member { field, part } => [
            command,
            MEMBER,
            0,
            field,
            part.start as u64,
            part.len as u64,
        ],
    }
}

pub fn envelope_row(read: Result<Envelope, MessageRefusal>) -> [u64; 6]
    ensures { result ≡ envelope_row (told_envelope read) }
{
    match read {
        Ok(envelope) => payload_row(sign_extended(envelope.command), envelope.payload),
        Err(_) => [0u64; 6],
    }
}

// The payload of a response: none where the field is 0, and out of range where its error code is no signed number.
pub fn response_payload(error_code: u64, field: u64) -> Option<u64>
    ensures { result ≡ response_payload_of error_code field }
{
    if !is_signed(error_code) {
        return Some(NO_FIELD);
    }
    if field == NO_FIELD {
        return None;
    }
    Some(field)
}

// The payload of an envelope: one that is none of the three, or beside a command that is no signed number, is out of range.
pub fn payload_for(command: u64, payload: u64, error_code: u64, field: u64) -> EnvelopePayload
    ensures { result ≡ payload_for command payload error_code field }
{
    if !is_signed(command) {
        return EnvelopePayload::Member(NO_FIELD);
    }
    if payload == NONE {
        return EnvelopePayload::None;
    }
    if payload == RESPONSE {
        let within = response_payload(error_code, field);
        return EnvelopePayload::Response {
            error_code: low_signed(error_code),
            payload: within,
        };
    }
    if payload == MEMBER {
        return EnvelopePayload::Member(field);
    }
    EnvelopePayload::Member(NO_FIELD)
}

// ---- the response

pub fn response_row(read: Result<Response, MessageRefusal>) -> [u64; 4]
    ensures { result ≡ response_row (told_response read) }
{
    match read {
        Ok(response) => [
            sign_extended(response.error_code),
            response.field,
            response.part.start as u64,
            response.part.len as u64,
        ],
        Err(_) => [0u64; 4],
    }
}

// ---- device features

pub fn features_row(read: Result<DeviceFeatures, MessageRefusal>) -> [u64; 2]
    ensures { result ≡ features_row (told_features read) }
{
    match read {
        Ok(features) => [features.features, features.device_attributes],
        Err(_) => [0u64; 2],
    }
}

// ---- device information

// The field and the place that go with a refusal.
pub fn fault_of(why: MessageRefusal) -> [u64; 2]
    ensures { result ≡ fault_of (why_of why) }
{
    match why {
        MessageRefusal::Field(_) => [0u64; 2],
        MessageRefusal::BadText { field, place } => [field, place as u64],
    }
}

// .. with a refusal of a result; 0 where nothing is refused.
pub fn fault_in<T>(read: &Result<T, MessageRefusal>) -> [u64; 2]
    ensures { result ≡ fault_row (told_more read.now) }
{
    match read {
        Ok(_) => [0u64; 2],
        Err(why) => fault_of(*why),
    }
}

// The three strings, and how many transports there are.
fn parts_row(information: DeviceInformation) -> [u64; 7]
    ensures { result ≡ parts_row information }
{
    let serial_number = information.serial_number;
    let name = information.name;
    let device_type = information.device_type;
    [
        serial_number.start as u64,
        serial_number.len as u64,
        name.start as u64,
        name.len as u64,
        device_type.start as u64,
        device_type.len as u64,
        information.count as u64,
    ]
}

// The transports; 0 where there are fewer.
fn transports_row(list: &[i32]) -> [u64; 8]
    requires { length list.now ≡ 8 }
    ensures { result ≡ transports_row list.now }
{
    let mut row = [0u64; 8];
    for i in 0..MOST_TRANSPORTS {
        row[i] = sign_extended(list[i]);
    }
    row
}

// Writes the whole row, part by part, unless the call is refused by 1.
pub fn put_information(
    row: &mut [u64],
    number: u64,
    read: Result<DeviceInformation, MessageRefusal>,
)
    requires { length row.old ≡ 17 }
    ensures { row.new
        ≡ afterwards number row.old (information_row (told_information read)) }
{
    if number != UNFIT {
        let fault = fault_in(&read);
        let information = read.unwrap_or(DeviceInformation::none());
        let parts = parts_row(information);
        fill(row, 0, &parts);
        let transports = transports_row(&information.transports);
        fill(row, FIRST_TRANSPORT, &transports);
        fill(row, FAULT, &fault);
    }
}

// Whether all numbers of a row are signed ones of 32 bits, extended to 64.
pub fn all_signed(row: &[u64]) -> bool
    ensures { result ≡ all_signed row.now }
{
    for n in row {
        if !is_signed(*n) {
            return false;
        }
    }
    true
}

// The signed numbers of a row of at most eight.
pub fn signed_list(row: &[u64]) -> [i32; 8]
    requires { length row.now ≤ 8 }
    ensures { take (length row.now) result ≡ map signed_of row.now }
{
    let mut list = [0i32; 8];
    for i in 0..row.len() {
        list[i] = low_signed(row[i]);
    }
    list
}
