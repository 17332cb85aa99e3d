// The control envelope: a command and its payload.
ghost use Rattle.std.specs.Prelude.{◌≡◌, ◌+◌, ◌≤◌, length, false};
ghost use Rattle.wire.specs.Told.{written};
ghost use Rattle.wire.specs.Put.{Put};
ghost use Rattle.proto_field.specs.Value.{TellsWithin};
ghost use Rattle.proto_writer.specs.Writer.{message_bytes};
ghost use Rattle.msg_control.specs.Envelope.{payload_of, told_payload, envelope_of, told_envelope, payload_parts, envelope_parts, bad_payload, payload_fields, envelope_written};
ghost use Rattle.proto_writer.specs.Message.{told_wrote};

use crate::response::{Response, bad_response_payload, put_response, response_from, response_len};
use proto_field::signed::{low_signed, sign_extended};
use proto_field::value::Part;
use proto_reader::gathered::Gathered;
use proto_reader::reader::read_fields;
use proto_reader::refusal::MessageRefusal;
use proto_schema::{COMMAND, FIRST, NO_FIELD, RESPONSE, Schema};
use proto_writer::fields::{head_len, part_len, put_head, put_part, put_scalar, scalar_len};
use proto_writer::message::{WriteRefusal, bad_member};

#[derive(Clone, Copy)]
pub enum Payload {
    None,
    Response(Response),
    Member { field: u64, part: Part },
}

#[derive(Clone, Copy)]
pub struct Envelope {
    pub command: i32,
    pub payload: Payload,
}

// The payload of an envelope that is written. The lent bytes are those of the member, also of the response's, which is known by its number.
// Three cases that C numbers 0, 1 and 2 (payload_for): no Option.
#[derive(Clone, Copy)]
pub enum EnvelopePayload {
    None,
    Response {
        error_code: i32,
        payload: Option<u64>,
    },
    Member(u64),
}

// The payload by the member that was gathered.
#[tactic(auto, unfolding(crate::specs::Envelope::payload_of))]
fn read_payload(message: &[u8], gathered: Gathered) -> Result<Payload, MessageRefusal>
    requires { gathered.part.start + gathered.part.len ≤ length message.now }
    ensures result_value { told_payload result ≡ payload_of message.now gathered }
    ensures tells_within { TellsWithin message.now payload_parts (told_payload result) }
{
    let field = gathered.field;
    let part = gathered.part;
    if field == NO_FIELD {
        return Ok(Payload::None);
    }
    if field == RESPONSE {
        let response = response_from(part.up_to_end(message), part.start)?;
        return Ok(Payload::Response(response));
    }
    Ok(Payload::Member { field, part })
}

// A control envelope.
#[tactic(auto, unfolding(crate::specs::Envelope::envelope_of))]
pub fn read_envelope(message: &[u8]) -> Result<Envelope, MessageRefusal>
    ensures result_value { told_envelope result ≡ envelope_of message.now }
    ensures tells_within { TellsWithin message.now envelope_parts (told_envelope result) }
{
    let gathered = read_fields(Schema::Envelope, message, 0)?;
    let payload = read_payload(message, gathered)?;
    Ok(Envelope {
        command: low_signed(gathered.scalars[FIRST]),
        payload,
    })
}

// Whether no envelope is written with this payload.
fn bad_payload(payload: EnvelopePayload) -> bool
    ensures { result ≡ bad_payload payload }
{
    match payload {
        EnvelopePayload::None => false,
        EnvelopePayload::Response {
            error_code: _,
            payload,
        } => bad_response_payload(payload),
        EnvelopePayload::Member(field) => wire::logic::either(bad_member(field), field == RESPONSE),
    }
}

// The number of bytes of an envelope's payload.
fn payload_len(payload: EnvelopePayload, body: &[u8]) -> usize
    requires { bad_payload payload ≡ false }
    ensures { (result ≡ length (message_bytes (payload_fields payload body.now)))
        × (result ≤ 60 + length body.now) }
{
    match payload {
        EnvelopePayload::None => 0,
        EnvelopePayload::Response {
            error_code,
            payload,
        } => {
            let len = response_len(sign_extended(error_code), payload, body);
            head_len(RESPONSE, len) + len
        }
        EnvelopePayload::Member(field) => part_len(field, body),
    }
}

// An envelope's payload, written at a place; the answer is the place after it.
fn put_payload(out: &mut [u8], at: usize, payload: EnvelopePayload, body: &[u8]) -> usize
    requires { (bad_payload payload ≡ false)
        × (at + length (message_bytes (payload_fields payload body.now)) ≤ length out.old) }
    ensures { Put out.old at (message_bytes (payload_fields payload body.now)) result
        out.new }
{
    match payload {
        EnvelopePayload::None => at,
        EnvelopePayload::Response {
            error_code,
            payload,
        } => {
            let code = sign_extended(error_code);
            let len = response_len(code, payload, body);
            let start = put_head(out, at, RESPONSE, len);
            put_response(out, start, code, payload, body)
        }
        EnvelopePayload::Member(field) => put_part(out, at, field, body),
    }
}

// Writes a control envelope.
pub fn write_envelope(
    out: &mut [u8],
    command: i32,
    payload: EnvelopePayload,
    body: &[u8],
) -> Result<usize, WriteRefusal>
    ensures { written (told_wrote result) out.new
        ≡ envelope_written command payload body.now out.old }
{
    if bad_payload(payload) {
        return Err(WriteRefusal::BadArgument);
    }
    let value = sign_extended(command);
    let len = scalar_len(COMMAND, value) + payload_len(payload, body);
    if out.len() < len {
        return Err(WriteRefusal::NoRoom);
    }
    let next = put_scalar(out, 0, COMMAND, value);
    Ok(put_payload(out, next, payload, body))
}
