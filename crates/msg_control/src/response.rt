// The response: an error code and an optional payload.
ghost use Rattle.std.specs.Prelude.{◌≡◌, ◌+◌, ◌≤◌, length, false};
ghost use Rattle.wire.specs.Told.{written};
ghost use Rattle.wire.specs.Put.{Put};
ghost use Rattle.proto_field.specs.Value.{TellsWithin};
ghost use Rattle.proto_writer.specs.Writer.{message_bytes};
ghost use Rattle.msg_control.specs.Response.{response_from, told_response, response_parts, bad_response_payload, response_payload_fields, response_fields, response_written};
ghost use Rattle.proto_writer.specs.Message.{told_wrote};

use proto_field::signed::{low_signed, sign_extended};
use proto_field::value::Part;
use proto_reader::reader::read_fields;
use proto_reader::refusal::MessageRefusal;
use proto_schema::{ERROR_CODE, FIRST, Schema};
use proto_writer::fields::{part_len, put_part, put_scalar, scalar_len};
use proto_writer::message::{WriteRefusal, bad_member};

// A response: its error code, and the field and the part of its payload; without one 0 and the empty part, as `response_row` tells them.
#[derive(Clone, Copy)]
pub struct Response {
    pub error_code: i32,
    pub field: u64,
    pub part: Part,
}

// The response from a place to the end.
#[tactic(auto, unfolding(crate::specs::Response::response_from))]
pub(crate) fn response_from(message: &[u8], at: usize) -> Result<Response, MessageRefusal>
    ensures result_value { told_response result ≡ response_from message.now at }
    ensures tells_within { TellsWithin message.now response_parts (told_response result) }
{
    let gathered = read_fields(Schema::Response, message, at)?;
    Ok(Response {
        error_code: low_signed(gathered.scalars[FIRST]),
        field: gathered.field,
        part: gathered.part,
    })
}

// A response by itself.
pub fn read_response(message: &[u8]) -> Result<Response, MessageRefusal>
    ensures result_value { told_response result ≡ response_from message.now 0 }
    ensures tells_within { TellsWithin message.now response_parts (told_response result) }
{
    response_from(message, 0)
}

// Whether no response is written with this payload: none, or the lent bytes as a member of this number.
pub(crate) fn bad_response_payload(payload: Option<u64>) -> bool
    ensures { result ≡ bad_response_payload payload }
{
    payload.is_some_and(bad_member)
}

// The number of bytes of a response's payload.
fn response_payload_len(payload: Option<u64>, body: &[u8]) -> usize
    requires { bad_response_payload payload ≡ false }
    ensures { (result ≡ length (message_bytes (response_payload_fields payload body.now)))
        × (result ≤ 20 + length body.now) }
{
    match payload {
        None => 0,
        Some(field) => part_len(field, body),
    }
}

// A response's payload, written at a place; the answer is the place after it. put_member of reply_parts writes its head alone.
fn put_response_payload(out: &mut [u8], at: usize, payload: Option<u64>, body: &[u8]) -> usize
    requires { (bad_response_payload payload ≡ false)
        × (at + length (message_bytes (response_payload_fields payload body.now)) ≤ length out.old) }
    ensures { Put out.old at (message_bytes (response_payload_fields payload body.now)) result
        out.new }
{
    match payload {
        None => at,
        Some(field) => put_part(out, at, field, body),
    }
}

// The number of bytes of a response; code is the varint's value of its error code.
pub(crate) fn response_len(code: u64, payload: Option<u64>, body: &[u8]) -> usize
    requires { bad_response_payload payload ≡ false }
    ensures { (result ≡ length (message_bytes (response_fields code payload body.now)))
        × (result ≤ 40 + length body.now) }
{
    scalar_len(ERROR_CODE, code) + response_payload_len(payload, body)
}

// A response, written at a place; the answer is the place after it.
pub(crate) fn put_response(
    out: &mut [u8],
    at: usize,
    code: u64,
    payload: Option<u64>,
    body: &[u8],
) -> usize
    requires { (bad_response_payload payload ≡ false)
        × (at + length (message_bytes (response_fields code payload body.now)) ≤ length out.old) }
    ensures { Put out.old at (message_bytes (response_fields code payload body.now)) result
        out.new }
{
    let next = put_scalar(out, at, ERROR_CODE, code);
    put_response_payload(out, next, payload, body)
}

// Writes a response.
pub fn write_response(
    out: &mut [u8],
    error_code: i32,
    payload: Option<u64>,
    body: &[u8],
) -> Result<usize, WriteRefusal>
    ensures { written (told_wrote result) out.new
        ≡ response_written error_code payload body.now out.old }
{
    if bad_response_payload(payload) {
        return Err(WriteRefusal::BadArgument);
    }
    let code = sign_extended(error_code);
    let len = response_len(code, payload, body);
    if out.len() < len {
        return Err(WriteRefusal::NoRoom);
    }
    Ok(put_response(out, 0, code, payload, body))
}
