// A reader that walks the fields of a message: the lent message and the place in it, in one record.
ghost use Rattle.std.specs.Prelude.{◌≡◌};
ghost use Rattle.proto_field.specs.Value.{TellsWithin};
ghost use Rattle.proto_field.specs.Fields.{found_at, told_found, behind, standing_parts};

use crate::Refusal;
use crate::tag::read_tag;
use crate::value::{Value, read_value};

#[derive(Drop)]
pub struct Fields<'a> {
    pub message: &'a [u8],
    pub at: usize,
}

// A field's number and its value, and the place after it.
#[derive(Clone, Copy)]
pub struct FoundField {
    pub number: u64,
    pub value: Value,
    pub next: usize,
}

// What stands at the reader's place: a field, or none at the end of the message; and the reader behind it.
#[derive(Drop)]
pub struct NextField<'a> {
    pub found: Result<Option<FoundField>, Refusal>,
    pub rest: Fields<'a>,
}

// The field at a place of a message, or none at its end.
fn field_at(message: &[u8], at: usize) -> Result<Option<FoundField>, Refusal>
    ensures { (told_found result ≡ found_at message.now at)
        × TellsWithin message.now standing_parts (told_found result) }
{
    if message.len() <= at {
        return Ok(None);
    }
    let head = read_tag(message, at)?;
    let read = read_value(message, head.next, head.wire)?;
    Ok(Some(FoundField {
        number: head.field,
        value: read.value,
        next: read.next,
    }))
}

// The place behind what was found at a place: a field's end, or the same place where there is none.
fn place_behind(found: Result<Option<FoundField>, Refusal>, at: usize) -> usize
    ensures { result ≡ behind at (told_found found) }
{
    match found {
        Ok(Some(field)) => field.next,
        Ok(None) => at,
        Err(_) => at,
    }
}

// At a place of a message.
pub fn new<'a>(message: &'a [u8], at: usize) -> Fields<'a>
    ensures { (result.message ≡ message.entry) × (result.at ≡ at) }
{
    Fields { message, at }
}

// The field at the reader's place, and the reader with its place behind it.
pub fn next<'a>(r: Fields<'a>) -> NextField<'a>
    ensures { ((told_found result.found ≡ found_at r.entry.message.now r.entry.at)
        × TellsWithin r.entry.message.now standing_parts (told_found result.found))
        × (result.rest.message ≡ r.entry.message)
        × (result.rest.at ≡ behind r.entry.at (told_found result.found)) }
{
    let message = r.message;
    let at = r.at;
    let found = field_at(message, at);
    let behind = place_behind(found, at);
    NextField {
        found,
        rest: Fields {
            message,
            at: behind,
        },
    }
}

// The field at a place, by the record. Its parameters are a plain slice and a place, so its callers need no walk by hand.
pub fn found_at(message: &[u8], at: usize) -> Result<Option<FoundField>, Refusal>
    ensures { (told_found result ≡ found_at message.now at)
        × TellsWithin message.now standing_parts (told_found result) }
{
    let step = next(new(message, at));
    step.found
}
