// What stands at a place of any message, as a row.
ghost use Rattle.std.specs.Prelude.{◌≡◌};
ghost use Rattle.proto_field.specs.Fields.{told_found};
ghost use Rattle.c_firmware_rows.specs.FieldRow.{fixed_kind, field_row, field_told};

use c_rows::row::number_of_result;
use proto_field::Refusal;
use proto_field::fields::FoundField;
use proto_field::tag::{FIXED32, FIXED64, LENGTH, VARINT};
use proto_field::value::Value;

// The numbers of the answer row.
pub const FIELD_ANSWER: usize = 7;

// The outcome that is a field.
const FIELD: u64 = 1;

// The bytes of a field of the kind FIXED64.
const EIGHT: usize = 8;

// The number that a reading returns, and its row: C is told both, as `field_told` says.
#[derive(Drop)]
pub struct FieldTold {
    pub number: u64,
    pub row: [u64; 7],
}

// The kind of a field whose bytes, of this number, are passed over.
fn fixed_kind(len: usize) -> u64
    ensures { result ≡ fixed_kind len }
{
    if len == EIGHT { FIXED64 } else { FIXED32 }
}

fn field_row(number: u64, value: Value, next: usize) -> [u64; 7]
    ensures { result ≡ field_row number value next }
{
    let after = next as u64;
    match value {
        Value::Number(n) => [FIELD, number, VARINT, n, 0, 0, after],
        Value::Bytes(part) => [
            FIELD,
            number,
            LENGTH,
            0,
            part.start as u64,
            part.len as u64,
            after,
        ],
        Value::Skipped(part) => {
            let kind = fixed_kind(part.len);
            [
                FIELD,
                number,
                kind,
                0,
                part.start as u64,
                part.len as u64,
                after,
            ]
        }
    }
}

// What was found at a place; the row is all 0 at the end of the message.
pub fn found_row(found: Result<Option<FoundField>, Refusal>) -> FieldTold
    ensures { result ≡ field_told (told_found found) }
{
    let number = number_of_result(&found);
    let row = match found {
        Ok(Some(field)) => field_row(field.number, field.value, field.next),
        Ok(None) | Err(_) => [0u64; 7],
    };
    FieldTold { number, row }
}
