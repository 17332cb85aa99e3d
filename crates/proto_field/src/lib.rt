// Fields of Protocol Buffers messages: varints, 32-bit numbers, tags and values, read.
#![tactic(auto)]

pub mod fields;
pub mod signed;
pub mod tag;
pub mod unsigned;
pub mod value;
pub mod varint;

ghost use Rattle.proto_field.specs.Refusal.{number_of};

use wire::refusal::Numbered;

// Why a message is refused.
#[derive(Clone, Copy, Debug, PartialEq, Eq)]
pub enum Refusal {
    // The message ends inside a field.
    Cut,
    // A varint whose tenth byte is too large.
    TooLong,
    // A field number or a wire type that does not exist.
    BadTag,
    // A known field with another wire type.
    WrongType,
    // A second member, or more entries than there may be.
    TooMany,
}

impl Numbered for Refusal {
    ghost number_of = { number_of };

    fn number(&self) -> u8 {
        match self {
            Refusal::Cut => 30,
            Refusal::TooLong => 31,
            Refusal::BadTag => 32,
            Refusal::WrongType => 33,
            Refusal::TooMany => 34,
        }
    }
}
