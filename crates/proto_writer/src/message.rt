// Why a message is not written, and the numbers that a member may have.
ghost use Rattle.std.specs.Prelude.{◌≡◌};
ghost use Rattle.proto_writer.specs.Message.{number_of, bad_member};

use proto_field::tag::LAST_FIELD;
use wire::refusal::Numbered;

// The smallest number of a member that is written.
const FIRST_MEMBER: u64 = 2;

// Why no message is written: an argument is out of its range, or the output is smaller than the message.
#[derive(Clone, Copy, Debug, PartialEq, Eq)]
pub enum WriteRefusal {
    BadArgument,
    NoRoom,
}

impl Numbered for WriteRefusal {
    ghost number_of = { number_of };

    fn number(&self) -> u8 {
        match self {
            WriteRefusal::BadArgument => 15,
            WriteRefusal::NoRoom => 14,
        }
    }
}

// Whether a member's number is out of its range.
pub fn bad_member(field: u64) -> bool
    ensures { result ≡ bad_member field }
{
    wire::logic::either(field < FIRST_MEMBER, LAST_FIELD < field)
}
