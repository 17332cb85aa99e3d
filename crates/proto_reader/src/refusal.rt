// Why a message is refused, and what is told beside the number.
ghost use Rattle.std.specs.Prelude.{◌≡◌};
ghost use Rattle.proto_reader.specs.declared.refusal.MessageRefusal.TheVariants.{Field};
ghost use Rattle.proto_reader.specs.Refusal.{message_number};

use proto_field::Refusal;
use wire::refusal::Numbered;

#[derive(Clone, Copy, Debug, PartialEq, Eq)]
pub enum MessageRefusal {
    // A field is not read.
    Field(Refusal),
    // A string is not well formed: its field, and the place in it where the first bad sequence begins.
    BadText { field: u64, place: usize },
}

impl From<Refusal> for MessageRefusal {
    ghost from_gives = { λ why e. e ≡ Field why };

    fn from(why: Refusal) -> Self {
        MessageRefusal::Field(why)
    }
}

impl Numbered for MessageRefusal {
    ghost number_of = { message_number };

    fn number(&self) -> u8 {
        match self {
            MessageRefusal::Field(why) => why.number(),
            MessageRefusal::BadText { .. } => 36,
        }
    }
}
