// Strings that are written: each is judged first, and why a message with strings is not written.
#![tactic(auto)]

ghost use Rattle.std.specs.Prelude.{◌≡◌, ℕ, List, [], ◌∷◌, get_or, Ok};
ghost use Rattle.proto_strings.specs.Texts.{or_text, why_of};
ghost use Rattle.proto_strings.specs.declared.TextWriteRefusal.TheVariants.{BadText, Refused};

use proto_writer::message::WriteRefusal;
use utf8::check::bad_place;
use wire::refusal::Numbered;

// The refusal of a string that is not well formed.
pub const BAD_TEXT: u8 = 36;

// The field of a string that is not well formed, and the place in it where the first bad sequence begins.
#[derive(Clone, Copy, Debug, PartialEq, Eq)]
pub struct TextFault {
    pub field: u64,
    pub place: usize,
}

// A refusal that tells a field and a place beside its number; 0 where it has none.
pub trait Faulted: Numbered {
    ghost goes_with: { Self → List ℕ };

    fn fault(&self) -> [u64; 2]
        ensures { result ≡ get_or (goes_with self.now) 0 0 ∷ get_or (goes_with self.now) 1 0 ∷ [] };
}

// Whether a string is well formed.
pub fn check_text(field: u64, string: &[u8]) -> Result<(), TextFault>
    ensures { result ≡ or_text field string.now (Ok tt) }
{
    let place = bad_place(string);
    if place == string.len() {
        return Ok(());
    }
    Err(TextFault { field, place })
}

// Why no message with strings is written.
#[derive(Clone, Copy, Debug, PartialEq, Eq)]
pub enum TextWriteRefusal {
    Refused(WriteRefusal),
    // A string is not well formed.
    BadText(TextFault),
}

impl Numbered for TextWriteRefusal {
    ghost number_of = { λ why. (why_of why).0 };

    fn number(&self) -> u8 {
        match self {
            TextWriteRefusal::Refused(why) => why.number(),
            TextWriteRefusal::BadText(_) => BAD_TEXT,
        }
    }
}

impl Faulted for TextWriteRefusal {
    ghost goes_with = { λ why. (why_of why).1 };

    fn fault(&self) -> [u64; 2] {
        match self {
            TextWriteRefusal::Refused(_) => [0u64; 2],
            TextWriteRefusal::BadText(fault) => [fault.field, fault.place as u64],
        }
    }
}

impl From<WriteRefusal> for TextWriteRefusal {
    ghost from_gives = { λ why r. r ≡ Refused why };

    fn from(why: WriteRefusal) -> TextWriteRefusal {
        TextWriteRefusal::Refused(why)
    }
}

impl From<TextFault> for TextWriteRefusal {
    ghost from_gives = { λ fault r. r ≡ BadText fault };

    fn from(fault: TextFault) -> TextWriteRefusal {
        TextWriteRefusal::BadText(fault)
    }
}
