// Texts for C: where one is not well formed, and where a character is not shown.
ghost use Rattle.std.specs.Prelude.{◌≡◌, cond, [], eqb};
ghost use Rattle.c_rows.specs.Called.{called};
ghost use Rattle.c_text.specs.Calls.{text_of};

use c_rows::row::{DONE, UNFIT, put};
use utf8::check::bad_place;
use utf8_shown::hidden_place;

// The numbers of the answer row: two places.
const TEXT_ANSWER: usize = 2;

// The refusal of a sequence that is not well formed.
const BAD_STRING: u64 = 36;

fn number_by(place: usize, len: usize) -> u64
    ensures { result ≡ cond (eqb place len) 0 36 }
{
    if place == len { DONE } else { BAD_STRING }
}

// Tells the place of the first sequence that is not well formed, and of the first character that is not shown as text.
pub fn pito_text(text: &[u8], answer: &mut [u64]) -> u64
    ensures { called result [] [] answer.new ≡ text_of text.now answer.old }
{
    if answer.len() != TEXT_ANSWER {
        return UNFIT;
    }
    let bad = bad_place(text);
    let hidden = hidden_place(text);
    let number = number_by(bad, text.len());
    let row = [bad as u64, hidden as u64];
    put(answer, number, &row);
    number
}
