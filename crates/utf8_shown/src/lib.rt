// Which characters of a string are not shown as text: a terminal, or a page, would follow them.
#![tactic(auto)]

ghost use Rattle.std.specs.Prelude.{◌≡◌, ◌<◌, length};
ghost use Rattle.utf8_shown.specs.Shown.{is_hidden, hidden_place, is_text, hidden_by};
ghost use Rattle.utf8_shown.specs.Claims.{HiddenBegins};

use utf8::check::bad_place;
use wire::bytes::byte_at;
use wire::logic::both;

// By the first three bytes: the control characters of ASCII, those that Unicode has besides, U+061C, and the others that break a line
// or turn it round.
#[tactic(auto, unfolding(utf8::specs::Table::within))]
fn hidden_by(a: u8, b: u8, c: u8) -> bool
    ensures { result ≡ hidden_by a b c }
{
    matches!(
        (a, b, c),
        (0x00..=0x1F | 0x7F, _, _)
            | (0xC2, 0x80..=0x9F, _)
            | (0xD8, 0x9C, _)
            | (0xE2, 0x80, 0x8E..=0x8F | 0xA8..=0xAE)
            | (0xE2, 0x81, 0xA6..=0xA9)
    )
}

fn is_hidden(rest: &[u8]) -> bool
    requires { 0 < length rest.now }
    ensures { result ≡ is_hidden rest.now }
{
    hidden_by(byte_at(rest, 0), byte_at(rest, 1), byte_at(rest, 2))
}

// The place of the first character that is not shown; the string's length if there is none, as for bad_place, and C is told both.
pub fn hidden_place(string: &[u8]) -> usize
    ensures { result ≡ hidden_place string.now }
{
    for at in 0..string.len() {
        if is_hidden(&string[at..]) {
            return at;
        }
    }
    string.len()
}

// Whether a string is text: well-formed UTF-8 in which each character is shown.
pub fn is_text(string: &[u8]) -> bool
    ensures { result ≡ is_text string.now }
{
    let len = string.len();
    both(bad_place(string) == len, hidden_place(string) == len)
}

// In a well-formed string the place is one at which a character begins.
pub fn hidden_begins()
    ensures { HiddenBegins }
{}
