// The limit of a link: its largest message in bytes, set when the link is opened.
ghost use Rattle.std.specs.Prelude.{◌≡◌};
ghost use Rattle.wire.specs.Limit.{limit_fits, limit_number};

use crate::logic::both;
use crate::refusal::Numbered;

// The largest limit: the largest total.
pub const LARGEST_LIMIT: usize = 65535;

// Refusal 17, unless it holds.
pub fn limit_fits(limit: usize) -> bool
    ensures { result ≡ limit_fits limit }
{
    both(1 <= limit, limit <= LARGEST_LIMIT)
}

// Refusal 17: a limit out of its range.
#[derive(Clone, Copy, Debug, PartialEq, Eq)]
pub struct BadLimit;

impl Numbered for BadLimit {
    ghost number_of = { limit_number };

    fn number(&self) -> u8 {
        17
    }
}
