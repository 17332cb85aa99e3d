// A capture of one direction of a link, walked packet after packet.
#![tactic(auto)]

ghost use Rattle.std.specs.Prelude.{◌≡◌, Ok, IsErrAnd};
ghost use Rattle.std.specs.Result.{MatchResult};
ghost use Rattle.capture_reader.specs.Capture.{front_of, other_version, checked_of, number_of, front_told, soundness_told};

use wire::bytes::{byte_at, pair};
use wire::logic::either;
use wire::refusal::Numbered;

pub const VERSION: u8 = 1;

// The bytes of a packet's length.
pub const WIDTH: usize = 2;

#[derive(Clone, Copy, Debug, PartialEq, Eq)]
pub enum Refusal {
    Version,
    Length,
    Cut,
}

impl Numbered for Refusal {
    ghost number_of = { number_of };

    fn number(&self) -> u8 {
        match self {
            Refusal::Version => 40,
            Refusal::Length => 42,
            Refusal::Cut => 41,
        }
    }
}

// A refusal, and the place in the capture that it is about: that of a packet's length, and otherwise 0.
#[derive(Clone, Copy, Debug, PartialEq, Eq)]
pub struct RefusedAt<R> {
    pub why: R,
    pub at: usize,
}

impl<R: Numbered> Numbered for RefusedAt<R> {
    ghost number_of = { λ e. R.number_of e.why };

    fn number(&self) -> u8 {
        self.why.number()
    }
}

// What was found, a refusal with its place.
pub fn located<T, E: Drop, R: From<E>>(found: Result<T, E>, at: usize) -> Result<T, RefusedAt<R>>
    ensures { MatchResult found (λ x. result ≡ Ok x) (λ e. IsErrAnd result (λ r. (R.from_gives e r.why) × (r.at ≡ at))) }
{
    match found {
        Ok(x) => Ok(x),
        Err(why) => Err(RefusedAt {
            why: R::from(why),
            at,
        }),
    }
}

// Refusal 40, if it holds.
pub fn other_version(capture: &[u8]) -> bool
    ensures { result ≡ other_version capture.now }
{
    either(capture.len() == 0, byte_at(capture, 0) != VERSION)
}

// The length of the packet at the front of some bytes. It is judged once all its bytes are there; before that the packet is cut short.
pub fn front_of(rest: &[u8]) -> Result<usize, Refusal>
    ensures { front_told result ≡ front_of rest.now }
{
    if rest.len() < WIDTH {
        return Err(Refusal::Cut);
    }
    let n = pair(rest[0], rest[1]);
    if n == 0 {
        return Err(Refusal::Length);
    }
    if rest.len() - WIDTH < n {
        return Err(Refusal::Cut);
    }
    Ok(n)
}

// Whether every packet of a capture can be read: the capture's own refusals, to its end.
pub fn check(capture: &[u8]) -> Result<(), RefusedAt<Refusal>>
    ensures { soundness_told result ≡ checked_of capture.now }
{
    if other_version(capture) {
        return Err(RefusedAt {
            why: Refusal::Version,
            at: 0,
        });
    }
    let mut at = 1;
    // From place to place, by lengths that are read there: no range or iterator says it.
    while at < capture.len() {
        let n = located(front_of(&capture[at..]), at)?;
        at = at + WIDTH + n;
    }
    Ok(())
}
