// The packet at a place of a capture.
#![tactic(auto)]

ghost use Rattle.std.specs.Prelude.{◌≡◌};
ghost use Rattle.capture_packet.specs.declared.Refusal.TheVariants.{Capture};
ghost use Rattle.capture_packet.specs.Place.{bad_place, packet_at, number_of, standing_told};

use capture_reader::{RefusedAt, WIDTH, front_of, located, other_version};
use wire::logic::either;
use wire::refusal::Numbered;

// Place: one that is 0 or beyond the bytes.
#[derive(Clone, Copy, Debug, PartialEq, Eq)]
pub enum Refusal {
    Place,
    Capture(capture_reader::Refusal),
}

impl From<capture_reader::Refusal> for Refusal {
    ghost from_gives = { λ why refusal. refusal ≡ Capture why };

    fn from(why: capture_reader::Refusal) -> Refusal {
        Refusal::Capture(why)
    }
}

impl Numbered for Refusal {
    ghost number_of = { number_of };

    fn number(&self) -> u8 {
        match self {
            Refusal::Place => 15,
            Refusal::Capture(why) => why.number(),
        }
    }
}

// A packet at a place: where it starts, how long it is, the place of the next one's length.
#[derive(Clone, Copy, Debug, PartialEq, Eq)]
pub struct FoundPacket {
    pub start: usize,
    pub size: usize,
    pub next: usize,
}

fn bad_place(capture: &[u8], place: usize) -> bool
    ensures { result ≡ bad_place capture.now place }
{
    either(place == 0, capture.len() < place)
}

// Reads the packet at a place of a capture: 1, or a place told before. At the capture's end there is none.
pub fn read_at(capture: &[u8], place: usize) -> Result<Option<FoundPacket>, RefusedAt<Refusal>>
    ensures { standing_told result ≡ packet_at capture.now place }
{
    if other_version(capture) {
        return Err(RefusedAt {
            why: Refusal::Capture(capture_reader::Refusal::Version),
            at: 0,
        });
    }
    if bad_place(capture, place) {
        return Err(RefusedAt {
            why: Refusal::Place,
            at: 0,
        });
    }
    if place == capture.len() {
        return Ok(None);
    }
    let size = located(front_of(&capture[place..]), place)?;
    let start = place + WIDTH;
    let next = start + size;
    Ok(Some(FoundPacket { start, size, next }))
}
