// The pieces of a message: which one begins at a place.
ghost use Rattle.std.specs.Prelude.{◌≡◌, ◌≤◌, ◌<◌};
ghost use Rattle.ble_sender.specs.Piece.{least_room, size_for, full_size, pieces_of, piece_at};

use ble_packet::header;
use wire::bytes::smaller;

// The rooms: the largest whole packet, in bytes.
pub const LEAST_ROOM: usize = 20;

pub const LARGEST_ROOM: usize = 512;

// The largest payload length that one byte says; a larger one takes two bytes and the extender.
pub const ONE_BYTE_LENGTH: usize = 255;

// The part of a message that one packet carries.
#[derive(Drop)]
pub struct Piece {
    pub index: usize,
    pub start: usize,
    pub size: usize,
}

// The size of a piece of the bytes that are left: as many as fit the room together with the header.
pub fn size_for(room: usize, first: bool, rest: usize) -> usize
    ensures { result ≡ size_for room first rest }
{
    let least = header::least_header(first);
    if room < least {
        return 0;
    }
    let plain = room - least;
    if plain <= ONE_BYTE_LENGTH {
        return smaller(rest, plain);
    }
    smaller(rest, plain - 1)
}

// The size of a piece that fills the room together with its header.
pub fn full_size(room: usize, first: bool) -> usize
    requires { least_room ≤ room }
    ensures { (result ≡ full_size room first) × (0 < result) }
{
    size_for(room, first, room)
}

// The piece of a message of that length which begins at the place, if one does: the pieces before it are full.
pub(crate) fn piece_at(room: usize, length: usize, start: usize) -> Option<Piece>
    requires { least_room ≤ room }
    ensures { result ≡ piece_at start (pieces_of room length) }
{
    let first = full_size(room, true);
    if start == 0 {
        let size = smaller(length, first);
        return Some(Piece {
            index: 0,
            start: 0,
            size,
        });
    }
    if length < start {
        return None;
    }
    let rest = length - start;
    if rest == 0 {
        return None;
    }
    if start < first {
        return None;
    }
    let next = full_size(room, false);
    let past = start - first;
    let over = past % next;
    if over != 0 {
        return None;
    }
    let index = past / next + 1;
    let size = smaller(rest, next);
    Some(Piece { index, start, size })
}
