// The packets of a message, joined in one output in which the message itself stands.
#![tactic(auto)]

ghost use Rattle.std.specs.Prelude.{◌≡◌, ◌++◌, ◌+◌, ◌≤◌, ◌<◌, length, take, drop};
ghost use Rattle.std.proofs.lemmas.List.Edits.{sets};
ghost use Rattle.wire.specs.Put.{Put};
ghost use Rattle.ble_sender.specs.Piece.{least_room, is_first, size_for, pieces_of};
ghost use Rattle.ble_sender.specs.Writer.{header_bytes};
ghost use Rattle.ble_joined.specs.Joined.{joined_of, sizes, countable, joined_length, PacketFits, message_in, JoinsExactly, is_exact, joined_over};

use ble_packet::header;
use ble_packet::header::FOUR_BITS;
use ble_sender::piece::{LEAST_ROOM, ONE_BYTE_LENGTH, Piece, full_size};
use ble_sender::writer::{Sending, put_header};
use wire::bytes::smaller;
use wire::logic::both;

// How many totals there are: two bytes each.
const TOTALS: usize = 65536;

// Moves n bytes to an earlier place.
fn move_down(out: &mut [u8], to: usize, from: usize, n: usize)
    requires { (to ≤ from) × (from + n ≤ length out.old) }
    ensures { out.new ≡ sets out.old to (take n (drop from out.old)) }
{
    out.copy_within(from..from + n, to);
}

// The size of the piece of this index, where this many bytes are left.
fn piece_size(room: usize, index: usize, rest: usize) -> usize
    requires { least_room ≤ room }
    ensures { result ≡ size_for room (is_first index) rest }
{
    let full = full_size(room, index == 0);
    smaller(rest, full)
}

// The packet of a piece whose bytes stand later in the output; the answer is the place after it.
fn put_packet(
    out: &mut [u8],
    at: usize,
    how: Sending,
    total: usize,
    piece: Piece,
    last: bool,
    from: usize,
) -> usize
    requires { PacketFits how total (length out.old) at piece from }
    ensures { Put out.old at
        (header_bytes how total piece last ++ take piece.size (drop from out.old)) result out.new }
{
    let end = out.len();
    let size = piece.size;
    let header = put_header(&mut out[at..end], how, total, piece, last);
    let start = at + header;
    move_down(out, start, from, size);
    start + size
}

// Counts the bytes of all packets of a message together. No `for`: where a piece begins, and whether it is the last, its size says.
fn count_bytes(room: usize, total: usize) -> usize
    requires { (least_room ≤ room) × (total < 65536) }
    ensures { result ≡ sizes (pieces_of room total) }
{
    let mut index = 0;
    let mut start = 0;
    let mut sum = 0;
    let mut going = true;
    while going {
        let rest = total - start;
        let size = piece_size(room, index, rest);
        let head = header::header_size(index == 0, ONE_BYTE_LENGTH < size);
        sum += head + size;
        start += size;
        index += 1;
        going = size < rest;
    }
    sum
}

// Whether a message of this length has packets at this room.
fn countable(room: usize, total: usize) -> bool
    ensures { result ≡ countable room total }
{
    both(LEAST_ROOM <= room, total < TOTALS)
}

// The length of all packets of a message together; 0 where it has none, as the definition joined_length has it.
pub fn joined_len(room: usize, total: usize) -> usize
    ensures { result ≡ joined_length room total }
{
    if countable(room, total) {
        return count_bytes(room, total);
    }
    0
}

// Whether a message can be joined in this much output: it is exactly as long as its packets.
fn is_exact(how: Sending, total: usize, space: usize) -> bool
    ensures { result ≡ is_exact how total space }
{
    let room = how.room;
    let low = both(how.stream < FOUR_BITS, how.id < FOUR_BITS);
    if both(low, countable(room, total)) {
        return space == count_bytes(room, total);
    }
    false
}

// The packets of the message that stands at the end of the output. A packet's end never passes the bytes that are
// still to be moved: each packet behind it has at least as many bytes as it carries. No `for`, as in `count_bytes`.
fn put_packets(out: &mut [u8], how: Sending, total: usize)
    requires { JoinsExactly how total out.old }
    ensures { out.new ≡ joined_of how (message_in total out.old) }
{
    let end = out.len();
    let room = how.room;
    let mut index = 0;
    let mut start = 0;
    let mut at = 0;
    while at < end {
        let rest = total - start;
        let size = piece_size(room, index, rest);
        let piece = Piece { index, start, size };
        at = put_packet(out, at, how, total, piece, size == rest, end - rest);
        start += size;
        index += 1;
    }
}

// Joins the packets of the message that stands at the end of the output, if it is exactly as long as they are.
pub fn join(out: &mut [u8], how: Sending, total: usize)
    ensures { out.new ≡ joined_over how total out.old }
{
    if is_exact(how, total, out.len()) {
        put_packets(out, how, total);
    }
}
