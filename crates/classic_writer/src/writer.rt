// Writes Classic frames.
ghost use Rattle.std.specs.Prelude.{◌≡◌, true, false, [], ◌∷◌, ◌++◌, ◌+◌, ◌-◌, ◌*◌, ◌≤◌, ◌<◌, length, drop, leb};
ghost use Rattle.std.proofs.lemmas.List.Edits.{sets};
ghost use Rattle.wire.specs.Told.{written};
ghost use Rattle.wire.specs.Limit.{limit_fits};
ghost use Rattle.classic_frame.specs.Mark.{escape_mark, kind_of, is_mark};
ghost use Rattle.classic_frame.specs.Frame.{escaped_by, escaped_of, header_of, framed};
ghost use Rattle.classic_writer.specs.Writer.{number_of, told, write_of, Left};

use classic_frame::checksum::checksum;
use classic_frame::header::{ERROR_ID, PACKET_ID};
use classic_frame::mark::{Mark, code_for, is_mark};
use wire::limit::limit_fits;
use wire::refusal::Numbered;
use wire::scan::copy_clear;

// Refusals 17, 15 and 14.
#[derive(Clone, Copy, Debug, PartialEq, Eq)]
pub enum Refusal {
    BadLimit,
    BadArgument,
    NoRoom,
}

impl Numbered for Refusal {
    ghost number_of = { number_of };

    fn number(&self) -> u8 {
        match self {
            Refusal::BadLimit => 17,
            Refusal::BadArgument => 15,
            Refusal::NoRoom => 14,
        }
    }
}

// The two bytes of a payload's checksum.
#[derive(Clone, Copy)]
struct Checksum {
    high: u8,
    low: u8,
}

// The bytes of a frame beside its payload, with each byte of the checksum escaped: header, checksum, end mark.
const LARGEST_FRAMING: usize = 9;

// The bytes that one byte takes beside itself. A sum of 16 bits becomes vector sums.
fn extra(b: u8) -> u16
    ensures { (result + 1 ≡ length (escaped_by (kind_of b) b)) × (result ≤ 1) }
{
    is_mark(b) as u16
}

// The bytes that one byte takes.
fn width(b: u8) -> usize
    ensures { (result ≡ length (escaped_by (kind_of b) b)) × (result ≤ 2) }
{
    extra(b) as usize + 1
}

// The bytes that a run takes.
fn escaped_size(bytes: &[u8]) -> usize
    requires { length bytes.now ≤ 65535 }
    ensures { (result ≡ length (escaped_of bytes.now)) × (result ≤ 131070) }
{
    let mut marks: u16 = 0;
    for b in bytes {
        marks += extra(*b);
    }
    bytes.len() + marks as usize
}

// Writes a mark's escape, and returns the place after it.
fn put_code(out: &mut [u8], at: usize, code: u8) -> usize
    requires { at + 2 ≤ length out.old }
    ensures { (result ≡ at + 2) × (out.new ≡ sets out.old at (escape_mark ∷ code ∷ [])) }
{
    out[at] = Mark::ESCAPE;
    out[at + 1] = code;
    at + 2
}

// Writes one byte, escaped where it is a mark, and returns the place after it.
fn put_escaped(out: &mut [u8], at: usize, b: u8) -> usize
    requires { at + length (escaped_by (kind_of b) b) ≤ length out.old }
    ensures { (result ≡ at + length (escaped_by (kind_of b) b))
        × (out.new ≡ sets out.old at (escaped_by (kind_of b) b)) }
{
    if is_mark(b) {
        return put_code(out, at, code_for(b));
    }
    out[at] = b;
    at + 1
}

// Writes the plain bytes from i on at a place, and returns where they end.
fn put_plain(out: &mut [u8], place: usize, bytes: &[u8], i: usize) -> usize
    requires i_in_bounds { i ≤ length bytes.now }
    requires bytes_in_bounds { place + length (escaped_of (drop i bytes.now)) ≤ length out.old }
    ensures { Left bytes.now out.old place i out.new (place + (result - i)) result }
{
    i + copy_clear(out, place, &bytes[i..], Mark::START, Mark::ESCAPE)
}

// Writes the marks from i on, escaped, at a place, and returns where they end.
fn put_marks(out: &mut [u8], place: usize, bytes: &[u8], i: usize) -> usize
    requires i_in_bounds { i ≤ length bytes.now }
    requires bytes_in_bounds { place + length (escaped_of (drop i bytes.now)) ≤ length out.old }
    ensures { Left bytes.now out.old place i out.new (place + 2 * (result - i)) result }
{
    let mut at = place;
    for end in i..bytes.len() {
        let b = bytes[end];
        if !is_mark(b) {
            return end;
        }
        at = put_code(out, at, code_for(b));
    }
    bytes.len()
}

// Writes a run, escaped, from a place, and returns the place after it. A turn passes as many bytes as were plain and marks, so
// no `for` fits.
fn put_all(out: &mut [u8], at: usize, bytes: &[u8]) -> usize
    requires { at + length (escaped_of bytes.now) ≤ length out.old }
    ensures { (result ≡ at + length (escaped_of bytes.now))
        × (out.new ≡ sets out.old at (escaped_of bytes.now)) }
{
    let mut place = at;
    let mut i = 0;
    loop {
        let end = put_plain(out, place, bytes, i);
        place += end - i;
        if end >= bytes.len() {
            return place;
        }
        place = put_escaped(out, place, bytes[end]);
        let next = end + 1;
        i = put_marks(out, place, bytes, next);
        place += 2 * (i - next);
    }
}

// Writes the four bytes before the payload.
fn put_header(out: &mut [u8], sequence: u8)
    requires { 4 ≤ length out.old }
    ensures { out.new ≡ sets out.old 0 (header_of sequence) }
{
    out[0] = Mark::START;
    out[1] = PACKET_ID;
    out[2] = ERROR_ID;
    out[3] = sequence;
}

// Writes the frame of a payload and a checksum where there is room for it, and returns its length.
fn put_frame(out: &mut [u8], sequence: u8, payload: &[u8], sum: Checksum) -> usize
    requires { length (framed sequence (payload.now ++ (sum.high ∷ sum.low ∷ []))) ≤ length out.old }
    ensures { (result ≡ length (framed sequence (payload.now ++ (sum.high ∷ sum.low ∷ []))))
        × (out.new ≡ sets out.old 0 (framed sequence (payload.now ++ (sum.high ∷ sum.low ∷ [])))) }
{
    put_header(out, sequence);
    let after_payload = put_all(out, 4, payload);
    let after_high = put_escaped(out, after_payload, sum.high);
    let after_low = put_escaped(out, after_high, sum.low);
    out[after_low] = Mark::END;
    after_low + 1
}

// Whether a frame fits: at once where there is room for it with each byte escaped, else by its size.
fn has_room(sequence: u8, payload: &[u8], sum: Checksum, room: usize) -> bool
    requires { length payload.now ≤ 65535 }
    ensures { result ≡ leb (length (framed sequence (payload.now ++ (sum.high ∷ sum.low ∷ [])))) room }
{
    if LARGEST_FRAMING + 2 * payload.len() <= room {
        return true;
    }
    5 + escaped_size(payload) + width(sum.high) + width(sum.low) <= room
}

// Writes the frame of a payload, for a link with a limit in its range and a sequence that is no mark, and returns its length.
fn write_within(
    sequence: u8,
    limit: usize,
    payload: &[u8],
    out: &mut [u8],
) -> Result<usize, Refusal>
    requires { (limit_fits limit ≡ true) × (is_mark sequence ≡ false) }
    ensures { written (told result) out.new
        ≡ write_of limit sequence payload.now out.old }
{
    if limit < payload.len() {
        return Err(Refusal::BadArgument);
    }
    let total = checksum(payload);
    let sum = Checksum {
        high: (total / 256) as u8,
        low: (total % 256) as u8,
    };
    if !has_room(sequence, payload, sum, out.len()) {
        return Err(Refusal::NoRoom);
    }
    Ok(put_frame(out, sequence, payload, sum))
}

// Writes the frame of a payload, for a link with a limit, and returns its length. The sequence is looked at first: right
// before the payload's length the compiler makes one test of both, which costs more.
pub fn write_frame(
    sequence: u8,
    limit: usize,
    payload: &[u8],
    out: &mut [u8],
) -> Result<usize, Refusal>
    ensures { written (told result) out.new
        ≡ write_of limit sequence payload.now out.old }
{
    if is_mark(sequence) {
        if limit_fits(limit) {
            return Err(Refusal::BadArgument);
        }
        return Err(Refusal::BadLimit);
    }
    if !limit_fits(limit) {
        return Err(Refusal::BadLimit);
    }
    write_within(sequence, limit, payload, out)
}
