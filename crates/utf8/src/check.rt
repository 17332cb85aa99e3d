// The check of a string.
ghost use Rattle.std.specs.Prelude.{◌≡◌, ◌+◌, ◌<◌, ◌≤◌, length, drop, MatchOption};
ghost use Rattle.wire.specs.Scan.{any_in_range};
ghost use Rattle.utf8.specs.WellFormed.{Tells, sequence_at, bad_place, Passes};

use crate::table::{begins_with, row_of};
use crate::usual::usual_len;
use wire::bytes::byte_at;
use wire::scan::clear_run;

// The bytes above ASCII.
pub const FIRST_ABOVE: u8 = 0x80;

pub const LAST_ABOVE: u8 = 0xFF;

// Bytes that are tested at once.
const BLOCK: usize = 16;

// How many bytes the sequence has that they begin with, by a search through the table, where a row describes one. Few letters need it:
// kept apart, it leaves the loop of place_from short.
#[inline(never)]
fn searched_len(bytes: &[u8]) -> Option<usize>
    ensures { Tells result (sequence_at bytes.now) }
{
    let row = row_of(byte_at(bytes, 0))?;
    if begins_with(bytes, row) {
        Some(row.len())
    } else {
        None
    }
}

// How many bytes the sequence has that they begin with, where a row describes one.
fn sequence_len(bytes: &[u8]) -> Option<usize>
    ensures { Tells result (sequence_at bytes.now) }
{
    match usual_len(bytes) {
        Some(n) => Some(n),
        None => searched_len(bytes),
    }
}

// How many bytes of whole sequences stand at a place: a run of ASCII, or one sequence that a row describes.
fn passed(string: &[u8], at: usize) -> Option<usize>
    requires { at < length string.now }
    ensures { MatchOption result (bad_place (drop at string.now) ≡ 0)
        (λ n. Passes (drop at string.now) n × (0 < n)) }
{
    if string[at] < FIRST_ABOVE {
        let next = at + 1;
        Some(1 + clear_run(&string[next..], FIRST_ABOVE, LAST_ABOVE))
    } else {
        sequence_len(&string[at..])
    }
}

// The first place, from a given one on, where a sequence begins that no row describes; the string's length if there is none. No such place is before the given one.
fn place_from(string: &[u8], from: usize) -> usize
    requires { (from ≤ length string.now) × (bad_place string.now ≡ from + bad_place (drop from string.now)) }
    ensures { result ≡ bad_place string.now }
{
    let mut at = from;
    while at < string.len() {
        match passed(string, at) {
            Some(n) => at += n,
            None => return at,
        }
    }
    at
}

// The same of a string that is shorter than a block.
fn short_place(string: &[u8]) -> usize
    ensures { result ≡ bad_place string.now }
{
    let run = clear_run(&string[..], FIRST_ABOVE, LAST_ABOVE);
    if string.len() <= run {
        return run;
    }
    place_from(&string[..], run)
}

// Whether any of these bytes lies above ASCII. Joined, they have the high bit if one of them has it, so that one test is enough.
fn any_above(run: &[u8]) -> bool
    ensures { result ≡ any_in_range 0x80 0xFF run.now }
{
    let mut joined = 0u8;
    for b in run {
        joined |= *b;
    }
    FIRST_ABOVE <= joined
}

// The place of the first sequence that no row describes; the string's length if there is none, as FindsFirstBad has it. ASCII goes block by block, counted by
// hand since nothing that a writer of varints calls may divide (No. 10), and what
// is left of it by a last block that begins before. The table has a function of its own, with more callers than one: so the
// compiler keeps it, and the registers that it takes, out of this one.
pub fn bad_place(string: &[u8]) -> usize
    ensures { result ≡ bad_place string.now }
{
    if string.len() < BLOCK {
        return short_place(&string[..]);
    }
    let mut at = 0;
    while BLOCK <= string.len() - at {
        let end = at + BLOCK;
        if any_above(&string[at..end]) {
            return place_from(&string[..], at);
        }
        at = end;
    }
    let last = string.len() - BLOCK;
    if any_above(&string[last..]) {
        return place_from(&string[..], at);
    }
    string.len()
}
