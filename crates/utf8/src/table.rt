// Unicode's Table 3-7: the kinds of sequences that well-formed UTF-8 is made of.
ghost use Rattle.std.specs.Prelude.{◌≡◌, map, ◌<◌, [], length, MatchOption};
ghost use Rattle.utf8.specs.Table.{rows, within, begins, row_of};

use wire::logic::both;

// The bytes from the first to the last.
#[derive(Clone, Copy)]
pub struct Range(pub u8, pub u8);

// The bytes after the first, but for those second ones that a row narrows.
const TAIL: Range = Range(0x80, 0xBF);

// A row has a range for each byte of a sequence.
const ROWS: [&[Range]; 9] = [
    &[Range(0x00, 0x7F)],
    &[Range(0xC2, 0xDF), TAIL],
    &[Range(0xE0, 0xE0), Range(0xA0, 0xBF), TAIL],
    &[Range(0xE1, 0xEC), TAIL, TAIL],
    &[Range(0xED, 0xED), Range(0x80, 0x9F), TAIL],
    &[Range(0xEE, 0xEF), TAIL, TAIL],
    &[Range(0xF0, 0xF0), Range(0x90, 0xBF), TAIL, TAIL],
    &[Range(0xF1, 0xF3), TAIL, TAIL, TAIL],
    &[Range(0xF4, 0xF4), Range(0x80, 0x8F), TAIL, TAIL],
];

pub(crate) fn is_within(range: Range, b: u8) -> bool
    ensures { result ≡ within range b }
{
    both(range.0 <= b, b <= range.1)
}

// The table, as the definitions have it.
pub(crate) fn all_rows() -> [&'static [Range]; 9]
    ensures { map (λ row. row.now) result ≡ rows }
{
    ROWS
}

// Whether the bytes begin with a sequence of this row.
pub(crate) fn begins_with(bytes: &[u8], row: &[Range]) -> bool
    ensures { result ≡ begins row.now bytes.now }
{
    if bytes.len() < row.len() {
        return false;
    }
    for i in 0..row.len() {
        if !is_within(row[i], bytes[i]) {
            return false;
        }
    }
    true
}

// The row of sequences that begin with this byte, where there is one.
pub(crate) fn row_of(lead: u8) -> Option<&'static [Range]>
    ensures { MatchOption result (row_of lead ≡ []) (λ row. (row.now ≡ row_of lead) × (0 < length row.now)) }
{
    for row in all_rows() {
        if is_within(row[0], lead) {
            return Some(row);
        }
    }
    None
}
