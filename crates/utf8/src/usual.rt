// The length of a sequence by its row alone, without a search through the table: where four bytes are there, the first one tells
// which rows can describe it.
ghost use Rattle.std.specs.Prelude.{◌≡◌, ◌<◌, IfSome};
ghost use Rattle.utf8.specs.WellFormed.{sequence_at};

use crate::table::{all_rows, begins_with};

// The longest sequence.
const LONGEST: usize = 4;

// The first bytes of sequences of three and of four bytes are not below these.
const FIRST_OF_THREE: u8 = 0xE0;

const FIRST_OF_FOUR: u8 = 0xF0;

fn two_long(bytes: &[u8]) -> Option<usize>
    ensures { IfSome result (λ n. (n ≡ sequence_at bytes.now) × (0 < n)) }
{
    let rows = all_rows();
    if begins_with(bytes, rows[1]) {
        Some(2)
    } else {
        None
    }
}

// The rows that describe most letters come first.
fn three_long(bytes: &[u8]) -> Option<usize>
    ensures { IfSome result (λ n. (n ≡ sequence_at bytes.now) × (0 < n)) }
{
    let rows = all_rows();
    if begins_with(bytes, rows[3]) {
        return Some(3);
    }
    if begins_with(bytes, rows[5]) {
        return Some(3);
    }
    if begins_with(bytes, rows[2]) {
        return Some(3);
    }
    if begins_with(bytes, rows[4]) {
        return Some(3);
    }
    None
}

fn four_long(bytes: &[u8]) -> Option<usize>
    ensures { IfSome result (λ n. (n ≡ sequence_at bytes.now) × (0 < n)) }
{
    let rows = all_rows();
    if begins_with(bytes, rows[6]) {
        return Some(4);
    }
    if begins_with(bytes, rows[7]) {
        return Some(4);
    }
    if begins_with(bytes, rows[8]) {
        return Some(4);
    }
    None
}

// How many bytes the sequence has that they begin with; none where the table has to be searched.
pub(crate) fn usual_len(bytes: &[u8]) -> Option<usize>
    ensures { IfSome result (λ n. (n ≡ sequence_at bytes.now) × (0 < n)) }
{
    if bytes.len() < LONGEST {
        return None;
    }
    let lead = bytes[0];
    if lead < FIRST_OF_THREE {
        return two_long(bytes);
    }
    if lead < FIRST_OF_FOUR {
        return three_long(bytes);
    }
    four_long(bytes)
}
