// The bytes after the start mark and before the payload: packet id, error id, sequence.
ghost use Rattle.std.specs.Prelude.{◌≡◌};
ghost use Rattle.classic_frame.specs.Frame.{next_sequence};

use crate::mark::is_mark;

pub const PACKET_ID: u8 = 0x02;

pub const ERROR_ID: u8 = 0x00;

// The first byte after the marks.
const AFTER_MARKS: u8 = 0xf3;

// The sequence byte after a sequence byte.
pub fn next_sequence(sequence: u8) -> u8
    ensures { result ≡ next_sequence sequence }
{
    let next = ((sequence as u32 + 1) % 256) as u8;
    if is_mark(next) { AFTER_MARKS } else { next }
}
