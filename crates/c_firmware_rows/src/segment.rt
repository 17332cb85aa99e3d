// UpdateComponentSegment: what its reader tells, as a row.
ghost use Rattle.std.specs.Prelude.{◌≡◌};
ghost use Rattle.msg_firmware.specs.Segment.{segment_why, told_segment};
ghost use Rattle.c_message_rows.specs.Convert.{fault_of};
ghost use Rattle.c_firmware_rows.specs.More.{is_wide};
ghost use Rattle.c_firmware_rows.specs.Segment.{segment_row};

use c_message_rows::convert::fault_of;
use msg_firmware::segment::{SegmentRefusal, UpdateComponentSegment};

// The numbers of the answer row.
pub const SEGMENT_ANSWER: usize = 8;

// How many numbers have 32 bits.
const COUNT_32: u64 = 4294967296;

// Whether a number has more than 32 bits.
pub fn is_wide(n: u64) -> bool
    ensures { result ≡ is_wide n }
{
    !(n < COUNT_32)
}

// The field and the place that go with a refusal.
fn fault_of_segment(why: SegmentRefusal) -> [u64; 2]
    ensures { result ≡ fault_of (segment_why why) }
{
    match why {
        SegmentRefusal::Message(why) => fault_of(why),
        SegmentRefusal::Profile(field) => [field, 0],
    }
}

pub fn segment_row(read: Result<UpdateComponentSegment, SegmentRefusal>) -> [u64; 8]
    ensures { result ≡ segment_row (told_segment read) }
{
    match read {
        Ok(segment) => {
            let name = segment.component_name;
            let signature = segment.segment_signature;
            [
                name.start as u64,
                name.len as u64,
                segment.component_offset as u64,
                segment.segment_size as u64,
                signature.start as u64,
                signature.len as u64,
                0,
                0,
            ]
        }
        Err(why) => {
            let [field, place] = fault_of_segment(why);
            [0, 0, 0, 0, 0, 0, field, place]
        }
    }
}
