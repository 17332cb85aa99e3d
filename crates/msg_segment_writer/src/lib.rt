// UpdateComponentSegment written.
#![tactic(auto)]

ghost use Rattle.std.specs.Prelude.{◌≡◌, ◌≤◌, length, Some};
ghost use Rattle.wire.specs.Told.{written};
ghost use Rattle.wire.specs.Put.{Put};
ghost use Rattle.proto_writer.specs.Writer.{message_bytes};
ghost use Rattle.proto_writer.specs.Message.{less_room};
ghost use Rattle.msg_segment_writer.specs.Segment.{segment_strings, segment_fields, segment_filled, segment_written, why_of, number_of, told_segment_wrote};
ghost use Rattle.msg_segment_writer.specs.declared.SegmentWriteRefusal.TheVariants.{BadText};
ghost use Rattle.proto_strings.specs.Texts.{first_fault};

use msg_firmware::segment::broken_field;
use proto_schema::{COMPONENT_NAME, SEGMENT_SIGNATURE, SEGMENT_SIZE};
use proto_strings::{BAD_TEXT, Faulted, TextFault, check_text};
use proto_writer::fields::{put_scalar, put_text, scalar_len, text_len};
use wire::refusal::Numbered;

// Why no segment is written.
#[derive(Clone, Copy, Debug, PartialEq, Eq)]
pub enum SegmentWriteRefusal {
    // A string is not well formed.
    BadText(TextFault),
    // A rule of the profile is broken, in this field.
    Profile(u64),
    // The output is smaller than the message.
    NoRoom,
}

impl From<TextFault> for SegmentWriteRefusal {
    ghost from_gives = { λ fault r. r ≡ BadText fault };

    fn from(fault: TextFault) -> SegmentWriteRefusal {
        SegmentWriteRefusal::BadText(fault)
    }
}

impl Numbered for SegmentWriteRefusal {
    ghost number_of = { number_of };

    fn number(&self) -> u8 {
        match self {
            SegmentWriteRefusal::BadText(_) => BAD_TEXT,
            SegmentWriteRefusal::Profile(_) => 50,
            SegmentWriteRefusal::NoRoom => 14,
        }
    }
}

impl Faulted for SegmentWriteRefusal {
    ghost goes_with = { λ why. (why_of why).1 };

    fn fault(&self) -> [u64; 2] {
        match self {
            SegmentWriteRefusal::BadText(fault) => [fault.field, fault.place as u64],
            SegmentWriteRefusal::Profile(field) => [*field, 0],
            SegmentWriteRefusal::NoRoom => [0u64; 2],
        }
    }
}

// The room that a segment leaves in an output of this length. Its offset is 0, which is left out.
fn segment_room(
    len: usize,
    component_name: &[u8],
    segment_size: u32,
    segment_signature: &[u8],
) -> Option<usize>
    ensures { result
        ≡ less_room
        (length
        (message_bytes
        (segment_fields component_name.now 0 segment_size segment_signature.now)))
        (Some len) }
{
    len.checked_sub(text_len(COMPONENT_NAME, component_name))?
        .checked_sub(scalar_len(SEGMENT_SIZE, segment_size as u64))?
        .checked_sub(text_len(SEGMENT_SIGNATURE, segment_signature))
}

// A segment, written from the first byte on; the answer is the place after it.
fn put_segment(
    out: &mut [u8],
    component_name: &[u8],
    segment_size: u32,
    segment_signature: &[u8],
) -> usize
    requires { length (message_bytes (segment_fields component_name.now 0 segment_size segment_signature.now))
        ≤ length out.old }
    ensures { Put out.old 0
        (message_bytes
        (segment_fields component_name.now 0 segment_size segment_signature.now)) result
        out.new }
{
    let second = put_text(out, 0, COMPONENT_NAME, component_name);
    let third = put_scalar(out, second, SEGMENT_SIZE, segment_size as u64);
    put_text(out, third, SEGMENT_SIGNATURE, segment_signature)
}

// A segment whatever its strings are.
fn fill_segment(
    out: &mut [u8],
    component_name: &[u8],
    component_offset: u32,
    segment_size: u32,
    segment_signature: &[u8],
) -> Result<usize, SegmentWriteRefusal>
    ensures { written (told_segment_wrote result) out.new
        ≡ segment_filled component_name.now component_offset segment_size
        segment_signature.now out.old }
{
    if let Some(field) = broken_field(component_offset, segment_signature) {
        return Err(SegmentWriteRefusal::Profile(field));
    }
    if segment_room(out.len(), component_name, segment_size, segment_signature).is_none() {
        return Err(SegmentWriteRefusal::NoRoom);
    }
    Ok(put_segment(out, component_name, segment_size, segment_signature))
}

// The first string that is not well formed.
fn segment_fault(component_name: &[u8], segment_signature: &[u8]) -> Result<(), TextFault>
    ensures { result
        ≡ first_fault (segment_strings component_name.now segment_signature.now) }
{
    check_text(COMPONENT_NAME, component_name)?;
    check_text(SEGMENT_SIGNATURE, segment_signature)
}

// Writes a segment.
pub fn write_segment(
    out: &mut [u8],
    component_name: &[u8],
    component_offset: u32,
    segment_size: u32,
    segment_signature: &[u8],
) -> Result<usize, SegmentWriteRefusal>
    ensures { written (told_segment_wrote result) out.new
        ≡ segment_written component_name.now component_offset segment_size
        segment_signature.now out.old }
{
    segment_fault(component_name, segment_signature)?;
    fill_segment(
        out,
        component_name,
        component_offset,
        segment_size,
        segment_signature,
    )
}
