// UpdateComponentSegment: the piece of firmware that comes next.
ghost use Rattle.std.specs.Prelude.{◌≡◌, cond, ◌≤◌};
ghost use Rattle.proto_reader.specs.Refusal.{TellsStrings};
ghost use Rattle.msg_firmware.specs.declared.segment.SegmentRefusal.TheVariants.{Message};
ghost use Rattle.msg_firmware.specs.Segment.{between, is_digit, all_digits, is_signature, broken_field, field_told, segment_number, segment_made, segment_of, told_segment, segment_parts};

use proto_field::unsigned::low_unsigned;
use proto_field::value::Part;
use proto_reader::gathered::Gathered;
use proto_reader::reader::read_fields;
use proto_reader::refusal::MessageRefusal;
use proto_schema::{COMPONENT_OFFSET, FIRST, SECOND, SEGMENT_SIGNATURE, Schema};
use wire::logic::both;
use wire::refusal::Numbered;

// The hexadecimal digits of a signature.
const SIGNATURE_DIGITS: usize = 64;

// Strings are parts of the lent message.
#[derive(Clone, Copy)]
pub struct UpdateComponentSegment {
    pub component_name: Part,
    pub component_offset: u32,
    pub segment_size: u32,
    pub segment_signature: Part,
}

// Why a segment is refused.
#[derive(Clone, Copy, Debug, PartialEq, Eq)]
pub enum SegmentRefusal {
    Message(MessageRefusal),
    // A rule of the profile is broken, in this field.
    Profile(u64),
}

impl From<MessageRefusal> for SegmentRefusal {
    ghost from_gives = { λ why e. e ≡ Message why };

    fn from(why: MessageRefusal) -> Self {
        SegmentRefusal::Message(why)
    }
}

impl Numbered for SegmentRefusal {
    ghost number_of = { segment_number };

    fn number(&self) -> u8 {
        match self {
            SegmentRefusal::Message(why) => why.number(),
            SegmentRefusal::Profile(_) => 50,
        }
    }
}

// 1 if a byte lies between two, 0 if not.
fn one_between(byte: u8, low: u8, high: u8) -> u8
    ensures { (result ≡ cond (between low high byte) 1 0) × (result ≤ 1) }
{
    if both(low <= byte, byte <= high) {
        1
    } else {
        0
    }
}

// Whether a byte is a hexadecimal digit. The ranges that it lies in are counted: of this the compiler makes a test of many bytes at once.
fn is_digit(byte: u8) -> bool
    ensures { result ≡ is_digit byte }
{
    let decimal = one_between(byte, b'0', b'9');
    let upper = one_between(byte, b'A', b'F');
    let lower = one_between(byte, b'a', b'f');
    let ranges = decimal + upper + lower;
    ranges != 0
}

// Whether all bytes are hexadecimal digits. The loop has no other exit, as in wire's any_in_range.
fn all_digits(bytes: &[u8]) -> bool
    ensures { result ≡ all_digits bytes.now }
{
    let mut all = true;
    for byte in bytes {
        if !is_digit(*byte) {
            all = false;
        }
    }
    all
}

fn is_signature(bytes: &[u8]) -> bool
    ensures { result ≡ is_signature bytes.now }
{
    if bytes.len() != SIGNATURE_DIGITS {
        return false;
    }
    all_digits(bytes)
}

// The lowest field of which the profile's rule is broken.
#[tactic(auto, unfolding(crate::specs::Segment::broken_field))]
pub fn broken_field(offset: u32, signature: &[u8]) -> Option<u64>
    ensures { result ≡ field_told (broken_field offset signature.now) }
{
    if offset != 0 {
        return Some(COMPONENT_OFFSET);
    }
    if !is_signature(signature) {
        return Some(SEGMENT_SIGNATURE);
    }
    None
}

// The segment that was gathered.
fn segment_made(gathered: Gathered) -> UpdateComponentSegment
    ensures { result ≡ segment_made gathered }
{
    let component_name = gathered.texts[FIRST];
    let segment_signature = gathered.texts[SECOND];
    UpdateComponentSegment {
        component_name,
        component_offset: low_unsigned(gathered.scalars[FIRST]),
        segment_size: low_unsigned(gathered.scalars[SECOND]),
        segment_signature,
    }
}

// A segment.
#[tactic(auto, unfolding(crate::specs::Segment::segment_of))]
pub fn read_segment(message: &[u8]) -> Result<UpdateComponentSegment, SegmentRefusal>
    ensures result_value { told_segment result ≡ segment_of message.now }
    ensures tells_strings { TellsStrings message.now segment_parts (told_segment result) }
{
    let gathered = read_fields(Schema::Segment, message, 0)?;
    let segment = segment_made(gathered);
    let signature = segment.segment_signature.of(message);
    match broken_field(segment.component_offset, signature) {
        Some(field) => Err(SegmentRefusal::Profile(field)),
        None => Ok(segment),
    }
}
