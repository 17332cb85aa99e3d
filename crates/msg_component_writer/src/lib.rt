// FirmwareComponent written, of parts of a lent text.
#![tactic(auto)]

ghost use Rattle.std.specs.Prelude.{◌≡◌, false, ◌+◌, ◌≤◌, ◌<◌, ◌^◌, length, Some, Ok};
ghost use Rattle.wire.specs.Put.{Put};
ghost use Rattle.proto_field.specs.Tag.{last_field};
ghost use Rattle.proto_field.specs.Value.{bytes_of};
ghost use Rattle.proto_writer.specs.Writer.{text, field_bytes, message_bytes};
ghost use Rattle.proto_writer.specs.Message.{less_room};
ghost use Rattle.msg_component_writer.specs.Component.{outside, bad_component, component_strings, component_fields, component_field};
ghost use Rattle.proto_strings.specs.Texts.{or_text, first_fault};

use msg_firmware::component::FirmwareComponent;
use proto_field::value::Part;
use proto_schema::{
    COMPONENTS, FIRMWARE_COMPONENT_NAME, FIRMWARE_COMPONENT_SIGNATURE, FIRMWARE_COMPONENT_SIZE,
    FIRMWARE_COMPONENT_VERSION,
};
use proto_strings::{TextFault, check_text};
use proto_writer::fields::{head_len, put_head, put_scalar, put_text, scalar_len, text_len};

// Whether a part does not lie within the texts.
pub fn is_outside(texts: &[u8], part: Part) -> bool
    ensures { result ≡ outside texts.now part }
{
    let size = texts.len();
    if size < part.start {
        return true;
    }
    size - part.start < part.len
}

// Whether a part of a component does not lie within the texts.
pub fn bad_component(texts: &[u8], component: FirmwareComponent) -> bool
    ensures { result ≡ bad_component texts.now component }
{
    wire::logic::either(
        is_outside(texts, component.name),
        is_outside(texts, component.signature),
    )
}

// The bytes of a part of the texts.
fn part_of(texts: &[u8], part: Part) -> &[u8]
    requires { outside texts.now part ≡ false }
    ensures { result.now ≡ bytes_of texts.now part }
{
    let start = part.start;
    let end = start + part.len;
    &texts[start..end]
}

// The number of bytes of a string that is a part of the texts.
pub fn text_part_len(texts: &[u8], field: u64, part: Part) -> usize
    requires { (field ≤ last_field) × (outside texts.now part ≡ false) }
    ensures { result ≡ length (field_bytes (text field (bytes_of texts.now part))) }
{
    text_len(field, part_of(texts, part))
}

// A string that is a part of the texts, written at a place; the answer is the place after it.
pub fn put_text_part(out: &mut [u8], at: usize, texts: &[u8], field: u64, part: Part) -> usize
    requires { (field ≤ last_field)
        × (outside texts.now part ≡ false)
        × (at + length (field_bytes (text field (bytes_of texts.now part))) ≤ length out.old) }
    ensures { Put out.old at (field_bytes (text field (bytes_of texts.now part))) result
        out.new }
{
    put_text(out, at, field, part_of(texts, part))
}

// Whether a string that is a part of the texts is well formed.
pub fn check_text_part(texts: &[u8], field: u64, part: Part) -> Result<(), TextFault>
    requires { outside texts.now part ≡ false }
    ensures { result ≡ or_text field (bytes_of texts.now part) (Ok tt) }
{
    check_text(field, part_of(texts, part))
}

// Whether a component's strings are well formed.
pub fn check_component(texts: &[u8], component: FirmwareComponent) -> Result<(), TextFault>
    requires { bad_component texts.now component ≡ false }
    ensures { result ≡ first_fault (component_strings texts.now component) }
{
    check_text_part(texts, FIRMWARE_COMPONENT_NAME, component.name)?;
    check_text_part(texts, FIRMWARE_COMPONENT_SIGNATURE, component.signature)
}

// The room that a component's fields leave.
fn component_room(len: usize, texts: &[u8], component: FirmwareComponent) -> Option<usize>
    requires { bad_component texts.now component ≡ false }
    ensures { result
        ≡ less_room (length (message_bytes (component_fields texts.now component))) (Some len) }
{
    len.checked_sub(scalar_len(FIRMWARE_COMPONENT_VERSION, component.version as u64))?
        .checked_sub(text_part_len(texts, FIRMWARE_COMPONENT_NAME, component.name))?
        .checked_sub(scalar_len(FIRMWARE_COMPONENT_SIZE, component.size as u64))?
        .checked_sub(text_part_len(texts, FIRMWARE_COMPONENT_SIGNATURE, component.signature))
}

// The room that a component leaves as a field of firmware information.
pub fn room_after_component(len: usize, texts: &[u8], component: FirmwareComponent) -> Option<usize>
    requires { bad_component texts.now component ≡ false }
    ensures { result ≡ less_room (length (field_bytes (component_field texts.now component))) (Some len) }
{
    let rest = component_room(len, texts, component)?;
    rest.checked_sub(head_len(COMPONENTS, len - rest))
}

// The number of bytes of a component's fields.
fn component_len(texts: &[u8], component: FirmwareComponent) -> usize
    requires { (bad_component texts.now component ≡ false)
        × (length (message_bytes (component_fields texts.now component)) < 2 ^ 64) }
    ensures { result ≡ length (message_bytes (component_fields texts.now component)) }
{
    let first = scalar_len(FIRMWARE_COMPONENT_VERSION, component.version as u64);
    let second = text_part_len(texts, FIRMWARE_COMPONENT_NAME, component.name);
    let third = scalar_len(FIRMWARE_COMPONENT_SIZE, component.size as u64);
    let fourth = text_part_len(texts, FIRMWARE_COMPONENT_SIGNATURE, component.signature);
    first + second + third + fourth
}

// A component's fields, written at a place; the answer is the place after them.
fn put_component_fields(
    out: &mut [u8],
    at: usize,
    texts: &[u8],
    component: FirmwareComponent,
) -> usize
    requires { (bad_component texts.now component ≡ false)
        × (at + length (message_bytes (component_fields texts.now component)) ≤ length out.old) }
    ensures { Put out.old at (message_bytes (component_fields texts.now component)) result
        out.new }
{
    let second = put_scalar(
        out,
        at,
        FIRMWARE_COMPONENT_VERSION,
        component.version as u64,
    );
    let third = put_text_part(out, second, texts, FIRMWARE_COMPONENT_NAME, component.name);
    let fourth = put_scalar(out, third, FIRMWARE_COMPONENT_SIZE, component.size as u64);
    put_text_part(
        out,
        fourth,
        texts,
        FIRMWARE_COMPONENT_SIGNATURE,
        component.signature,
    )
}

// A component as a field of firmware information, written at a place; the answer is the place after it.
pub fn put_component(out: &mut [u8], at: usize, texts: &[u8], component: FirmwareComponent) -> usize
    requires { (bad_component texts.now component ≡ false)
        × (at + length (field_bytes (component_field texts.now component)) ≤ length out.old) }
    ensures { Put out.old at (field_bytes (component_field texts.now component)) result
        out.new }
{
    let len = component_len(texts, component);
    let start = put_head(out, at, COMPONENTS, len);
    put_component_fields(out, start, texts, component)
}
