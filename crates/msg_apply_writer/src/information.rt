// FirmwareInformation written.
ghost use Rattle.std.specs.Prelude.{◌≡◌, true, false, map, ◌+◌, ◌≤◌, length, Some};
ghost use Rattle.wire.specs.Scan.{any_in_range};
ghost use Rattle.wire.specs.Put.{Put};
ghost use Rattle.proto_writer.specs.Writer.{message_bytes};
ghost use Rattle.proto_writer.specs.Message.{less_room};
ghost use Rattle.msg_component_writer.specs.Component.{component_field};
ghost use Rattle.msg_apply_writer.specs.Information.{bad_components, bad_firmware, components_strings, firmware_strings, firmware_fields};
ghost use Rattle.proto_strings.specs.Texts.{first_fault};

use msg_component_writer::{
    bad_component, check_component, check_text_part, is_outside, put_component, put_text_part,
    room_after_component, text_part_len,
};
use msg_firmware::component::FirmwareComponent;
use msg_firmware::information::FirmwareInformation;
use proto_reader::gathered::MOST_REPEATED;
use proto_schema::{FIRMWARE_NAME, FIRMWARE_VERSION, LOCALE, VERSION_NAME};
use proto_strings::TextFault;
use proto_writer::fields::{put_scalar, scalar_len};
use utf8::check::{FIRST_ABOVE, LAST_ABOVE};
use wire::scan::clear_run;

// The most bytes of texts that are looked through at once.
const MOST_LOOKED_THROUGH: usize = 1024;

// Whether a part of a component does not lie within the texts.
fn bad_components(texts: &[u8], components: &[FirmwareComponent]) -> bool
    ensures { result ≡ bad_components texts.now components.now }
{
    for component in components {
        if bad_component(texts, *component) {
            return true;
        }
    }
    false
}

// Whether there are too many components, or a part does not lie within the texts.
pub(crate) fn bad_firmware(texts: &[u8], information: FirmwareInformation) -> bool
    ensures { result ≡ bad_firmware texts.now information }
{
    let count = information.count;
    if MOST_REPEATED < count {
        return true;
    }
    if is_outside(texts, information.name) {
        return true;
    }
    if bad_components(texts, &information.components[..count]) {
        return true;
    }
    if is_outside(texts, information.locale) {
        return true;
    }
    is_outside(texts, information.version_name)
}

// Whether the components' strings are well formed.
fn components_fault(texts: &[u8], components: &[FirmwareComponent]) -> Result<(), TextFault>
    requires { bad_components texts.now components.now ≡ false }
    ensures { result ≡ first_fault (components_strings texts.now components.now) }
{
    for component in components {
        check_component(texts, *component)?;
    }
    Ok(())
}

// Whether the texts are ASCII, so that each part of them is well formed. Longer ones are not looked through: they may be much more than their parts.
fn all_ascii(texts: &[u8]) -> bool
    ensures { result ≡ true → any_in_range 128 255 texts.now ≡ false }
{
    if MOST_LOOKED_THROUGH < texts.len() {
        return false;
    }
    clear_run(texts, FIRST_ABOVE, LAST_ABOVE) == texts.len()
}

// The first string of firmware information, in writing order, that is not well formed.
pub(crate) fn firmware_fault(
    texts: &[u8],
    information: FirmwareInformation,
) -> Result<(), TextFault>
    requires { bad_firmware texts.now information ≡ false }
    ensures { result ≡ first_fault (firmware_strings texts.now information) }
{
    if all_ascii(texts) {
        return Ok(());
    }
    check_text_part(texts, FIRMWARE_NAME, information.name)?;
    components_fault(texts, &information.components[..information.count])?;
    check_text_part(texts, LOCALE, information.locale)?;
    check_text_part(texts, VERSION_NAME, information.version_name)
}

// The room that the components leave.
fn components_room(len: usize, texts: &[u8], components: &[FirmwareComponent]) -> Option<usize>
    requires { bad_components texts.now components.now ≡ false }
    ensures { result
        ≡ less_room (length (message_bytes (map (component_field texts.now) components.now))) (Some len) }
{
    let mut left = len;
    for component in components {
        left = room_after_component(left, texts, *component)?;
    }
    Some(left)
}

// The room that the fields of firmware information leave in an output of this length.
pub(crate) fn firmware_room(
    len: usize,
    texts: &[u8],
    information: FirmwareInformation,
) -> Option<usize>
    requires { bad_firmware texts.now information ≡ false }
    ensures { result
        ≡ less_room (length (message_bytes (firmware_fields texts.now information))) (Some len) }
{
    let before = len
        .checked_sub(scalar_len(FIRMWARE_VERSION, information.version as u64))?
        .checked_sub(text_part_len(texts, FIRMWARE_NAME, information.name))?;
    components_room(before, texts, &information.components[..information.count])?
        .checked_sub(text_part_len(texts, LOCALE, information.locale))?
        .checked_sub(text_part_len(texts, VERSION_NAME, information.version_name))
}

// The components, written at a place; the answer is the place after them.
fn put_components(
    out: &mut [u8],
    from: usize,
    texts: &[u8],
    components: &[FirmwareComponent],
) -> usize
    requires { (bad_components texts.now components.now ≡ false)
        × (from + length (message_bytes (map (component_field texts.now) components.now)) ≤ length out.old) }
    ensures { Put out.old from
        (message_bytes (map (component_field texts.now) components.now)) result out.new }
{
    let mut at = from;
    for component in components {
        at = put_component(out, at, texts, *component);
    }
    at
}

// The fields of firmware information, written at a place; the answer is the place after them.
pub(crate) fn put_firmware(
    out: &mut [u8],
    at: usize,
    texts: &[u8],
    information: FirmwareInformation,
) -> usize
    requires { (bad_firmware texts.now information ≡ false)
        × (at + length (message_bytes (firmware_fields texts.now information)) ≤ length out.old) }
    ensures { Put out.old at (message_bytes (firmware_fields texts.now information)) result
        out.new }
{
    let second = put_scalar(out, at, FIRMWARE_VERSION, information.version as u64);
    let third = put_text_part(out, second, texts, FIRMWARE_NAME, information.name);
    let fourth = put_components(
        out,
        third,
        texts,
        &information.components[..information.count],
    );
    let fifth = put_text_part(out, fourth, texts, LOCALE, information.locale);
    put_text_part(out, fifth, texts, VERSION_NAME, information.version_name)
}
