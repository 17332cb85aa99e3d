// FirmwareInformation, the message within ApplyFirmware.
ghost use Rattle.std.specs.Prelude.{◌≡◌, ◌+◌, ◌≤◌, length};
ghost use Rattle.proto_field.specs.Fields.{told_found};
ghost use Rattle.proto_reader.specs.Gathered.{most_repeated};
ghost use Rattle.msg_firmware.specs.Component.{told_component};
ghost use Rattle.msg_firmware.specs.Information.{part_of_component, part_told, parts_from, is_other, component_of, laid, ComponentOnward, component_in, components_from, firmware_made, firmware_from, told_components, told_firmware};

use crate::component::{FirmwareComponent, component_from};
use proto_field::Refusal;
use proto_field::fields::{FoundField, new, next};
use proto_field::unsigned::low_unsigned;
use proto_field::value::{Part, Value};
use proto_field::varint::Placed;
use proto_reader::gathered::Gathered;
use proto_reader::reader::read_fields;
use proto_reader::refusal::MessageRefusal;
use proto_schema::{COMPONENTS, FIRST, SECOND, Schema, THIRD};

// Strings are parts of the lent message. The memory is fixed: of the eight components the first count are there; `bad_firmware` judges a larger count.
#[derive(Clone, Copy)]
pub struct FirmwareInformation {
    pub version: u32,
    pub name: Part,
    pub components: [FirmwareComponent; 8],
    pub count: usize,
    pub locale: Part,
    pub version_name: Part,
}

// The part of a component, if a field is one.
fn component_part(field: FoundField) -> Option<Part>
    ensures { part_told result ≡ part_of_component field.number field.value }
{
    match field.value {
        Value::Bytes(part) if field.number == COMPONENTS => Some(part),
        Value::Number(_) | Value::Bytes(_) | Value::Skipped(_) => None,
    }
}

// Whether what was found is a field that is no component.
fn is_other(found: Result<Option<FoundField>, Refusal>) -> bool
    ensures { result ≡ is_other (told_found found) }
{
    match found {
        Ok(Some(field)) => component_part(field).is_none(),
        Ok(None) | Err(_) => false,
    }
}

// What was found, if it is a component: its part and the place after it.
fn component_found(found: Result<Option<FoundField>, Refusal>) -> Option<Placed<Part>>
    ensures { result ≡ component_of (told_found found) }
{
    let field = found.ok()??;
    let part = component_part(field)?;
    Some(Placed {
        value: part,
        next: field.next,
    })
}

// The next component from a place on: the reader moves over the fields before it.
fn next_component(message: &[u8], from: usize) -> Option<Placed<Part>>
    ensures { (parts_from message.now from ≡ laid message.now result)
        × ComponentOnward message.now from result }
{
    let mut step = next(new(message, from));
    while is_other(step.found) {
        step = next(step.rest);
    }
    component_found(step.found)
}

// The component within a part of the message.
#[tactic(auto, unfolding(crate::specs::Information::component_in))]
fn component_in(message: &[u8], part: Part) -> Result<FirmwareComponent, MessageRefusal>
    requires { part.start + part.len ≤ length message.now }
    ensures { told_component result ≡ component_in message.now part }
{
    component_from(part.up_to_end(message), part.start)
}

// The components from a place to the end, one after another: how many come only the walk tells, so they are counted in it.
fn components_from(message: &[u8], from: usize) -> Result<[FirmwareComponent; 8], MessageRefusal>
    requires { length (parts_from message.now from) ≤ most_repeated }
    ensures { told_components result ≡ components_from message.now from }
{
    let none = FirmwareComponent::none();
    let mut components = [none; 8];
    let mut count = 0;
    let mut at = from;
    while let Some(component) = next_component(message, at) {
        components[count] = component_in(message, component.value)?;
        count += 1;
        at = component.next;
    }
    Ok(components)
}

// The information that was gathered, with its components.
fn firmware_made(gathered: Gathered, components: [FirmwareComponent; 8]) -> FirmwareInformation
    ensures { result ≡ firmware_made gathered components }
{
    let name = gathered.texts[FIRST];
    let locale = gathered.texts[SECOND];
    let version_name = gathered.texts[THIRD];
    FirmwareInformation {
        version: low_unsigned(gathered.scalars[FIRST]),
        name,
        components,
        count: gathered.count,
        locale,
        version_name,
    }
}

// The information from a place to the end. It is read through before its components.
#[tactic(auto, unfolding(crate::specs::Information::firmware_from))]
pub(crate) fn firmware_from(
    message: &[u8],
    at: usize,
) -> Result<FirmwareInformation, MessageRefusal>
    ensures { told_firmware result ≡ firmware_from message.now at }
{
    let gathered = read_fields(Schema::Firmware, message, at)?;
    let components = components_from(message, at)?;
    Ok(firmware_made(gathered, components))
}
