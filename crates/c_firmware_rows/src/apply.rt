// ApplyFirmware as a row: what its reader tells, and what its writer is given.
ghost use Rattle.std.specs.Prelude.{◌≡◌, ◌+◌, ◌≤◌, length};
ghost use Rattle.std.proofs.lemmas.List.Edits.{sets};
ghost use Rattle.proto_reader.specs.Gathered.{most_repeated};
ghost use Rattle.msg_firmware.specs.Apply.{told_apply};
ghost use Rattle.c_rows.specs.Row.{afterwards};
ghost use Rattle.c_firmware_rows.specs.Apply.{row_size, answer_size, first_component, component_row, component_rows, head_row, apply_row, part_at, component_at, components_at, apply_at, wide_at, any_wide, bad_row};

use crate::segment::is_wide;
use c_message_rows::convert::fault_of;
use c_rows::row::{UNFIT, fill, number_at};
use msg_firmware::apply::ApplyFirmware;
use msg_firmware::component::FirmwareComponent;
use msg_firmware::information::FirmwareInformation;
use proto_field::unsigned::low_unsigned;
use proto_field::value::Part;
use proto_reader::gathered::MOST_REPEATED;
use proto_reader::refusal::MessageRefusal;
use wire::bytes::bit64;
use wire::logic::either;

// The numbers of the row, and of the answer that tells also the field and the place that go with a refusal; the place of the first component, and the numbers of each.
pub const APPLY_ROW: usize = 57;

pub const APPLY_ANSWER: usize = 59;

const FIRST_COMPONENT: usize = 9;

const COMPONENT_NUMBERS: usize = 6;

// ---- what was read

fn component_row(component: FirmwareComponent) -> [u64; 6]
    ensures { result ≡ component_row component }
{
    let name = component.name;
    let signature = component.signature;
    [
        component.version as u64,
        name.start as u64,
        name.len as u64,
        component.size as u64,
        signature.start as u64,
        signature.len as u64,
    ]
}

// The numbers before the components.
fn head_row(apply: ApplyFirmware) -> [u64; 9]
    ensures { result ≡ head_row apply }
{
    let information = apply.firmware_information;
    let name = information.name;
    let locale = information.locale;
    let version_name = information.version_name;
    let restart = bit64(apply.restart_required);
    [
        restart,
        information.version as u64,
        name.start as u64,
        name.len as u64,
        locale.start as u64,
        locale.len as u64,
        version_name.start as u64,
        version_name.len as u64,
        information.count as u64,
    ]
}

// Writes the components, each from its place on.
fn fill_components(row: &mut [u64], components: [FirmwareComponent; 8])
    requires { length row.old ≡ answer_size }
    ensures row_after { row.new ≡ sets row.old first_component (component_rows components) }
    ensures components_len { length components ≡ most_repeated }
{
    for i in 0..MOST_REPEATED {
        let numbers = component_row(components[i]);
        fill(row, FIRST_COMPONENT + COMPONENT_NUMBERS * i, &numbers);
    }
}

// Writes the whole row, part by part, unless the call is refused by 1.
pub fn put_apply(row: &mut [u64], number: u64, read: Result<ApplyFirmware, MessageRefusal>)
    requires { length row.old ≡ answer_size }
    ensures { row.new ≡ afterwards number row.old (apply_row (told_apply read)) }
{
    if number == UNFIT {
        return;
    }
    match read {
        Ok(apply) => {
            let head = head_row(apply);
            fill(row, 0, &head);
            fill_components(row, apply.firmware_information.components);
            fill(row, APPLY_ROW, &[0u64; 2]);
        }
        Err(why) => {
            fill(row, 0, &[0u64; 57]);
            let fault = fault_of(why);
            fill(row, APPLY_ROW, &fault);
        }
    }
}

// ---- what the writer is given

// The part whose numbers begin at a place.
fn part_at(row: &[u64], at: usize) -> Part
    requires { at ≤ row_size }
    ensures { result ≡ part_at row.now at }
{
    let start = number_at(row, at);
    let len = number_at(row, at + 1);
    Part {
        start: start as usize,
        len: len as usize,
    }
}

// The component whose numbers begin at a place.
fn component_at(row: &[u64], at: usize) -> FirmwareComponent
    requires { at + 4 ≤ row_size }
    ensures { result ≡ component_at row.now at }
{
    let name = part_at(row, at + 1);
    let signature = part_at(row, at + 4);
    FirmwareComponent {
        version: low_unsigned(number_at(row, at)),
        name,
        size: low_unsigned(number_at(row, at + 3)),
        signature,
    }
}

// The eight components.
fn components_at(row: &[u64]) -> [FirmwareComponent; 8]
    ensures { result ≡ components_at most_repeated row.now first_component }
{
    let first = component_at(row, FIRST_COMPONENT);
    let mut components = [first; 8];
    for i in 0..MOST_REPEATED {
        components[i] = component_at(row, FIRST_COMPONENT + COMPONENT_NUMBERS * i);
    }
    components
}

// The message of a row's numbers.
pub fn apply_at(row: &[u64]) -> ApplyFirmware
    ensures { result ≡ apply_at row.now }
{
    let name = part_at(row, 2);
    let locale = part_at(row, 4);
    let version_name = part_at(row, 6);
    let components = components_at(row);
    let firmware_information = FirmwareInformation {
        version: low_unsigned(number_at(row, 1)),
        name,
        components,
        count: number_at(row, 8) as usize,
        locale,
        version_name,
    };
    ApplyFirmware {
        firmware_information,
        restart_required: number_at(row, 0) == 1,
    }
}

// Whether the component at a place has a number above 32 bits.
fn wide_at(row: &[u64], at: usize) -> bool
    requires { at + 4 ≤ row_size }
    ensures { result ≡ wide_at row.now at }
{
    either(is_wide(number_at(row, at)), is_wide(number_at(row, at + 3)))
}

// Whether one of the first components has.
fn any_wide(row: &[u64], count: usize) -> bool
    requires { count ≤ most_repeated }
    ensures { result ≡ any_wide count row.now first_component }
{
    for i in 0..count {
        if wide_at(row, FIRST_COMPONENT + COMPONENT_NUMBERS * i) {
            return true;
        }
    }
    false
}

// Whether no message has a row's numbers.
pub fn bad_row(row: &[u64]) -> bool
    ensures { result ≡ bad_row row.now }
{
    if 1 < number_at(row, 0) {
        return true;
    }
    if is_wide(number_at(row, 1)) {
        return true;
    }
    let count = number_at(row, 8) as usize;
    if MOST_REPEATED < count {
        return true;
    }
    any_wide(row, count)
}
