// What each message makes of a field: the table of known fields.
#![tactic(auto, unfolding(crate::specs::Schema::role_of))]

ghost use Rattle.std.specs.Prelude.{◌≡◌};
ghost use Rattle.proto_schema.specs.Schema.{role_of, fits_role, is_member, is_repeated};

use proto_field::tag::{LENGTH, VARINT};

// No field has this number.
pub const NO_FIELD: u64 = 0;

// The fields of an envelope and of a response.
pub const COMMAND: u64 = 1;

pub const RESPONSE: u64 = 9;

pub const ERROR_CODE: u64 = 1;
// The fields of device information.
pub const SERIAL_NUMBER: u64 = 1;

pub const NAME: u64 = 2;

pub const TRANSPORTS: u64 = 3;

pub const DEVICE_TYPE: u64 = 4;
// The fields of device features.
pub const FEATURES: u64 = 1;

pub const DEVICE_ATTRIBUTES: u64 = 2;
// The fields of an update component segment.
pub const COMPONENT_NAME: u64 = 1;

pub const COMPONENT_OFFSET: u64 = 2;

pub const SEGMENT_SIZE: u64 = 3;

pub const SEGMENT_SIGNATURE: u64 = 4;
// The fields of an apply firmware.
pub const FIRMWARE_INFORMATION: u64 = 1;

pub const RESTART_REQUIRED: u64 = 2;
// The fields of firmware information.
pub const FIRMWARE_VERSION: u64 = 1;

pub const FIRMWARE_NAME: u64 = 2;

pub const COMPONENTS: u64 = 3;

pub const LOCALE: u64 = 4;

pub const VERSION_NAME: u64 = 5;
// The fields of a firmware component.
pub const FIRMWARE_COMPONENT_VERSION: u64 = 1;

pub const FIRMWARE_COMPONENT_NAME: u64 = 2;

pub const FIRMWARE_COMPONENT_SIZE: u64 = 3;

pub const FIRMWARE_COMPONENT_SIGNATURE: u64 = 4;
// Where scalars and strings are kept.
pub const FIRST: usize = 0;

pub const SECOND: usize = 1;

pub const THIRD: usize = 2;

#[derive(Clone, Copy, Debug, PartialEq, Eq)]
pub enum Schema {
    Envelope,
    Response,
    Information,
    Features,
    Segment,
    Apply,
    Firmware,
    Component,
}

// What a field is to its message.
#[derive(Clone, Copy, Debug, PartialEq, Eq)]
pub enum Role {
    // A scalar, kept at an index among the scalars.
    Scalar(usize),
    // A string, kept at an index among the strings.
    Text(usize),
    // Transports, one or a packed list.
    Transports,
    // A message within, known by its number: the member.
    Nested,
    // A message within that may be repeated: they are counted.
    Repeated,
    // Any other field: the member where it is length-delimited, and passed over where not.
    Member,
    // Passed over.
    Unknown,
}

fn envelope_role(field: u64) -> Role
    ensures { result ≡ role_of Schema.Envelope field }
{
    match field {
        COMMAND => Role::Scalar(FIRST),
        RESPONSE => Role::Nested,
        _ => Role::Member,
    }
}

fn response_role(field: u64) -> Role
    ensures { result ≡ role_of Schema.Response field }
{
    match field {
        ERROR_CODE => Role::Scalar(FIRST),
        _ => Role::Member,
    }
}

fn information_role(field: u64) -> Role
    ensures { result ≡ role_of Schema.Information field }
{
    match field {
        SERIAL_NUMBER => Role::Text(FIRST),
        NAME => Role::Text(SECOND),
        TRANSPORTS => Role::Transports,
        DEVICE_TYPE => Role::Text(THIRD),
        _ => Role::Unknown,
    }
}

fn features_role(field: u64) -> Role
    ensures { result ≡ role_of Schema.Features field }
{
    match field {
        FEATURES => Role::Scalar(FIRST),
        DEVICE_ATTRIBUTES => Role::Scalar(SECOND),
        _ => Role::Unknown,
    }
}

fn segment_role(field: u64) -> Role
    ensures { result ≡ role_of Schema.Segment field }
{
    match field {
        COMPONENT_NAME => Role::Text(FIRST),
        COMPONENT_OFFSET => Role::Scalar(FIRST),
        SEGMENT_SIZE => Role::Scalar(SECOND),
        SEGMENT_SIGNATURE => Role::Text(SECOND),
        _ => Role::Unknown,
    }
}

fn apply_role(field: u64) -> Role
    ensures { result ≡ role_of Schema.Apply field }
{
    match field {
        FIRMWARE_INFORMATION => Role::Nested,
        RESTART_REQUIRED => Role::Scalar(FIRST),
        _ => Role::Unknown,
    }
}

fn firmware_role(field: u64) -> Role
    ensures { result ≡ role_of Schema.Firmware field }
{
    match field {
        FIRMWARE_VERSION => Role::Scalar(FIRST),
        FIRMWARE_NAME => Role::Text(FIRST),
        COMPONENTS => Role::Repeated,
        LOCALE => Role::Text(SECOND),
        VERSION_NAME => Role::Text(THIRD),
        _ => Role::Unknown,
    }
}

fn component_role(field: u64) -> Role
    ensures { result ≡ role_of Schema.Component field }
{
    match field {
        FIRMWARE_COMPONENT_VERSION => Role::Scalar(FIRST),
        FIRMWARE_COMPONENT_NAME => Role::Text(FIRST),
        FIRMWARE_COMPONENT_SIZE => Role::Scalar(SECOND),
        FIRMWARE_COMPONENT_SIGNATURE => Role::Text(SECOND),
        _ => Role::Unknown,
    }
}

// What a field is to a message.
pub fn role_of(schema: Schema, field: u64) -> Role
    ensures { result ≡ role_of schema field }
{
    match schema {
        Schema::Envelope => envelope_role(field),
        Schema::Response => response_role(field),
        Schema::Information => information_role(field),
        Schema::Features => features_role(field),
        Schema::Segment => segment_role(field),
        Schema::Apply => apply_role(field),
        Schema::Firmware => firmware_role(field),
        Schema::Component => component_role(field),
    }
}

// Whether a field of this role may have this wire type.
pub fn fits_role(role: Role, wire: u64) -> bool
    ensures { result ≡ fits_role role wire }
{
    match role {
        Role::Scalar(_) => wire == VARINT,
        Role::Transports => matches!(wire, VARINT | LENGTH),
        Role::Text(_) | Role::Nested | Role::Repeated => wire == LENGTH,
        Role::Member | Role::Unknown => true,
    }
}

// Whether a field of this role and wire type is the member.
pub fn is_member(role: Role, wire: u64) -> bool
    ensures { result ≡ is_member role wire }
{
    matches!(role, Role::Nested | Role::Member) && wire == LENGTH
}

// Whether a field of this role is counted.
pub fn is_repeated(role: Role) -> bool
    ensures { result ≡ is_repeated role }
{
    role == Role::Repeated
}
