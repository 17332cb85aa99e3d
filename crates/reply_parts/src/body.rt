// The kinds of replies, and the bytes of the response's member.
ghost use Rattle.std.specs.Prelude.{◌≡◌, ◌≤◌, length, Some};
ghost use Rattle.std.proofs.lemmas.List.Edits.{sets};
ghost use Rattle.proto_field.specs.Signed.{extended};
ghost use Rattle.proto_writer.specs.Message.{less_room};
ghost use Rattle.proto_strings.specs.Texts.{first_fault};
ghost use Rattle.reply_parts.specs.Body.{kind_of_command, code_of, body_lent, strings_lent};
ghost use Rattle.reply_parts.specs.Body.{FewCarried};

use msg_device::features::{DeviceFeatures, features_len, put_features};
use msg_device::information::{
    InformationToWrite, information_fault, information_room, put_information,
};
use proto_strings::TextFault;

// The numbers of the response's members, from Amazon's schema.
#[derive(Clone, Copy)]
pub struct Members {
    pub information: u64,
    pub features: u64,
}

// What a device says of itself, and the numbers of the members that say it.
#[derive(Clone, Copy)]
pub struct OwnBox<'a> {
    pub information: InformationToWrite<'a>,
    pub features: DeviceFeatures,
    pub members: Members,
}

// What a command asks for.
#[derive(Clone, Copy)]
pub enum CommandKind {
    Information,
    Features,
    Bare,
    Other,
}

// The commands that get an answer.
const DEVICE_INFORMATION: u64 = 20;

const DEVICE_FEATURES: u64 = 28;

const UPDATE_COMPONENT_SEGMENT: u64 = 94;

const APPLY_FIRMWARE: u64 = 95;

// The error code of a command that is not supported.
const UNSUPPORTED: u64 = 3;

// By the varint's value of the command.
#[tactic(auto, unfolding(crate::specs::Body::kind_of_command))]
pub fn kind_of_command(value: u64) -> CommandKind
    ensures { result ≡ kind_of_command value }
{
    match value {
        DEVICE_INFORMATION => CommandKind::Information,
        DEVICE_FEATURES => CommandKind::Features,
        UPDATE_COMPONENT_SEGMENT => CommandKind::Bare,
        APPLY_FIRMWARE => CommandKind::Bare,
        _ => CommandKind::Other,
    }
}

// The varint's value of the error code.
pub fn code_of(kind: CommandKind) -> u64
    ensures { result ≡ extended (code_of kind) }
{
    match kind {
        CommandKind::Information => 0,
        CommandKind::Features => 0,
        CommandKind::Bare => 0,
        CommandKind::Other => UNSUPPORTED,
    }
}

// The first string that is carried and not well formed.
pub fn fault_of(kind: CommandKind, own: OwnBox) -> Result<(), TextFault>
    ensures { result ≡ first_fault (strings_lent own.entry kind) }
{
    match kind {
        CommandKind::Information => information_fault(own.information),
        CommandKind::Features => Ok(()),
        CommandKind::Bare => Ok(()),
        CommandKind::Other => Ok(()),
    }
}

// The room that the member's bytes leave: what does not fit the limit is never added up.
pub fn body_room(limit: usize, kind: CommandKind, own: OwnBox) -> Option<usize>
    requires { FewCarried kind own.information.transports.now }
    ensures { result ≡ less_room (length (body_lent own.entry kind)) (Some limit) }
{
    match kind {
        CommandKind::Information => information_room(limit, own.information),
        CommandKind::Features => limit.checked_sub(features_len(own.features)),
        CommandKind::Bare => Some(limit),
        CommandKind::Other => Some(limit),
    }
}

// The member's bytes, written from the first byte on.
pub fn put_body(out: &mut [u8], kind: CommandKind, own: OwnBox)
    requires { FewCarried kind own.information.transports.now
        × (length (body_lent own kind) ≤ length out.old) }
    ensures { out.new ≡ sets out.old 0 (body_lent own.entry kind) }
{
    match kind {
        CommandKind::Information => {
            put_information(out, own.information);
        }
        CommandKind::Features => {
            put_features(out, own.features);
        }
        CommandKind::Bare => {}
        CommandKind::Other => {}
    }
}
