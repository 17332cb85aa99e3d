// ApplyFirmware: the firmware that is to be used, and whether to restart.
ghost use Rattle.std.specs.Prelude.{◌≡◌, ◌+◌, ◌≤◌, length, IfOk};
ghost use Rattle.msg_firmware.specs.Information.{told_firmware};
ghost use Rattle.msg_firmware.specs.Apply.{firmware_in, apply_of, told_apply, InsideMessage};

use crate::information::{FirmwareInformation, firmware_from};
use proto_field::value::Part;
use proto_reader::reader::read_fields;
use proto_reader::refusal::MessageRefusal;
use proto_schema::{FIRST, Schema};

#[derive(Clone, Copy)]
pub struct ApplyFirmware {
    pub firmware_information: FirmwareInformation,
    pub restart_required: bool,
}

// The firmware information within a part of the message.
#[tactic(auto, unfolding(crate::specs::Apply::firmware_in))]
fn firmware_in(message: &[u8], part: Part) -> Result<FirmwareInformation, MessageRefusal>
    requires { part.start + part.len ≤ length message.now }
    ensures { told_firmware result ≡ firmware_in message.now part }
{
    firmware_from(part.up_to_end(message), part.start)
}

// ApplyFirmware. It is read through before its firmware information.
#[tactic(auto, unfolding(crate::specs::Apply::apply_of))]
pub fn read_apply(message: &[u8]) -> Result<ApplyFirmware, MessageRefusal>
    ensures result_value { told_apply result ≡ apply_of message.now }
    ensures inside_message { IfOk result (λ a. InsideMessage message.now a) }
{
    let gathered = read_fields(Schema::Apply, message, 0)?;
    let firmware_information = firmware_in(message, gathered.part)?;
    Ok(ApplyFirmware {
        firmware_information,
        restart_required: gathered.scalars[FIRST] != 0,
    })
}
