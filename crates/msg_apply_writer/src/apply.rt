// ApplyFirmware written.
ghost use Rattle.std.specs.Prelude.{◌≡◌, false, ◌+◌};
ghost use Rattle.wire.specs.Told.{written};
ghost use Rattle.proto_writer.specs.Message.{writes_message, told_wrote};
ghost use Rattle.proto_strings.specs.Texts.{told_text_wrote};
ghost use Rattle.msg_apply_writer.specs.Apply.{apply_fields, apply_written};
ghost use Rattle.msg_apply_writer.specs.Information.{bad_firmware};

use crate::information::{bad_firmware, firmware_fault, firmware_room, put_firmware};
use msg_firmware::apply::ApplyFirmware;
use proto_schema::{FIRMWARE_INFORMATION, RESTART_REQUIRED};
use proto_strings::TextWriteRefusal;
use proto_writer::fields::{head_len, put_head, put_scalar, scalar_len};
use proto_writer::message::WriteRefusal;
use wire::bytes::bit64;

// ApplyFirmware whatever its strings are. That its parts lie within the texts was judged before.
fn fill_apply(out: &mut [u8], apply: ApplyFirmware, texts: &[u8]) -> Result<usize, WriteRefusal>
    requires { bad_firmware texts.now apply.firmware_information ≡ false }
    ensures { written (told_wrote result) out.new
        ≡ writes_message (bad_firmware texts.now apply.firmware_information)
        (apply_fields texts.now apply) out.old }
{
    let information = apply.firmware_information;
    let restart = bit64(apply.restart_required);
    let room = out.len();
    let Some(rest) = firmware_room(room, texts, information) else {
        return Err(WriteRefusal::NoRoom);
    };
    let len = room - rest;
    let around = head_len(FIRMWARE_INFORMATION, len) + scalar_len(RESTART_REQUIRED, restart);
    if rest < around {
        return Err(WriteRefusal::NoRoom);
    }
    let start = put_head(out, 0, FIRMWARE_INFORMATION, len);
    let next = put_firmware(out, start, texts, information);
    Ok(put_scalar(out, next, RESTART_REQUIRED, restart))
}

// Writes ApplyFirmware. Its strings are parts of the lent texts, which stand beside it: C lends the row and the texts apart
// (pito_apply_write).
pub fn write_apply(
    out: &mut [u8],
    apply: ApplyFirmware,
    texts: &[u8],
) -> Result<usize, TextWriteRefusal>
    ensures { written (told_text_wrote result) out.new
        ≡ apply_written apply texts.now out.old }
{
    let information = apply.firmware_information;
    if bad_firmware(texts, information) {
        return Err(TextWriteRefusal::Refused(WriteRefusal::BadArgument));
    }
    firmware_fault(texts, information)?;
    Ok(fill_apply(out, apply, texts)?)
}
