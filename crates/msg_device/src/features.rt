// Device features.
ghost use Rattle.std.specs.Prelude.{◌≡◌, ◌≤◌, length};
ghost use Rattle.wire.specs.Told.{written};
ghost use Rattle.wire.specs.Put.{Put};
ghost use Rattle.proto_writer.specs.Writer.{message_bytes};
ghost use Rattle.msg_device.specs.Features.{features_of, told_features, features_fields, features_written};
ghost use Rattle.proto_writer.specs.Message.{told_wrote};

use proto_reader::reader::read_fields;
use proto_reader::refusal::MessageRefusal;
use proto_schema::{DEVICE_ATTRIBUTES, FEATURES, FIRST, SECOND, Schema};
use proto_writer::fields::{put_scalar, scalar_len};
use proto_writer::message::WriteRefusal;

#[derive(Clone, Copy)]
pub struct DeviceFeatures {
    pub features: u64,
    pub device_attributes: u64,
}

// Device features.
#[tactic(auto, unfolding(crate::specs::Features::features_of))]
pub fn read_features(message: &[u8]) -> Result<DeviceFeatures, MessageRefusal>
    ensures { told_features result ≡ features_of message.now }
{
    let gathered = read_fields(Schema::Features, message, 0)?;
    Ok(DeviceFeatures {
        features: gathered.scalars[FIRST],
        device_attributes: gathered.scalars[SECOND],
    })
}

// The number of bytes of device features.
pub fn features_len(features: DeviceFeatures) -> usize
    ensures { result ≡ length (message_bytes (features_fields features)) }
{
    scalar_len(FEATURES, features.features)
        + scalar_len(DEVICE_ATTRIBUTES, features.device_attributes)
}

// Device features, written from the first byte on; the answer is the place after them.
pub fn put_features(out: &mut [u8], features: DeviceFeatures) -> usize
    requires { length (message_bytes (features_fields features)) ≤ length out.old }
    ensures { Put out.old 0 (message_bytes (features_fields features)) result out.new }
{
    let next = put_scalar(out, 0, FEATURES, features.features);
    put_scalar(out, next, DEVICE_ATTRIBUTES, features.device_attributes)
}

// Writes device features.
pub fn write_features(out: &mut [u8], features: DeviceFeatures) -> Result<usize, WriteRefusal>
    ensures { written (told_wrote result) out.new ≡ features_written features out.old }
{
    if out.len() < features_len(features) {
        return Err(WriteRefusal::NoRoom);
    }
    Ok(put_features(out, features))
}
