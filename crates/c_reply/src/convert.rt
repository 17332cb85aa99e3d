// The reply: what its writer is given by numbers, and what it answers.
ghost use Rattle.std.specs.Prelude.{◌≡◌, length};
ghost use Rattle.proto_reader.specs.Refusal.{number_more};
ghost use Rattle.reply.specs.Put.{told};
ghost use Rattle.c_rows.specs.Row.{afterwards};
ghost use Rattle.c_reply.specs.Convert.{link_of, features_of, members_of, few_signed, reply_row};

use c_message_rows::convert::{all_signed, tell_wrote};
use c_rows::row::{OUT_OF_RANGE, byte_or};
use msg_device::features::DeviceFeatures;
use proto_reader::gathered::MOST_TRANSPORTS;
use reply::{Link, Refusal};
use reply_parts::body::Members;

// A number above 255 counts as one that is out of range.
pub fn link_for(room: u64, limit: u64, id: u64, sequence: u64) -> Link
    ensures { result ≡ link_of room limit id sequence }
{
    Link {
        room: room as usize,
        limit: limit as usize,
        id: byte_or(OUT_OF_RANGE, id),
        sequence: byte_or(OUT_OF_RANGE, sequence),
    }
}

pub fn features_for(features: u64, device_attributes: u64) -> DeviceFeatures
    ensures { result ≡ features_of features device_attributes }
{
    DeviceFeatures {
        features,
        device_attributes,
    }
}

pub fn members_for(information: u64, features: u64) -> Members
    ensures { result ≡ members_of information features }
{
    Members {
        information,
        features,
    }
}

// Whether a row has at most eight numbers, all of them signed ones of 32 bits.
pub fn few_signed(row: &[u64]) -> bool
    ensures { result ≡ few_signed row.now }
{
    if MOST_TRANSPORTS < row.len() {
        return false;
    }
    all_signed(row)
}

// Tells of a reply in an answer row, and returns its number. No reply has no bytes.
pub fn tell_reply(answer: &mut [u64], reply: Result<Option<usize>, Refusal>) -> u64
    requires { length answer.old ≡ 3 }
    ensures { (result ≡ number_more (told reply))
        × (answer.new ≡ afterwards (number_more (told reply)) answer.old (reply_row (told reply))) }
{
    match reply {
        Ok(sent) => tell_wrote(answer, Ok::<usize, Refusal>(sent.unwrap_or(0))),
        Err(why) => tell_wrote(answer, Err::<usize, Refusal>(why)),
    }
}
