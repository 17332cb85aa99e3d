// The reply to a finished control transaction.
ghost use Rattle.std.specs.Prelude.{◌≡◌, []};
ghost use Rattle.c_rows.specs.Called.{called};
ghost use Rattle.c_reply.specs.Convert.{link_of, features_of, members_of};
ghost use Rattle.c_reply.specs.Calls.{reply_write_of};

use crate::convert::{features_for, few_signed, link_for, members_for, tell_reply};
use c_message_rows::convert::{WROTE_ANSWER, signed_list};
use c_rows::row::UNFIT;
use msg_device::information::InformationToWrite;
use reply::write_reply;
use reply_parts::body::OwnBox;

// Writes the reply to a message. Transports that are too many or no signed numbers stand for nine, which is out of range
// where the reply carries them.
pub fn pito_reply_write(
    message: &[u8],
    serial_number: &[u8],
    name: &[u8],
    device_type: &[u8],
    transports: &[u64],
    features: u64,
    device_attributes: u64,
    information_member: u64,
    features_member: u64,
    room: u64,
    limit: u64,
    id: u64,
    sequence: u64,
    output: &mut [u8],
    answer: &mut [u64],
) -> u64
    ensures { called result [] output.new answer.new
        ≡ reply_write_of message.now serial_number.now name.now device_type.now
        transports.now (features_of features device_attributes) (members_of information_member features_member)
        (link_of room limit id sequence) output.old answer.old }
{
    if answer.len() != WROTE_ANSWER {
        return UNFIT;
    }
    let features = features_for(features, device_attributes);
    let members = members_for(information_member, features_member);
    let link = link_for(room, limit, id, sequence);
    if few_signed(transports) {
        let list = signed_list(transports);
        let information = InformationToWrite {
            serial_number,
            name,
            transports: &list[..transports.len()],
            device_type,
        };
        let own = OwnBox {
            information,
            features,
            members,
        };
        let reply = write_reply(output, message, own, link);
        return tell_reply(answer, reply);
    }
    let nine = [0i32; 9];
    let information = InformationToWrite {
        serial_number,
        name,
        transports: &nine,
        device_type,
    };
    let own = OwnBox {
        information,
        features,
        members,
    };
    let reply = write_reply(output, message, own, link);
    tell_reply(answer, reply)
}
