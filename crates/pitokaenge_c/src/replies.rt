// The reply to a finished control transaction.
ghost use Rattle.std.specs.Prelude.{◌≡◌, []};
ghost use Rattle.c_reply.specs.Calls.{reply_write_of};
ghost use Rattle.c_reply.specs.Convert.{link_of, features_of, members_of};
ghost use Rattle.c_rows.specs.Called.{called};

// Writes the reply to a message. Transports that are too many or no signed numbers stand for nine, which is out of range
// where the reply carries them.
#[unsafe(no_mangle)]
pub extern "C" fn pito_reply_write(
    message: &[u8],
    serial_number: &[u8],
    name: &[u8],
    device_type: &[u8],
    transports: &[u64],
    features: u64,
    device_attributes: u64,
    information_member: u64,
    features_member: u64,
    room: u64,
    limit: u64,
    id: u64,
    sequence: u64,
    output: &mut [u8],
    answer: &mut [u64],
) -> u64
    ensures { called result [] output.new answer.new
        ≡ reply_write_of message.now serial_number.now name.now device_type.now
        transports.now (features_of features device_attributes) (members_of information_member features_member)
        (link_of room limit id sequence) output.old answer.old }
{
    c_reply::calls::pito_reply_write(
        message,
        serial_number,
        name,
        device_type,
        transports,
        features,
        device_attributes,
        information_member,
        features_member,
        room,
        limit,
        id,
        sequence,
        output,
        answer,
    )
}
