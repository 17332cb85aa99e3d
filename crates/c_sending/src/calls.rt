// Sending over Low Energy for C: the packets of a message, ACK and NACK.
ghost use Rattle.std.specs.Prelude.{◌≡◌, []};
ghost use Rattle.c_sending.specs.Convert.{sending_of};
ghost use Rattle.c_rows.specs.Called.{called};
ghost use Rattle.c_sending.specs.Calls.{packet_write_of, ack_write_of};

use crate::convert::{PACKET_ANSWER, WISHED, packet_row, sending, stream_with};
use ble_sender::writer::write_packet;
use c_rows::row::{COUNT_ANSWER, Count, OUT_OF_RANGE, UNFIT, byte_or, number_of_result, put, tell};

// Writes the packet of a message whose piece begins at a place, for a link with a limit.
pub fn pito_packet_write(
    room: u64,
    limit: u64,
    stream: u64,
    id: u64,
    sequence: u64,
    ack: u64,
    message: &[u8],
    place: u64,
    output: &mut [u8],
    answer: &mut [u64],
) -> u64
    ensures { called result [] output.new answer.new
        ≡ packet_write_of limit (sending_of room stream id sequence ack) message.now place output.old
        answer.old }
{
    if answer.len() != PACKET_ANSWER {
        return UNFIT;
    }
    let how = sending(room, stream, id, sequence, ack);
    let outcome = write_packet(how, limit as usize, message, place as usize, output);
    let number = number_of_result(&outcome);
    let row = packet_row(outcome, message.len());
    put(answer, number, &row);
    number
}

// Writes an ACK, or a NACK where positive is 0.
pub fn pito_ack_write(
    stream: u64,
    id: u64,
    sequence: u64,
    positive: u64,
    output: &mut [u8],
    answer: &mut [u64],
) -> u64
    ensures { called result [] output.new answer.new
        ≡ ack_write_of stream id sequence positive output.old answer.old }
{
    if answer.len() != COUNT_ANSWER {
        return UNFIT;
    }
    let known = stream_with(positive, stream);
    let low_id = byte_or(OUT_OF_RANGE, id);
    let low_sequence = byte_or(OUT_OF_RANGE, sequence);
    let outcome = ble_ack::write(known, low_id, low_sequence, positive == WISHED, output);
    tell(answer, Count::told(outcome))
}
