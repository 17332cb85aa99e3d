// Low Energy for C: the packets of a message, ACK and NACK, a packet read, and the receiver.
ghost use Rattle.std.specs.Prelude.{◌≡◌, []};
ghost use Rattle.c_packets.specs.Calls.{packet_read_of};
ghost use Rattle.c_receiving.specs.Calls.{receiver_open_of, replied, receiver_accept_of};
ghost use Rattle.c_rows.specs.Called.{called};
ghost use Rattle.c_sending.specs.Calls.{packet_write_of, ack_write_of};
ghost use Rattle.c_sending.specs.Convert.{sending_of};

use ble_slot::Slot;

// Writes the packet of a message whose piece begins at a place, for a link with a limit.
#[unsafe(no_mangle)]
pub extern "C" fn pito_packet_write(
    room: u64,
    limit: u64,
    stream: u64,
    id: u64,
    sequence: u64,
    ack: u64,
    message: &[u8],
    place: u64,
    output: &mut [u8],
    answer: &mut [u64],
) -> u64
    ensures { called result [] output.new answer.new
        ≡ packet_write_of limit (sending_of room stream id sequence ack) message.now place output.old
        answer.old }
{
    c_sending::calls::pito_packet_write(
        room, limit, stream, id, sequence, ack, message, place, output, answer,
    )
}

// Writes an ACK, or a NACK where positive is 0.
#[unsafe(no_mangle)]
pub extern "C" fn pito_ack_write(
    stream: u64,
    id: u64,
    sequence: u64,
    positive: u64,
    output: &mut [u8],
    answer: &mut [u64],
) -> u64
    ensures { called result [] output.new answer.new
        ≡ ack_write_of stream id sequence positive output.old answer.old }
{
    c_sending::calls::pito_ack_write(stream, id, sequence, positive, output, answer)
}

// Reads the packet at the front of some bytes, for a link with a limit.
#[unsafe(no_mangle)]
pub extern "C" fn pito_packet_read(bytes: &[u8], limit: u64, answer: &mut [u64]) -> u64
    ensures { called result [] [] answer.new
        ≡ packet_read_of bytes.now limit answer.old }
{
    c_packets::calls::pito_packet_read(bytes, limit, answer)
}

// Opens a receiver for a link with a limit: its state.
#[unsafe(no_mangle)]
pub extern "C" fn pito_receiver_open(limit: u64, state: &mut [u64]) -> u64
    ensures { called result state.new [] [] ≡ receiver_open_of limit state.old }
{
    c_receiving::calls::pito_receiver_open(limit, state)
}

// One packet given to the receiver over a lent row of slots; the ACK that it may want is written in the answer buffer.
#[unsafe(no_mangle)]
pub extern "C" fn pito_receiver_accept(
    state: &[u64],
    row: &mut [Slot],
    buffer: &mut [u8],
    packet: &[u8],
    sequence: u64,
    out: &mut [u8],
    answer: &mut [u64],
) -> u64
    ensures { replied result row.new buffer.new answer.new out.new
        ≡ receiver_accept_of state.now row.old buffer.old packet.now sequence
        out.old answer.old }
{
    c_receiving::calls::pito_receiver_accept(state, row, buffer, packet, sequence, out, answer)
}
