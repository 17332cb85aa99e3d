// Sending over Low Energy: what the writers are given by numbers, and what they answer.

ghost use Rattle.std.specs.Prelude.{◌≡◌};
ghost use Rattle.ble_sender.specs.Writer.{told};
ghost use Rattle.c_sending.specs.Convert.{stream_with, sending_of, packet_row};

use ble_sender::writer::{Refusal, Sending, Sent};
use c_rows::row::{OUT_OF_RANGE, byte_or};

// The numbers of the answer row of a packet.
pub const PACKET_ANSWER: usize = 2;

// What a wish can be: 0 or 1.
const WISHES: u64 = 2;

pub const WISHED: u64 = 1;

// A stream; with a wish other than 0 and 1 it stands for no stream, which is out of range.
pub fn stream_with(wish: u64, stream: u64) -> u8
    ensures { result ≡ stream_with wish stream }
{
    if wish < WISHES {
        byte_or(OUT_OF_RANGE, stream)
    } else {
        OUT_OF_RANGE
    }
}

pub fn sending(room: u64, stream: u64, id: u64, sequence: u64, ack: u64) -> Sending
    ensures { result ≡ sending_of room stream id sequence ack }
{
    Sending {
        room: room as usize,
        stream: stream_with(ack, stream),
        id: byte_or(OUT_OF_RANGE, id),
        sequence: byte_or(OUT_OF_RANGE, sequence),
        ack: ack == WISHED,
    }
}

// Where it was the last packet, the next place is the message's end.
pub fn packet_row(answer: Result<Sent, Refusal>, end: usize) -> [u64; 2]
    ensures { result ≡ packet_row end (told answer) }
{
    match answer {
        Err(_) => [0, 0],
        Ok(sent) => {
            let next = sent.next.unwrap_or(end);
            [sent.length as u64, next as u64]
        }
    }
}
