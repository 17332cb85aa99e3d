// Writes ACK and NACK packets.
#![tactic(auto)]

ghost use Rattle.std.specs.Prelude.{◌≡◌, ◌≤◌, ◌<◌, length};
ghost use Rattle.std.proofs.lemmas.List.Edits.{sets};
ghost use Rattle.wire.specs.Told.{written};
ghost use Rattle.ble_packet.specs.Control.{ack_bytes};
ghost use Rattle.ble_ack.specs.Acknowledgement.{ack_of, number_of, told};

use ble_packet::{control, header};
use wire::refusal::Numbered;

#[derive(Clone, Copy, Debug, PartialEq, Eq)]
pub enum Refusal {
    Argument,
    Output,
}

impl Numbered for Refusal {
    ghost number_of = { number_of };

    fn number(&self) -> u8 {
        match self {
            Refusal::Argument => 15,
            Refusal::Output => 14,
        }
    }
}

// The six bytes, first in the output.
pub fn put(out: &mut [u8], stream: u8, id: u8, sequence: u8, positive: bool)
    requires { (6 ≤ length out.old) × (stream < 16) × (id < 16) × (sequence < 16) }
    ensures { out.new ≡ sets out.old 0 (ack_bytes stream id sequence positive) }
{
    out[0] = header::first_byte(stream, id);
    out[1] = header::second_byte(sequence, header::TYPE_CONTROL, positive, false);
    out[2] = control::ACK_RESERVED;
    out[3] = control::ACK_LENGTH;
    out[4] = control::ACK_MARK;
    out[5] = control::ack_code(positive);
}

// Writes an ACK, or a NACK where positive is false, for the request of a stream and an id; how many bytes were written.
pub fn write(
    stream: u8,
    id: u8,
    sequence: u8,
    positive: bool,
    out: &mut [u8],
) -> Result<usize, Refusal>
    ensures { written (told result) out.new ≡ ack_of stream id sequence positive out.old }
{
    if !header::in_range(stream, id, sequence) {
        return Err(Refusal::Argument);
    }
    if out.len() < control::ACK_SIZE {
        return Err(Refusal::Output);
    }
    put(out, stream, id, sequence, positive);
    Ok(control::ACK_SIZE)
}
