// The ACK of a finished transaction that wants one.
ghost use Rattle.std.specs.Prelude.{◌≡◌, true, cond, ◌≤◌, ◌<◌, length};
ghost use Rattle.std.proofs.lemmas.List.Edits.{sets};
ghost use Rattle.wire.specs.Told.{given};
ghost use Rattle.wire.specs.Stream.{stream_number};
ghost use Rattle.ble_packet.specs.Control.{ack_bytes};
ghost use Rattle.ble_slot.specs.Answer.{told};
ghost use Rattle.ble_receiver.specs.Receiver.{answered};
ghost use Rattle.ble_receiver.specs.Ack.{IdLow};

use ble_slot::answer::{Accepted, Refusal};
use wire::stream::Stream;

// Writes the ACK where it is wanted.
fn confirm(stream: Stream, id: u8, wanted: bool, sequence: u8, out: &mut [u8])
    requires { (id < 16) × (sequence < 16) × (6 ≤ length out.old) }
    ensures { out.new
        ≡ cond wanted (sets out.old 0 (ack_bytes (stream_number stream) id sequence true)) out.old }
{
    if wanted {
        let number = stream.number();
        ble_ack::put(out, number, id, sequence, true);
    }
}

fn confirm_accepted(accepted: Accepted, sequence: u8, out: &mut [u8])
    requires { IdLow (given accepted) × (sequence < 16) × (6 ≤ length out.old) }
    ensures { out.new ≡ answered sequence (given accepted) out.old }
{
    match accepted {
        Accepted::Taken {
            index: _,
            stream: _,
            id: _,
            replaced: _,
        } => {}
        Accepted::Finished {
            index: _,
            stream,
            id,
            total: _,
            ack,
            replaced: _,
        } => confirm(stream, id, ack, sequence, out),
        Accepted::Acked(_) => {}
        Accepted::Nacked(_) => {}
    }
}

// Writes the ACK of an answer that finishes a transaction, first in the answer buffer.
pub fn acknowledge(answer: Result<Accepted, Refusal>, sequence: u8, out: &mut [u8])
    requires { IdLow (told answer) × (sequence < 16) × (6 ≤ length out.old) }
    ensures { out.new ≡ answered sequence (told answer) out.old }
{
    match answer {
        Err(_) => {}
        Ok(accepted) => confirm_accepted(accepted, sequence, out),
    }
}
