// Receiving over Low Energy: the receiver's answers as rows.
ghost use Rattle.std.specs.Prelude.{◌≡◌};
ghost use Rattle.ble_slot.specs.Answer.{told};
ghost use Rattle.c_receiving.specs.Convert.{head_row, accepted_row, answer_row};

use ble_packet::reader::Head;
use ble_slot::answer::{Accepted, Refusal};
use c_rows::row::stream_number;
use wire::bytes::{bit, wide64};

// The numbers of the answer row.
pub const ANSWER: usize = 8;

// The outcomes.
const TAKEN: u64 = 0;

const FINISHED: u64 = 1;

const ACKED: u64 = 2;

const NACKED: u64 = 3;

// The row of an ACK or a NACK.
fn head_row(outcome: u64, head: Head) -> [u64; 8]
    ensures { result ≡ head_row outcome head }
{
    let stream = head.stream;
    [
        outcome,
        stream_number(stream),
        wide64(head.id),
        wide64(head.sequence),
        0,
        0,
        0,
        0,
    ]
}

fn accepted_row(accepted: Accepted) -> [u64; 8]
    ensures { result ≡ accepted_row accepted }
{
    match accepted {
        Accepted::Taken {
            index,
            stream,
            id,
            replaced,
        } => [
            TAKEN,
            stream_number(stream),
            wide64(id),
            0,
            0,
            0,
            wide64(bit(replaced)),
            index as u64,
        ],
        Accepted::Finished {
            index,
            stream,
            id,
            total,
            ack,
            replaced,
        } => [
            FINISHED,
            stream_number(stream),
            wide64(id),
            0,
            total as u64,
            wide64(bit(ack)),
            wide64(bit(replaced)),
            index as u64,
        ],
        Accepted::Acked(head) => head_row(ACKED, head),
        Accepted::Nacked(head) => head_row(NACKED, head),
    }
}

pub fn answer_row(answer: Result<Accepted, Refusal>) -> [u64; 8]
    ensures { result ≡ answer_row (told answer) }
{
    match answer {
        Err(_) => [0u64; 8],
        Ok(accepted) => accepted_row(accepted),
    }
}
