// What is told of a packet that was given to the receiver.
ghost use Rattle.std.specs.Prelude.{◌≡◌};
ghost use Rattle.ble_slot.specs.declared.answer.Refusal.TheVariants.{OfPacket};
ghost use Rattle.ble_slot.specs.Answer.{number_of};

use ble_packet::reader;
use ble_packet::reader::Head;
use wire::refusal::Numbered;
use wire::stream::Stream;

// A packet that is not refused: a piece of a transaction with more to come, its last piece, an ACK or a NACK. Index: of its slot in the
// row. Replaced: an open transaction of its stream and id was replaced. ACK: one of the transaction's packets asked for it.
#[derive(Clone, Copy)]
pub enum Accepted {
    Taken {
        index: usize,
        stream: Stream,
        id: u8,
        replaced: bool,
    },
    Finished {
        index: usize,
        stream: Stream,
        id: u8,
        total: usize,
        ack: bool,
        replaced: bool,
    },
    Acked(Head),
    Nacked(Head),
}

// BadStateOrBuffer: the lent row or buffer has another size, or the state is unlawful. Argument: the answer sequence is above 15.
// Output: the answer buffer has under six bytes. NoSlot: no slot for a first packet.
#[derive(Clone, Copy, Debug, PartialEq, Eq)]
pub enum Refusal {
    BadStateOrBuffer,
    Argument,
    Output,
    OfPacket(reader::Refusal),
    NoSlot,
    NoTransaction,
    Sequence,
    Amount,
}

impl Numbered for Refusal {
    ghost number_of = { number_of };

    fn number(&self) -> u8 {
        match self {
            Refusal::BadStateOrBuffer => 1,
            Refusal::Argument => 15,
            Refusal::Output => 14,
            Refusal::OfPacket(why) => why.number(),
            Refusal::NoSlot => 18,
            Refusal::NoTransaction => 9,
            Refusal::Sequence => 10,
            Refusal::Amount => 11,
        }
    }
}

impl From<reader::Refusal> for Refusal {
    ghost from_gives = { λ why given. given ≡ OfPacket why };

    fn from(why: reader::Refusal) -> Self {
        Refusal::OfPacket(why)
    }
}
