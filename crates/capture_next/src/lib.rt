// What our writer would write next on a stream, by what is open there: what a packet that is not lawful is held to.
#![tactic(auto)]

ghost use Rattle.std.specs.Prelude.{◌≡◌};
ghost use Rattle.capture_next.specs.NextPacket.{next_by, next_of};
ghost use Rattle.capture_next.specs.Expected.{ExpectedIsTaken};

use ble_sender::piece;
use ble_sender::writer::{room_fits, type_for};
use capture_stream::SenderSlot;

// The id and the sequence that a packet must have where a transaction is open.
#[derive(Clone, Copy, Debug, PartialEq, Eq)]
pub struct ExpectedHead {
    pub id: u8,
    pub sequence: u8,
}

// Where nothing is open there is no head, and any id and sequence will do. Last: it takes all that is left, and only then may the ACK
// flag stand.
#[derive(Clone, Copy, Debug, PartialEq, Eq)]
pub struct NextPacket {
    pub head: Option<ExpectedHead>,
    pub kind: u8,
    pub len: usize,
    pub extended: bool,
    pub last: bool,
}

fn next_by(head: Option<ExpectedHead>, left: usize, len: usize) -> NextPacket
    ensures { result ≡ next_by head left len }
{
    let last = len == left;
    let kind = type_for(head.is_none(), last);
    let extended = piece::ONE_BYTE_LENGTH < len;
    NextPacket {
        head,
        kind,
        len,
        extended,
        last,
    }
}

// The total is that of the first packet that came, where nothing is open.
pub fn next_packet(room: usize, slot: SenderSlot, total: usize) -> NextPacket
    ensures { result ≡ next_of room slot total }
{
    if !room_fits(room) {
        return next_by(None, 0, 0);
    }
    match slot {
        SenderSlot::Idle => next_by(None, total, piece::size_for(room, true, total)),
        SenderSlot::Open { id, left, sequence } => {
            let head = ExpectedHead { id, sequence };
            next_by(Some(head), left, piece::size_for(room, false, left))
        }
    }
}

// The judge takes a packet exactly where it is the one that is expected.
pub fn expected_is_taken()
    ensures { ExpectedIsTaken }
{}
