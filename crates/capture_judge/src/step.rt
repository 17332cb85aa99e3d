// One packet judged: whether our writer would write it now.
ghost use Rattle.std.specs.Prelude.{◌≡◌};
ghost use Rattle.wire.specs.Told.{given};
ghost use Rattle.capture_stream.specs.Slot.{moved_to};
ghost use Rattle.capture_judge.specs.Step.{placed, step_by, step_of, stepped};

use crate::{Settings, State};
use ble_packet::reader;
use ble_packet::reader::Packet;
use capture_stream::{SenderSlot, on_first, on_next};
use wire::stream::Stream;

// A slot put back; none where our writer would not write the packet now.
fn placed(state: State, stream: Stream, moved: Option<SenderSlot>) -> Option<State>
    ensures { stepped result ≡ placed state stream (moved_to moved) }
{
    Some(state.with_slot(stream, moved?))
}

// The state after what was read, where our writer would write it now.
fn step(room: usize, state: State, read: Packet) -> Option<State>
    ensures { stepped result ≡ step_by room state (given read) }
{
    match read {
        Packet::First {
            head,
            ack,
            total,
            start,
            len,
        } => {
            let stream = head.stream;
            let slot = state.slot(stream);
            placed(
                state,
                stream,
                on_first(room, slot, head, ack, total, start, len),
            )
        }
        Packet::Next {
            head,
            ack,
            last,
            start,
            len,
        } => {
            let stream = head.stream;
            let slot = state.slot(stream);
            placed(
                state,
                stream,
                on_next(room, slot, head, ack, last, start, len),
            )
        }
        Packet::Ack(_) => Some(state),
        Packet::Nack(_) => Some(state),
    }
}

// The state after a packet, by what is open.
pub(crate) fn judge_packet(packet: &[u8], settings: Settings, state: State) -> Option<State>
    ensures { stepped result ≡ step_of settings.room settings.limit state packet.now }
{
    let answer = reader::read(settings.limit, packet);
    match answer {
        Err(_) => None,
        Ok(read) => step(settings.room, state, read),
    }
}
