// What one packet adds to a report, and what the open slots add at the end.
ghost use Rattle.std.specs.Prelude.{◌≡◌, true, cond, ◌&&◌, ◌||◌, eqb, length};
ghost use Rattle.wire.specs.Told.{given};
ghost use Rattle.wire.specs.Those.{those};
ghost use Rattle.ble_packet.specs.Reader as reader;
ghost use Rattle.ble_slot.specs.Slot.{opens};
ghost use Rattle.ble_slot.specs.Answer.{number_of, told};
ghost use Rattle.capture_report.specs.Costs.{heard, begins, finishes, replaces, drops, payload_in};
ghost use Rattle.capture_report.specs.Turns.{costs_by, report_with, open_costs, open_report, on_top};
ghost use Rattle.capture_tally.specs.Count.{stream_in};
ghost use Rattle.capture_tally.specs.Tally.{told_sum};

use crate::sums::{add_to, stream_named};
use ble_packet::header;
use ble_slot::answer::{Accepted, Refusal};
use ble_slot::{Slot, lane_of};
use capture_report::{CostReport, Costs};
use wire::bytes::{bit64, byte_at};
use wire::stream::Stream;

// Whether a refusal drops a transaction.
fn is_drop(why: Refusal) -> bool
    ensures { result ≡ (eqb (number_of why) 10 || eqb (number_of why) 11) }
{
    matches!(why, Refusal::Sequence | Refusal::Amount)
}

fn is_first(packet: &[u8]) -> bool
    ensures { result ≡ reader.is_first (reader.fields_of packet.now) }
{
    header::type_bits(byte_at(packet, 1)) == 0
}

// The stream of a packet; one without bytes, or with another stream field, is of none.
fn stream_field(packet: &[u8]) -> Option<Stream>
    ensures { result ≡ stream_in packet.now }
{
    let first = packet.first()?;
    stream_named(header::stream_bits(*first))
}

// What a packet and what was told of it add to its own stream.
fn costs_with(packet: &[u8], answer: Result<Accepted, Refusal>) -> Costs
    ensures { result ≡ costs_by true (begins (heard packet.now (told answer))) (finishes (told answer))
        (replaces (told answer)) (drops (told answer)) (payload_in (told answer)) (length packet.now) }
{
    let firsts = bit64(is_first(packet));
    let came = Costs {
        bytes: packet.len() as u64,
        ..Costs::default()
    };
    match answer {
        Ok(
            Accepted::Taken {
                index: _,
                stream: _,
                id: _,
                replaced,
            },
        ) => Costs {
            firsts,
            replaced: bit64(replaced),
            ..came
        },
        Ok(
            Accepted::Finished {
                index: _,
                stream: _,
                id: _,
                total,
                ack: _,
                replaced,
            },
        ) => Costs {
            firsts,
            finished: 1,
            replaced: bit64(replaced),
            payload: total as u64,
            ..came
        },
        Ok(Accepted::Acked(_) | Accepted::Nacked(_)) => came,
        Err(why) => Costs {
            dropped: bit64(is_drop(why)),
            ..came
        },
    }
}

// The sums with a packet and what was told of it; what is over stays over.
pub fn count_packet(
    sum: Option<CostReport>,
    packet: &[u8],
    answer: Result<Accepted, Refusal>,
) -> Option<CostReport>
    ensures { told_sum result ≡ on_top (told_sum sum) (report_with (heard packet.now (told answer))) }
{
    add_to(sum?, stream_field(packet), costs_with(packet, answer))
}

// How many of a stream's slots are open.
fn open_among(lane: [Slot; 4]) -> u64
    ensures { result ≡ length (those opens lane) }
{
    let a = bit64(lane[0].opens());
    let b = bit64(lane[1].opens());
    let c = bit64(lane[2].opens());
    let d = bit64(lane[3].opens());
    a + (b + (c + d))
}

fn open_costs(pending: u64) -> Costs
    ensures { result ≡ open_costs pending }
{
    Costs {
        pending,
        ..Costs::default()
    }
}

// What the open slots of a row add.
pub fn open_report(slots: [Slot; 12]) -> CostReport
    ensures { result ≡ open_report slots }
{
    let control = open_costs(open_among(lane_of(slots, Stream::Control)));
    let ota = open_costs(open_among(lane_of(slots, Stream::Ota)));
    let alexa = open_costs(open_among(lane_of(slots, Stream::Alexa)));
    CostReport {
        control,
        ota,
        alexa,
    }
}
