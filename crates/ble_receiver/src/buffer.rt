// The lent buffer: a part for each slot, one after the other.
ghost use Rattle.std.specs.Prelude.{◌≡◌, List, ℕ, ◌+◌, ◌*◌, ◌≤◌, ◌<◌, length, take};
ghost use Rattle.std.proofs.lemmas.List.Edits.{sets};
ghost use Rattle.ble_slot.specs.Slot.{slot_count, lane_start};
ghost use Rattle.ble_slot_steps.specs.Fit.{InsidePart};
ghost use Rattle.ble_receiver.specs.Buffer.{stored};

use ble_slot_steps::PayloadPlace;
use wire::bytes::copy;
use wire::scan::{BLOCK, copy_block};
use wire::stream::Stream;

// The index of a stream's first slot and part.
pub fn lane_start(stream: Stream) -> usize
    ensures { (result ≡ lane_start stream) × (result ≤ 8) }
{
    match stream {
        Stream::Control => 0,
        Stream::Ota => 4,
        Stream::Alexa => 8,
    }
}

// Copies blocks from a place of a run on while more than one is left, and returns up to where. With another test of its end the loop takes
// nine instructions more (docs/SPEED.md, 288).
fn copy_blocks(out: &mut [u8], at: usize, run: &[u8], from: usize) -> usize
    requires { (from ≤ length run.now) × (at + length run.now ≤ length out.old) }
    ensures { ((l : List ℕ) → out.old ≡ sets l at (take from run.now)
        → out.new ≡ sets l at (take result run.now))
        × (length run.now ≤ result + 16)
        × (result ≤ length run.now) }
{
    let mut i = from;
    while i + BLOCK < run.len() {
        copy_block(out, at + i, &run[i..i + BLOCK]);
        i = i + BLOCK;
    }
    i
}

// Copies a run by blocks, of which the last may begin inside the one before.
fn copy_run(out: &mut [u8], at: usize, run: &[u8])
    requires { at + length run.now ≤ length out.old }
    ensures { out.new ≡ sets out.old at run.now }
{
    if run.len() < BLOCK {
        copy(out, at, run);
        return;
    }
    copy_block(out, at, &run[..BLOCK]);
    copy_blocks(out, at, run, BLOCK);
    let last = run.len() - BLOCK;
    copy_block(out, at + last, &run[last..]);
}

// Writes a payload of a packet in the part of a slot.
pub fn write_payload(
    buffer: &mut [u8],
    limit: usize,
    index: usize,
    payload: PayloadPlace,
    packet: &[u8],
)
    requires { (limit ≤ 65535)
        × (index < slot_count)
        × (length buffer.old ≡ slot_count * limit)
        × InsidePart limit (length packet.now) payload }
    ensures { buffer.new ≡ stored limit index buffer.old packet.now payload }
{
    let start = index * limit;
    let end = start + limit;
    let at = payload.at;
    let from = payload.start;
    let to = from + payload.len;
    copy_run(&mut buffer[start..end], at, &packet[from..to]);
}
