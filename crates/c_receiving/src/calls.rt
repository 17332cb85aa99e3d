// Receiving over Low Energy for C: a receiver opened, the link of a state row, and an answer told.
ghost use Rattle.std.specs.Prelude.{◌≡◌, []};
ghost use Rattle.c_rows.specs.Called.{called};
ghost use Rattle.ble_slot.specs.Answer.{told};
ghost use Rattle.c_receiving.specs.Calls.{receiver_open_of, link_at, told_row, replied, receiver_accept_of};

use crate::convert::{ANSWER, answer_row};
use ble_link::accept;
use ble_receiver::Receiver;
use ble_slot::Slot;
use ble_slot::answer::{Accepted, Refusal};
use c_rows::row::{
    DONE, OUT_OF_RANGE, UNFIT, byte_or, number_at, number_of_result, put, write_row,
};
use wire::bytes::wide64;
use wire::logic::both;
use wire::refusal::Numbered;

// The numbers of the state row: the limit.
pub const STATE: usize = 1;

// Opens a receiver for a link with a limit: its state.
pub fn pito_receiver_open(limit: u64, state: &mut [u64]) -> u64
    ensures { called result state.new [] [] ≡ receiver_open_of limit state.old }
{
    if state.len() != STATE {
        return UNFIT;
    }
    match Receiver::open(limit as usize) {
        Ok(link) => {
            let row = [link.limit as u64];
            write_row(state, &row);
            DONE
        }
        Err(why) => wide64(why.number()),
    }
}

// The link of a state row; size is the answer row's. Rows of other lengths are taken for a link of limit 0, on which every packet is refused
// by 1.
pub fn link_at(state: &[u64], size: usize) -> Receiver
    ensures { result ≡ link_at state.now size }
{
    if both(size == ANSWER, state.len() == STATE) {
        let limit = number_at(state, 0);
        Receiver {
            limit: limit as usize,
        }
    } else {
        Receiver { limit: 0 }
    }
}

// Tells what was answered to a packet in the answer row, where that has its length, and returns its number.
pub fn tell_packet(answer: &mut [u64], done: Result<Accepted, Refusal>) -> u64
    ensures { called result [] [] answer.new ≡ told_row answer.old (told done) }
{
    let number = number_of_result(&done);
    if answer.len() == ANSWER {
        let row = answer_row(done);
        put(answer, number, &row);
    }
    number
}

// One packet given to the receiver over a lent row of slots; the ACK that it may want is written in the answer buffer.
pub fn pito_receiver_accept(
    state: &[u64],
    row: &mut [Slot],
    buffer: &mut [u8],
    packet: &[u8],
    sequence: u64,
    out: &mut [u8],
    answer: &mut [u64],
) -> u64
    ensures { replied result row.new buffer.new answer.new out.new
        ≡ receiver_accept_of state.now row.old buffer.old packet.now sequence
        out.old answer.old }
{
    let link = link_at(state, answer.len());
    let low = byte_or(OUT_OF_RANGE, sequence);
    let done = accept(link, row, buffer, packet, low, out);
    tell_packet(answer, done)
}
