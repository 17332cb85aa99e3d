// One packet for C: the one at the front of some bytes, with where it ends, and the one at a place of a capture.
ghost use Rattle.std.specs.Prelude.{◌≡◌, []};
ghost use Rattle.c_rows.specs.Called.{called};
ghost use Rattle.c_packets.specs.Calls.{packet_read_of, capture_packet_of};

use crate::convert::{CAPTURE_ANSWER, READ_ANSWER, captured_row, front_row};
use ble_packet::header::extender_bit;
use ble_packet_end::{end_of, read_front};
use c_rows::row::{UNFIT, number_of_result, put};
use capture_packet::read_at;
use wire::bytes::byte_at;

// Reads the packet at the front of some bytes, for a link with a limit.
pub fn pito_packet_read(bytes: &[u8], limit: u64, answer: &mut [u64]) -> u64
    ensures { called result [] [] answer.new
        ≡ packet_read_of bytes.now limit answer.old }
{
    if answer.len() != READ_ANSWER {
        return UNFIT;
    }
    let end = end_of(bytes);
    let extended = extender_bit(byte_at(bytes, 1));
    let front = read_front(limit as usize, bytes);
    let number = number_of_result(&front);
    let row = front_row(end, extended, front);
    put(answer, number, &row);
    number
}

// Reads the packet at a place of a capture.
pub fn pito_capture_packet(capture: &[u8], place: u64, answer: &mut [u64]) -> u64
    ensures { called result [] [] answer.new
        ≡ capture_packet_of capture.now place answer.old }
{
    if answer.len() != CAPTURE_ANSWER {
        return UNFIT;
    }
    let standing = read_at(capture, place as usize);
    let number = number_of_result(&standing);
    let row = captured_row(standing);
    put(answer, number, &row);
    number
}
