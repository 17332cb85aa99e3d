// The whole input of the program: room and limit, two bytes each, then a capture; absent bytes are 0.
ghost use Rattle.std.specs.Prelude.{◌≡◌};
ghost use Rattle.capture_judge.specs.Capture.{trace_told, told};
ghost use Rattle.capture_judge.specs.Input.{room_in, limit_in, input_traced, input_of};

use crate::Settings;
use crate::capture::{Judgement, Refusal, SenderVerdict, answer_of, trace};
use capture_reader::RefusedAt;
use wire::bytes::{byte_at, pair, smaller};

// The bytes of room and limit.
pub const SETTINGS: usize = 4;

pub const LARGEST_CAPTURE: usize = 65536;

pub fn room_in(input: &[u8]) -> usize
    ensures { result ≡ room_in input.now }
{
    pair(byte_at(input, 0), byte_at(input, 1))
}

pub fn limit_in(input: &[u8]) -> usize
    ensures { result ≡ limit_in input.now }
{
    pair(byte_at(input, 2), byte_at(input, 3))
}

pub fn settings_in(input: &[u8]) -> Settings
    ensures { result ≡ record { room = room_in input.now; limit = limit_in input.now } }
{
    Settings {
        room: room_in(input),
        limit: limit_in(input),
    }
}

// What the packets of the capture say; first of all the refusal of a longer one.
pub fn trace_input(input: &[u8]) -> Result<Judgement, RefusedAt<Refusal>>
    ensures { trace_told result ≡ input_traced input.now }
{
    if SETTINGS + LARGEST_CAPTURE < input.len() {
        return Err(RefusedAt {
            why: Refusal::Long,
            at: 0,
        });
    }
    let start = smaller(input.len(), SETTINGS);
    trace(&input[start..], settings_in(input))
}

pub fn judge_input(input: &[u8]) -> Result<SenderVerdict, RefusedAt<Refusal>>
    ensures { told result ≡ input_of input.now }
{
    answer_of(trace_input(input))
}
