// Outbox files written in another version, for C: into version 01, and into version 02.
#![tactic(auto)]

ghost use Rattle.std.specs.Prelude.{◌≡◌, []};
ghost use Rattle.outbox.specs.Format.{version_one, version_two, format_for};
ghost use Rattle.outbox_move.specs.Moves.{told};
ghost use Rattle.c_rows.specs.Called.{called};
ghost use Rattle.c_outbox_move.specs.Calls.{moved_row, outbox_move_of};

use c_rows::row::{UNFIT, put};
use outbox::format::FileVersion;
use outbox_move::{MoveRefusal, move_file};
use wire::bytes::wide64;
use wire::refusal::number_in;

// The numbers of the answer row.
pub const MOVE_ANSWER: usize = 2;

fn moved_row(moved: Result<usize, MoveRefusal>) -> [u64; 2]
    ensures { result ≡ moved_row (told moved) }
{
    match moved {
        Ok(n) => [n as u64, 0],
        Err(MoveRefusal::NoRoom) => [0, 0],
        Err(MoveRefusal::TooLong(too_long)) => [0, too_long.place as u64],
        Err(MoveRefusal::Broken(broken)) => [0, broken.place as u64],
    }
}

fn outbox_move(file: &[u8], wished: FileVersion, output: &mut [u8], answer: &mut [u64]) -> u64
    ensures { called result [] output.new answer.new
        ≡ outbox_move_of (format_for wished) file.now output.old answer.old }
{
    if answer.len() != MOVE_ANSWER {
        return UNFIT;
    }
    let moved = move_file(file, wished, output);
    let number = wide64(number_in(&moved));
    let row = moved_row(moved);
    put(answer, number, &row);
    number
}

// Writes a file as version 01.
pub fn pito_outbox_to_01(bytes: &[u8], output: &mut [u8], answer: &mut [u64]) -> u64
    ensures { called result [] output.new answer.new
        ≡ outbox_move_of version_one bytes.now output.old answer.old }
{
    outbox_move(bytes, FileVersion::One, output, answer)
}

// Writes a file as version 02.
pub fn pito_outbox_to_02(bytes: &[u8], output: &mut [u8], answer: &mut [u64]) -> u64
    ensures { called result [] output.new answer.new
        ≡ outbox_move_of version_two bytes.now output.old answer.old }
{
    outbox_move(bytes, FileVersion::Two, output, answer)
}
