// A row of numbers read and written; numbers of 64 bits where the library takes a byte.
ghost use Rattle.std.specs.Prelude.{◌≡◌, [], ◌∷◌, ◌++◌, ◌+◌, ◌≤◌, length, get_or};
ghost use Rattle.std.proofs.lemmas.List.Edits.{sets};
ghost use Rattle.wire.specs.Stream.{stream_number};
ghost use Rattle.wire.specs.Told.{given, refused, told_by, number_told};
ghost use Rattle.c_rows.specs.Row.{afterwards, byte_or, count_of};

use wire::bytes::wide64;
use wire::refusal::{Numbered, number_in};
use wire::stream::Stream;

// What is returned where nothing is refused.
pub const DONE: u64 = 0;

// The refusal of a row of another length, and of numbers that no state has.
pub const UNFIT: u64 = 1;

// How many numbers a byte can be, and a byte that is no stream, id or sequence of a packet.
pub const BYTES: u64 = 256;

pub const OUT_OF_RANGE: u8 = 255;

// The answer row of a call that tells one number.
pub const COUNT_ANSWER: usize = 1;

// What a writer answers: the number that it returns, and how many bytes it wrote.
#[derive(Drop)]
pub struct Count {
    pub number: u64,
    pub size: u64,
}

impl Count {
    // Of a writer that tells how many bytes it wrote.
    pub fn told<E: Numbered>(wrote: Result<usize, E>) -> Self
        ensures { result ≡ count_of (told_by E.number_of wrote) }
    {
        match wrote {
            Ok(size) => Count::of(size),
            Err(why) => Count::none(why.number()),
        }
    }

    pub fn of(size: usize) -> Self
        ensures { result ≡ count_of (given size) }
    {
        Count {
            number: DONE,
            size: size as u64,
        }
    }

    pub fn none(number: u8) -> Self
        ensures { result ≡ count_of (refused number) }
    {
        Count {
            number: u64::from(number),
            size: 0,
        }
    }
}

// What is returned of a result: the number of its refusal, or 0.
pub fn number_of_result<T, E: Numbered>(r: &Result<T, E>) -> u64
    ensures { result ≡ number_told (told_by E.number_of r.now) }
{
    wide64(number_in(r))
}

pub fn stream_number(stream: Stream) -> u64
    ensures { result ≡ stream_number stream }
{
    wide64(stream.number())
}

// The number at a place of a row; 0 past the end.
pub fn number_at(row: &[u64], at: usize) -> u64
    ensures { result ≡ get_or row.now at 0 }
{
    row.get(at).copied().unwrap_or(0)
}

// Writes numbers from a place of a row on.
#[tactic(auto, using(wire::proofs::Stores::stored_mid))]
pub fn fill(row: &mut [u64], at: usize, numbers: &[u64])
    requires { at + length numbers.now ≤ length row.old }
    ensures { row.new ≡ sets row.old at numbers.now }
{
    row[at..at + numbers.len()].copy_from_slice(numbers);
}

// Writes a whole row.
pub fn write_row(row: &mut [u64], numbers: &[u64])
    requires { length row.old ≡ length numbers.now }
    ensures { row.new ≡ numbers.now }
{
    row.copy_from_slice(numbers);
}

// Writes a whole row, unless the call is refused by 1.
pub fn put(row: &mut [u64], number: u64, numbers: &[u64])
    requires { length row.old ≡ length numbers.now }
    ensures { row.new ≡ afterwards number row.old numbers.now }
{
    if number != UNFIT {
        write_row(row, numbers);
    }
}

// Tells a count in an answer row, and returns its number.
pub fn tell(answer: &mut [u64], count: Count) -> u64
    requires { length answer.old ≡ 1 }
    ensures { (result ≡ count.number)
        × (answer.new ≡ afterwards count.number answer.old (count.size ∷ [])) }
{
    let number = count.number;
    let row = [count.size];
    put(answer, number, &row);
    number
}

// A number as a byte; one above 255 stands for a byte that the library judges to be out of range.
#[tactic(auto, unfolding(crate::specs::Row::byte_or))]
pub fn byte_or(other: u8, n: u64) -> u8
    ensures { result ≡ byte_or other n }
{
    u8::try_from(n).unwrap_or(other)
}
