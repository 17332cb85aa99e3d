// An outbox file written in a wished version. One pass judges the file, one counts, one writes.
#![tactic(auto)]

ghost use Rattle.std.specs.Prelude.{◌≡◌, ◌++◌};
ghost use Rattle.outbox.specs.Format.{format_of, format_for, new_bytes, first_place};
ghost use Rattle.outbox.specs.Reader.{given, read_all, walk_of};
ghost use Rattle.outbox.specs.Writer.{stored, if_whole};
ghost use Rattle.outbox_move.specs.Moves.{records_in, over_from, placed, move_of, move_number, told};
ghost use Rattle.outbox_move.specs.declared.MoveRefusal.{MoveRefusal};

use crate::passes::{count, write_records};
use outbox::format::FileVersion;
use outbox::reader::walk;
use outbox::verdict::Broken;
use wire::bytes::copy;
use wire::refusal::Numbered;

mod passes;

// A record that is too long for the wished version, by its place: the first one.
#[derive(Clone, Copy, Debug, PartialEq, Eq)]
pub struct TooLong {
    pub place: usize,
}

// Why nothing was written: no room, a record too long for the wished version, or the file's own first refusal.
#[derive(Clone, Copy, Debug, PartialEq, Eq)]
pub enum MoveRefusal {
    NoRoom,
    TooLong(TooLong),
    Broken(Broken),
}

impl Numbered for MoveRefusal {
    ghost number_of = { move_number };

    fn number(&self) -> u8 {
        match self {
            MoveRefusal::NoRoom => 14,
            MoveRefusal::TooLong(_) => 46,
            MoveRefusal::Broken(broken) => broken.number(),
        }
    }
}

impl From<TooLong> for MoveRefusal {
    ghost from_gives = { λ too_long why. why ≡ MoveRefusal.TooLong too_long };

    fn from(too_long: TooLong) -> MoveRefusal {
        MoveRefusal::TooLong(too_long)
    }
}

impl From<Broken> for MoveRefusal {
    ghost from_gives = { λ broken why. why ≡ MoveRefusal.Broken broken };

    fn from(broken: Broken) -> MoveRefusal {
        MoveRefusal::Broken(broken)
    }
}

// Copies a file; the bytes written.
fn copy_file(file: &[u8], out: &mut [u8]) -> Result<usize, MoveRefusal>
    ensures { stored (told result) out.new ≡ placed out.old file.now }
{
    let n = file.len();
    if out.len() < n {
        return Err(MoveRefusal::NoRoom);
    }
    copy(out, 0, file);
    Ok(n)
}

// Writes the records of a file in another version; the bytes written. It is compiled into each of its calls, which give it
// both versions as constants.
#[inline(always)]
fn rewrite(
    file: &[u8],
    own: FileVersion,
    wished: FileVersion,
    out: &mut [u8],
) -> Result<usize, MoveRefusal>
    ensures { stored (told result) out.new
        ≡ if_whole
        (over_from (format_for wished).limit first_place (read_all (format_for own) file.now))
        out.old
        (placed out.old (new_bytes (format_for wished) ++ records_in (format_for wished) (read_all (format_for own) file.now))) }
{
    let n = count(file, own, wished)?;
    if out.len() < n {
        return Err(MoveRefusal::NoRoom);
    }
    write_records(file, own, wished, out);
    Ok(n)
}

// Each way has its numbers as constants.
fn move_whole(file: &[u8], wished: FileVersion, out: &mut [u8]) -> Result<usize, MoveRefusal>
    requires { walk_of (format_of file.now) file.now ≡ given tt }
    ensures { stored (told result) out.new ≡ move_of (format_for wished) file.now out.old }
{
    match FileVersion::of(file) {
        FileVersion::One => match wished {
            FileVersion::One => copy_file(file, out),
            FileVersion::Two => rewrite(file, FileVersion::One, FileVersion::Two, out),
        },
        FileVersion::Two => match wished {
            FileVersion::One => rewrite(file, FileVersion::Two, FileVersion::One, out),
            FileVersion::Two => copy_file(file, out),
        },
    }
}

// Writes a file in the wished version into a lent output; the bytes written.
pub fn move_file(file: &[u8], wished: FileVersion, out: &mut [u8]) -> Result<usize, MoveRefusal>
    ensures { stored (told result) out.new
        ≡ move_of (format_for wished) file.now out.old }
{
    walk(file)?;
    move_whole(file, wished, out)
}
