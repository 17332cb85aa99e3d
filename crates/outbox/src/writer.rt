// Writing an outbox into a lent buffer: a new one, and a record after the used bytes.
ghost use Rattle.std.specs.Prelude.{◌≡◌, false, ◌+◌, ◌≤◌, length, take};
ghost use Rattle.std.proofs.lemmas.List.Edits.{sets};
ghost use Rattle.outbox.specs.Format.{version_two, format_of, format_for, head_size, bytes_of, record_bytes};
ghost use Rattle.outbox.specs.Reader.{other_version};
ghost use Rattle.outbox.specs.Writer.{stored, new_of, bad_record, append_of, create_number, append_number, told_new, told};
ghost use Rattle.outbox.specs.declared.writer.AppendRefusal.{AppendRefusal};

use crate::format::{FIRST_PLACE, FileVersion};
use crate::judging::walk_used;
use crate::verdict::Broken;
use wire::bytes::{copy, put_pair};
use wire::logic::either;
use wire::refusal::Numbered;
use wire::stream::is_stream;

// The bits of a pair of bytes, and how many numbers they have.
const PAIR_BITS: usize = 16;

const PAIRS: usize = 65536;

// No room for a new outbox.
#[derive(Clone, Copy, Debug, PartialEq, Eq)]
pub struct NoRoom;

impl Numbered for NoRoom {
    ghost number_of = { create_number };

    fn number(&self) -> u8 {
        14
    }
}

// Why nothing was appended.
#[derive(Clone, Copy, Debug, PartialEq, Eq)]
pub enum AppendRefusal {
    BeyondBuffer,
    BadRecord,
    NoRoom,
    Broken(Broken),
}

impl Numbered for AppendRefusal {
    ghost number_of = { append_number };

    fn number(&self) -> u8 {
        match self {
            AppendRefusal::BeyondBuffer => 1,
            AppendRefusal::BadRecord => 15,
            AppendRefusal::NoRoom => 14,
            AppendRefusal::Broken(broken) => broken.number(),
        }
    }
}

impl From<Broken> for AppendRefusal {
    ghost from_gives = { λ broken why. why ≡ AppendRefusal.Broken broken };

    fn from(broken: Broken) -> AppendRefusal {
        AppendRefusal::Broken(broken)
    }
}

// Begins a new outbox in a lent buffer, of version 02; the used bytes.
#[tactic(auto, unfolding(crate::specs::Writer::new_of))]
pub fn create(buffer: &mut [u8]) -> Result<usize, NoRoom>
    ensures { stored (told_new result) buffer.new ≡ new_of version_two buffer.old }
{
    if buffer.len() == 0 {
        return Err(NoRoom);
    }
    buffer[0] = FileVersion::Two.byte();
    Ok(FIRST_PLACE)
}

#[tactic(auto, unfolding(crate::specs::Writer::bad_record))]
fn bad_record(version: FileVersion, stream: u8, size: usize) -> bool
    ensures { result ≡ bad_record (format_for version) stream size }
{
    either(!is_stream(stream), version.limit() < size)
}

// Writes a record's length at a place: a field of two bytes, or of four.
fn put_length(buffer: &mut [u8], at: usize, version: FileVersion, n: usize)
    requires { (at + (format_for version).width ≤ length buffer.old) × (n ≤ (format_for version).limit + 1) }
    ensures { buffer.new ≡ sets buffer.old at (bytes_of (format_for version).width n) }
{
    match version {
        FileVersion::One => put_pair(buffer, at, n),
        FileVersion::Two => {
            let high = n >> PAIR_BITS;
            put_pair(buffer, at, high);
            put_pair(buffer, at + 2, n - high * PAIRS);
        }
    }
}

// Writes a record at a place.
pub fn put_record(buffer: &mut [u8], at: usize, version: FileVersion, stream: u8, payload: &[u8])
    requires { (at + (head_size (format_for version) + length payload.now) ≤ length buffer.old)
        × (length payload.now ≤ (format_for version).limit) }
    ensures { buffer.new
        ≡ sets buffer.old at (record_bytes (format_for version) stream payload.now) }
{
    let width = version.width();
    put_length(buffer, at, version, payload.len() + 1);
    buffer[at + width] = stream;
    copy(buffer, at + (width + 1), payload);
}

// Appends a record right after used bytes of a version.
fn append_by(
    buffer: &mut [u8],
    used: usize,
    version: FileVersion,
    stream: u8,
    payload: &[u8],
) -> Result<usize, AppendRefusal>
    requires { (used ≤ length buffer.old)
        × (other_version (format_for version) (take used buffer.old) ≡ false) }
    ensures { stored (told result) buffer.new
        ≡ append_of (format_for version) buffer.old used stream payload.now }
{
    if bad_record(version, stream, payload.len()) {
        return Err(AppendRefusal::BadRecord);
    }
    let size = version.head_size() + payload.len();
    if buffer.len() - used < size {
        return Err(AppendRefusal::NoRoom);
    }
    walk_used(&buffer[..used], version)?;
    put_record(buffer, used, version, stream, payload);
    let end = used + size;
    Ok(end)
}

// The same where the version is not judged yet.
fn append_in(
    buffer: &mut [u8],
    used: usize,
    version: FileVersion,
    stream: u8,
    payload: &[u8],
) -> Result<usize, AppendRefusal>
    requires { used ≤ length buffer.old }
    ensures { stored (told result) buffer.new
        ≡ append_of (format_for version) buffer.old used stream payload.now }
{
    if version.is_other(&buffer[..used]) {
        return Err(AppendRefusal::Broken(Broken::version()));
    }
    append_by(buffer, used, version, stream, payload)
}

// Appends a record right after the used bytes of a lent buffer, which must be a whole outbox; the used bytes afterwards.
#[tactic(auto, unfolding(crate::specs::Writer::append_of))]
pub fn append(
    buffer: &mut [u8],
    used: usize,
    stream: u8,
    payload: &[u8],
) -> Result<usize, AppendRefusal>
    ensures { stored (told result) buffer.new
        ≡ append_of (format_of (take used buffer.old)) buffer.old used stream payload.now }
{
    if buffer.len() < used {
        return Err(AppendRefusal::BeyondBuffer);
    }
    match FileVersion::of(&buffer[..used]) {
        FileVersion::One => append_in(buffer, used, FileVersion::One, stream, payload),
        FileVersion::Two => append_in(buffer, used, FileVersion::Two, stream, payload),
    }
}
