// The record at the front of some bytes, and record after record. Where a file's version is known.
ghost use Rattle.std.specs.Prelude.{◌≡◌, false, ℕ, ◌≤◌, length};
ghost use Rattle.outbox.specs.Format.{format_for, first_place};
ghost use Rattle.outbox.specs.Reader.{given, other_version, length_in, record_at, read_of, refusal_or, walk_of, told_judged, told_walk};

use crate::format::{FIRST_PLACE, FileVersion};
use crate::verdict::{Broken, Fault};
use wire::bytes::pair;
use wire::logic::either;
use wire::stream::is_stream;

// The record at the front of some bytes: its stream, and the length of its payload.
#[derive(Clone, Copy, Debug, PartialEq, Eq)]
pub struct Judged {
    pub stream: u8,
    pub size: usize,
}

// The length of the record at the front of some bytes: a field of two bytes, or of four.
fn length_in(rest: &[u8], version: FileVersion) -> usize
    requires { (format_for version).width ≤ length rest.now }
    ensures { result ≡ length_in (format_for version) rest.now }
{
    match version {
        FileVersion::One => pair(rest[0], rest[1]),
        FileVersion::Two => {
            let high = pair(rest[0], rest[1]);
            let low = pair(rest[2], rest[3]);
            high * 65536 + low
        }
    }
}

// The length is judged once all its bytes are there; before that the record is cut short.
pub fn judge(rest: &[u8], version: FileVersion) -> Result<Judged, Fault>
    ensures { (place : ℕ) → told_judged (format_for version) place result ≡ record_at (format_for version) place rest.now }
{
    let width = version.width();
    if rest.len() < width {
        return Err(Fault::Cut);
    }
    let n = length_in(rest, version);
    if either(n == 0, version.limit() + 1 < n) {
        return Err(Fault::Length);
    }
    if rest.len() - width < n {
        return Err(Fault::Cut);
    }
    let stream = rest[width];
    if is_stream(stream) {
        let size = n - 1;
        Ok(Judged { stream, size })
    } else {
        Err(Fault::Stream)
    }
}

// The place up to which the records of an outbox are whole: what is read there decides. The loop hands on nothing else,
// since constants that it would have to keep for each way out cost every record.
fn whole_up_to(file: &[u8], version: FileVersion) -> usize
    requires { other_version (format_for version) file.now ≡ false }
    ensures { (first_place ≤ result)
        × (result ≤ length file.now)
        × (walk_of (format_for version) file.now ≡ refusal_or (read_of (format_for version) file.now result) (given tt)) }
{
    let mut place = FIRST_PLACE;
    while place < file.len() {
        match judge(&file[place..], version) {
            Ok(judged) => {
                place = place + version.head_size() + judged.size;
            }
            Err(_) => {
                return place;
            }
        }
    }
    place
}

// Whether the records of an outbox are whole, or its first refusal.
pub fn walk_records(file: &[u8], version: FileVersion) -> Result<(), Broken>
    requires { other_version (format_for version) file.now ≡ false }
    ensures { told_walk result ≡ walk_of (format_for version) file.now }
{
    let place = whole_up_to(file, version);
    if place == file.len() {
        return Ok(());
    }
    match judge(&file[place..], version) {
        Ok(_) => Ok(()),
        Err(fault) => Err(Broken { fault, place }),
    }
}

// The same before an append: an outbox that has its version byte alone, which is what a box appends to, is not walked.
// The slice is built again, so that it is put into memory only where it is walked.
pub fn walk_used(file: &[u8], version: FileVersion) -> Result<(), Broken>
    requires { other_version (format_for version) file.now ≡ false }
    ensures { told_walk result ≡ walk_of (format_for version) file.now }
{
    if file.len() == FIRST_PLACE {
        return Ok(());
    }
    walk_records(&file[0..], version)
}
