// Reading an outbox: the record at a place, and whether all is whole.
ghost use Rattle.std.specs.Prelude.{◌≡◌};
ghost use Rattle.outbox.specs.Format.{format_of, format_for};
ghost use Rattle.outbox.specs.Reader.{bad_place, read_of, walk_of};
ghost use Rattle.outbox.specs.Reader.{read_number, told, told_walk};

use crate::format::FileVersion;
use crate::judging::{judge, walk_records};
use crate::verdict::Broken;
use wire::logic::either;
use wire::refusal::Numbered;

// A record at a place: its stream, where its payload starts and how long that is, the next place.
#[derive(Clone, Copy, Debug, PartialEq, Eq)]
pub struct FoundRecord {
    pub stream: u8,
    pub start: usize,
    pub size: usize,
    pub next: usize,
}

// A place out of range, or what is wrong and where.
#[derive(Clone, Copy, Debug, PartialEq, Eq)]
pub enum ReadRefusal {
    BadPlace,
    Broken(Broken),
}

impl Numbered for ReadRefusal {
    ghost number_of = { read_number };

    fn number(&self) -> u8 {
        match self {
            ReadRefusal::BadPlace => 15,
            ReadRefusal::Broken(broken) => broken.number(),
        }
    }
}

// One line, as in capture_packet: a shared one would be no plainer.
fn bad_place(file: &[u8], place: usize) -> bool
    ensures { result ≡ bad_place file.now place }
{
    either(place == 0, file.len() < place)
}

// Reads by a version. For callers that go through a whole file: with them, `read` would no longer be compiled into its own callers.
pub fn read_by(
    file: &[u8],
    place: usize,
    version: FileVersion,
) -> Result<Option<FoundRecord>, ReadRefusal>
    ensures { told result ≡ read_of (format_for version) file.now place }
{
    if version.is_other(file) {
        return Err(ReadRefusal::Broken(Broken::version()));
    }
    if bad_place(file, place) {
        return Err(ReadRefusal::BadPlace);
    }
    if place == file.len() {
        return Ok(None);
    }
    match judge(&file[place..], version) {
        Ok(judged) => {
            let start = place + version.head_size();
            let next = start + judged.size;
            Ok(Some(FoundRecord {
                stream: judged.stream,
                start,
                size: judged.size,
                next,
            }))
        }
        Err(fault) => Err(ReadRefusal::Broken(Broken { fault, place })),
    }
}

// Reads the record at a place of an outbox: 1, or a place told before.
pub fn read(file: &[u8], place: usize) -> Result<Option<FoundRecord>, ReadRefusal>
    ensures { told result ≡ read_of (format_of file.now) file.now place }
{
    match FileVersion::of(file) {
        FileVersion::One => read_by(file, place, FileVersion::One),
        FileVersion::Two => read_by(file, place, FileVersion::Two),
    }
}

fn walk_by(file: &[u8], version: FileVersion) -> Result<(), Broken>
    ensures { told_walk result ≡ walk_of (format_for version) file.now }
{
    if version.is_other(file) {
        return Err(Broken::version());
    }
    walk_records(file, version)
}

// Whether an outbox is whole from its first byte to its last, or its first refusal.
pub fn walk(file: &[u8]) -> Result<(), Broken>
    ensures { told_walk result ≡ walk_of (format_of file.now) file.now }
{
    match FileVersion::of(file) {
        FileVersion::One => walk_by(file, FileVersion::One),
        FileVersion::Two => walk_by(file, FileVersion::Two),
    }
}
