// The outbox file: a version byte, then records. A record is its length, a stream byte and a payload.
ghost use Rattle.std.specs.Prelude.{◌≡◌};
ghost use Rattle.outbox.specs.Format.{Format, format_of, format_for, head_size};
ghost use Rattle.outbox.specs.Reader.{other_version};

use wire::bytes::byte_at;
use wire::logic::either;

// The place of the first record: after the version byte.
pub const FIRST_PLACE: usize = 1;

// The versions that there are. What reads and writes by one takes it as a value that callers give by name, so that it is
// compiled with that version's numbers as constants.
#[derive(Clone, Copy, Debug, PartialEq, Eq)]
pub enum FileVersion {
    One,
    Two,
}

impl FileVersion {
    // The version that a file is judged by: 01 where that is its first byte, and 02 where it is any other or none.
    #[tactic(auto, unfolding(crate::specs::Format::format_of, crate::specs::Format::is_one))]
    pub fn of(file: &[u8]) -> Self
        ensures { format_for result ≡ format_of file.now }
    {
        if byte_at(file, 0) == 1 {
            FileVersion::One
        } else {
            FileVersion::Two
        }
    }

    // Its byte.
    pub fn byte(self) -> u8
        ensures { result ≡ (format_for self).version }
    {
        match self {
            FileVersion::One => 1,
            FileVersion::Two => 2,
        }
    }

    // How many bytes a record's length has.
    pub fn width(self) -> usize
        ensures { result ≡ (format_for self).width }
    {
        match self {
            FileVersion::One => 2,
            FileVersion::Two => 4,
        }
    }

    // The bytes before a record's payload: its length and its stream byte.
    pub fn head_size(self) -> usize
        ensures { result ≡ head_size (format_for self) }
    {
        self.width() + 1
    }

    // Whether a file is of another version, or of none.
    pub fn is_other(self, file: &[u8]) -> bool
        ensures { result ≡ other_version (format_for self) file.now }
    {
        other_version(file, self.byte())
    }

    // The largest payload.
    pub fn limit(self) -> usize
        ensures { result ≡ (format_for self).limit }
    {
        match self {
            FileVersion::One => 4096,
            FileVersion::Two => 65535,
        }
    }
}

// Whether a file's first byte is another than this one, or is not there. It says so of every format with this version byte.
#[tactic(auto, unfolding(crate::specs::Reader::other_version))]
pub fn other_version(file: &[u8], byte: u8) -> bool
    ensures { (fmt : Format) → fmt.version ≡ byte → result ≡ other_version fmt file.now }
{
    either(file.len() == 0, byte_at(file, 0) != byte)
}
