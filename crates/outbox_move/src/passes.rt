// The passes over a file: record after record, as long as there is one.
ghost use Rattle.std.specs.Prelude.{◌≡◌, ◌++◌, ◌+◌, ◌≤◌, length};
ghost use Rattle.std.proofs.lemmas.List.Edits.{sets};
ghost use Rattle.outbox.specs.Format.{format_for, new_bytes, first_place};
ghost use Rattle.outbox.specs.Reader.{given, read_of, read_all};
ghost use Rattle.outbox_move.specs.Moves.{record_only, records_in, over_from, count_of, told_next, told_count};

use crate::TooLong;
use outbox::format::{FIRST_PLACE, FileVersion};
use outbox::reader::{FoundRecord, read_by};
use outbox::writer::put_record;

// The record at a place, where there is one.
fn record_at(file: &[u8], place: usize, own: FileVersion) -> Option<FoundRecord>
    ensures { told_next result ≡ record_only (read_of (format_for own) file.now place) }
{
    read_by(file, place, own).unwrap_or(None)
}

// The size of a file in a version.
pub fn count(file: &[u8], own: FileVersion, wished: FileVersion) -> Result<usize, TooLong>
    ensures { told_count result
        ≡ count_of (format_for wished) first_place first_place (read_all (format_for own) file.now) }
{
    let mut place = FIRST_PLACE;
    let mut total = FIRST_PLACE;
    while let Some(found) = record_at(file, place, own) {
        if wished.limit() < found.size {
            return Err(TooLong { place });
        }
        total = total + wished.head_size() + found.size;
        place = found.next;
    }
    Ok(total)
}

// Writes the version byte and each record of a file, whose number of bytes was counted.
pub fn write_records(file: &[u8], own: FileVersion, wished: FileVersion, out: &mut [u8])
    requires { (over_from (format_for wished).limit first_place (read_all (format_for own) file.now) ≡ given tt)
        × (first_place + length (records_in (format_for wished) (read_all (format_for own) file.now)) ≤ length out.old) }
    ensures { out.new
        ≡ sets out.old 0 (new_bytes (format_for wished) ++ records_in (format_for wished) (read_all (format_for own) file.now)) }
{
    out[0] = wished.byte();
    let mut place = FIRST_PLACE;
    let mut at = FIRST_PLACE;
    while let Some(found) = record_at(file, place, own) {
        put_record(
            out,
            at,
            wished,
            found.stream,
            &file[found.start..found.next],
        );
        at = at + wished.head_size() + found.size;
        place = found.next;
    }
}
