// What is appended is read back, also after a cut at any byte. Each claim holds for every format whose lengths fit their field.
#![tactic(auto)]

ghost use Rattle.outbox.specs.Format.{version_one, version_two};
ghost use Rattle.outbox_claims.specs.Versions.{HoldInEachVersion};
ghost use Rattle.outbox_claims.specs.Claims.{Lawful, RecordsReturn, CutsAreFound, AppendsAfterCut, AppendsAsAlone, ReadsAsAlone};

// The lengths of both versions fit their field.
pub fn versions_are_lawful()
    ensures { Lawful version_one × Lawful version_two }
{}

// From a new outbox, any list of appends that fit, then reading place after place, gives those records in order, and the end.
pub fn records_return()
    ensures { RecordsReturn }
{}

// Of a whole outbox cut at any byte, reading gives every record that lies whole in what is kept, then the end, or 41 at the
// place of the record that was cut, or 40 where nothing is kept.
pub fn cuts_are_found()
    ensures { CutsAreFound }
{}

// After a cut, an append after the last whole record gives a whole outbox again, with those records and the new one.
pub fn appends_after_cut()
    ensures { AppendsAfterCut }
{}

// What is appended to a whole outbox is, byte for byte, what is appended to a new outbox of its own.
pub fn appends_as_alone()
    ensures { AppendsAsAlone }
{}

// The version byte with the bytes from a place on reads as the outbox does from that place on; the bytes of the longest
// record are enough for one reading.
pub fn reads_as_alone()
    ensures { ReadsAsAlone }
{}

// Each claim for version 01 and for version 02, with its premises in the words of docs/FORMATS.md.
pub fn hold_in_each_version()
    ensures { HoldInEachVersion }
{}
