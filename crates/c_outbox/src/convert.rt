// The outbox: what its calls answer as rows.
ghost use Rattle.std.specs.Prelude.{◌≡◌, length};
ghost use Rattle.outbox.specs.Reader.{fault_number, number_in, told_walk};
ghost use Rattle.outbox.specs.Reader as readings;
ghost use Rattle.outbox.specs.Writer as writings;
ghost use Rattle.c_rows.specs.Row.{afterwards};
ghost use Rattle.c_outbox.specs.Convert.{cut_place, used_row, record_row, whole_row};

use c_rows::row::{DONE, put};
use outbox::reader::{FoundRecord, ReadRefusal};
use outbox::verdict::{Broken, Fault};
use outbox::writer::AppendRefusal;
use wire::bytes::wide64;
use wire::refusal::Numbered;

// The numbers of the answer rows.
pub const APPEND_ANSWER: usize = 2;

pub const RECORD_ANSWER: usize = 6;

pub const WHOLE_ANSWER: usize = 1;

// The outcome that is a record.
const RECORD: u64 = 1;

// The place that goes with a record that is cut short; 0 for any other fault.
#[tactic(auto, unfolding(crate::specs::Convert::cut_place))]
fn cut_place(fault: Fault, place: usize) -> u64
    ensures { result ≡ cut_place (fault_number fault) place }
{
    if fault == Fault::Cut { place as u64 } else { 0 }
}

// Tells a refusal in an answer row, and returns its number.
fn refuse(answer: &mut [u64], why: u8, row: &[u64]) -> u64
    requires { length answer.old ≡ length row.now }
    ensures { (result ≡ why) × (answer.new ≡ afterwards why answer.old row.now) }
{
    let number = wide64(why);
    put(answer, number, row);
    number
}

// Tells what was appended in an answer row, and returns its number. Each arm, and each fault, writes its own row: to choose
// one first, or a place, costs more.
#[tactic(auto, unfolding(crate::specs::Convert::cut_place))]
pub fn tell_append(answer: &mut [u64], appended: Result<usize, AppendRefusal>) -> u64
    requires { length answer.old ≡ 2 }
    ensures { (result ≡ number_in (writings.told appended))
        × (answer.new
        ≡ afterwards (number_in (writings.told appended)) answer.old (used_row (writings.told appended))) }
{
    let zeros = [0u64; 2];
    match appended {
        Ok(n) => {
            let row = [n as u64, 0];
            put(answer, DONE, &row);
            DONE
        }
        Err(AppendRefusal::BeyondBuffer) => refuse(
            answer,
            AppendRefusal::BeyondBuffer.number(),
            &zeros,
        ),
        Err(AppendRefusal::BadRecord) => refuse(answer, AppendRefusal::BadRecord.number(), &zeros),
        Err(AppendRefusal::NoRoom) => refuse(answer, AppendRefusal::NoRoom.number(), &zeros),
        Err(AppendRefusal::Broken(broken)) => match broken.fault {
            Fault::Version => refuse(answer, broken.number(), &zeros),
            Fault::Length => refuse(answer, broken.number(), &zeros),
            Fault::Cut => {
                let row = [0, broken.place as u64];
                refuse(answer, broken.number(), &row)
            }
            Fault::Stream => refuse(answer, broken.number(), &zeros),
        }
    }
}

// Tells what was read in an answer row, and returns its number. As in tell_append, each arm writes its own row.
#[tactic(auto, unfolding(crate::specs::Convert::cut_place))]
pub fn tell_record(answer: &mut [u64], reading: Result<Option<FoundRecord>, ReadRefusal>) -> u64
    requires { length answer.old ≡ 6 }
    ensures { (result ≡ number_in (readings.told reading))
        × (answer.new
        ≡ afterwards (number_in (readings.told reading)) answer.old (record_row (readings.told reading))) }
{
    let zeros = [0u64; 6];
    match reading {
        Ok(Some(found)) => {
            let FoundRecord {
                stream,
                start,
                size,
                next,
            } = found;
            let wide = wide64(stream);
            let row = [RECORD, wide, start as u64, size as u64, next as u64, 0];
            put(answer, DONE, &row);
            DONE
        }
        Ok(None) => {
            put(answer, DONE, &zeros);
            DONE
        }
        Err(ReadRefusal::BadPlace) => refuse(answer, ReadRefusal::BadPlace.number(), &zeros),
        Err(ReadRefusal::Broken(broken)) => match broken.fault {
            Fault::Version => refuse(answer, broken.number(), &zeros),
            Fault::Length => refuse(answer, broken.number(), &zeros),
            Fault::Cut => {
                let row = [0, 0, 0, 0, 0, broken.place as u64];
                refuse(answer, broken.number(), &row)
            }
            Fault::Stream => refuse(answer, broken.number(), &zeros),
        }
    }
}

pub fn whole_row(walked: Result<(), Broken>) -> [u64; 1]
    ensures { result ≡ whole_row (told_walk walked) }
{
    match walked {
        Ok(()) => [0],
        Err(broken) => [cut_place(broken.fault, broken.place)],
    }
}
