// The reader of fields, for every message.
ghost use Rattle.std.specs.Prelude.{◌≡◌, ◌+◌, ◌≤◌, length};
ghost use Rattle.proto_reader.specs.Gathered.{field_judged, told_field_verdict};
ghost use Rattle.proto_reader.specs.Refusal.{judged_as, told_kept};
ghost use Rattle.proto_reader.specs.Walk.{entry_at, packed_from, judged, number_added, part_added, value_added, added_at, read_at, with_string, with_added, fields_from, AddsWithin, told_entry, told_field};

use crate::gathered::{Gathered, MOST_REPEATED};
use crate::refusal::MessageRefusal;
use proto_field::Refusal;
use proto_field::tag::read_tag;
use proto_field::value::{Part, Value, read_value};
use proto_field::varint::{Placed, read_varint};
use proto_schema::{Role, Schema, fits_role, is_member, is_repeated, role_of};
use utf8::check::bad_place;

// What a field adds to what is gathered.
#[derive(Drop)]
pub enum Added {
    Nothing,
    Scalar { slot: usize, value: u64 },
    Text { field: u64, slot: usize, part: Part },
    Member { field: u64, part: Part },
    // A message of a repeated field.
    Repeated,
    Transport(u64),
    // A packed list of transports.
    Packed(Part),
}

// Whether a field of this role and wire type may stand here; member is the member's field so far, count the messages of a repeated field.
#[tactic(auto, unfolding(crate::specs::Walk::judged))]
fn judge(role: Role, wire: u64, member: u64, count: usize) -> Result<(), Refusal>
    ensures { told_field_verdict result ≡ judged role wire member count }
{
    if !fits_role(role, wire) {
        return Err(Refusal::WrongType);
    }
    if is_member(role, wire) && member != 0 {
        return Err(Refusal::TooMany);
    }
    if is_repeated(role) && MOST_REPEATED <= count {
        return Err(Refusal::TooMany);
    }
    Ok(())
}

// One entry of a packed list; the answer is the place after it.
#[tactic(auto, using(std::proofs::lemmas::Result::err_from_is_err_and), unfolding(crate::specs::Walk::entry_at))]
fn read_entry(message: &[u8], at: usize, gathered: &mut Gathered) -> Result<usize, Refusal>
    ensures { told_entry result gathered.new ≡ entry_at message.now at gathered.old }
{
    let entry = read_varint(message, at)?;
    gathered.add_transport(entry.value)?;
    Ok(entry.next)
}

// The entries of a packed list, from a place to the end; each ends at a place of its own.
fn read_packed(message: &[u8], from: usize, gathered: &mut Gathered) -> Result<(), Refusal>
    ensures { field_judged result gathered.new ≡ packed_from message.now from gathered.old }
{
    let mut at = from;
    while at < message.len() {
        at = read_entry(message, at, gathered)?;
    }
    Ok(())
}

// What a number adds.
fn number_added(role: Role, value: u64) -> Added
    ensures { result ≡ number_added role value }
{
    match role {
        Role::Scalar(slot) => Added::Scalar { slot, value },
        Role::Transports => Added::Transport(value),
        Role::Text(_) | Role::Nested | Role::Repeated | Role::Member | Role::Unknown => {
            Added::Nothing
        }
    }
}

// What a part of the message adds.
fn part_added(role: Role, field: u64, part: Part) -> Added
    ensures { result ≡ part_added role field part }
{
    match role {
        Role::Text(slot) => Added::Text { field, slot, part },
        Role::Transports => Added::Packed(part),
        Role::Nested | Role::Member => Added::Member { field, part },
        Role::Repeated => Added::Repeated,
        Role::Scalar(_) | Role::Unknown => Added::Nothing,
    }
}

// What a value adds.
fn value_added(role: Role, field: u64, value: Value) -> Added
    ensures { result ≡ value_added role field value }
{
    match value {
        Value::Number(n) => number_added(role, n),
        Value::Bytes(part) => part_added(role, field, part),
        Value::Skipped(_) => Added::Nothing,
    }
}

// The value of a field whose tag was judged.
#[tactic(auto, using(std::proofs::lemmas::Result::err_from_is_err_and), unfolding(crate::specs::Walk::added_at))]
fn take_value(
    message: &[u8],
    at: usize,
    wire: u64,
    role: Role,
    field: u64,
) -> Result<Placed<Added>, Refusal>
    ensures { told_field result ≡ added_at message.now at wire role field }
{
    let read = read_value(message, at, wire)?;
    Ok(Placed {
        value: value_added(role, field, read.value),
        next: read.next,
    })
}

// One field: its tag is judged, then its value is read; member and count are what was gathered of them so far.
#[tactic(auto, using(std::proofs::lemmas::Result::err_from_is_err_and), unfolding(crate::specs::Walk::read_at))]
fn read_field(
    schema: Schema,
    message: &[u8],
    at: usize,
    member: u64,
    count: usize,
) -> Result<Placed<Added>, Refusal>
    ensures { told_field result ≡ read_at schema message.now at member count }
{
    let head = read_tag(message, at)?;
    let role = role_of(schema, head.field);
    judge(role, head.wire, member, count)?;
    take_value(message, head.next, head.wire, role, head.field)
}

// A string, unless it has a bad sequence.
#[tactic(auto, unfolding(crate::specs::Walk::with_string))]
fn add_text(
    gathered: &mut Gathered,
    message: &[u8],
    field: u64,
    slot: usize,
    part: Part,
) -> Result<(), MessageRefusal>
    requires { part.start + part.len ≤ length message.now }
    ensures { judged_as result gathered.new ≡ with_string message.now field slot part gathered.old }
{
    let place = bad_place(part.of(message));
    if place != part.len {
        return Err(MessageRefusal::BadText { field, place });
    }
    gathered.set_text(slot, part);
    Ok(())
}

// What a field adds is gathered.
fn add(gathered: &mut Gathered, message: &[u8], added: Added) -> Result<(), MessageRefusal>
    requires { AddsWithin message.now gathered.old.count added }
    ensures { judged_as result gathered.new ≡ with_added message.now added gathered.old }
{
    match added {
        Added::Nothing => {}
        Added::Scalar { slot, value } => gathered.set_scalar(slot, value),
        Added::Text { field, slot, part } => add_text(gathered, message, field, slot, part)?,
        Added::Member { field, part } => gathered.set_member(field, part),
        Added::Repeated => gathered.count_message(),
        Added::Transport(value) => gathered.add_transport(value)?,
        Added::Packed(part) => read_packed(part.up_to_end(message), part.start, gathered)?,
    }
    Ok(())
}

// The fields from a place to the end.
pub fn read_fields(schema: Schema, message: &[u8], from: usize) -> Result<Gathered, MessageRefusal>
    ensures { told_kept result ≡ fields_from schema message.now from }
{
    let mut so_far = Gathered::nothing();
    let mut at = from;
    while at < message.len() {
        let read = read_field(schema, message, at, so_far.field, so_far.count)?;
        add(&mut so_far, message, read.value)?;
        at = read.next;
    }
    Ok(so_far)
}
