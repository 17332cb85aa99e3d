// The reply to a finished control transaction, written as joined packets.
#![tactic(auto)]

ghost use Rattle.std.specs.Prelude.{◌≡◌, false, ◌++◌, ◌≤◌, length};
ghost use Rattle.wire.specs.Told.{written};
ghost use Rattle.ble_joined.specs.Joined.{joined_of};
ghost use Rattle.msg_control.specs.Response.{bad_response_payload};
ghost use Rattle.reply_parts.specs.Front.{front_bytes};
ghost use Rattle.reply_parts.specs.Body.{body_lent};
ghost use Rattle.reply.specs.Reply.{box_lent, sending_of, member_of, bad_carried, is_response, joined_in, carried_of, sent_of, replied_of};
ghost use Rattle.reply_parts.specs.Body.{FewCarried};
ghost use Rattle.reply.specs.declared.Refusal.TheVariants.{BadText};
ghost use Rattle.reply.specs.Put.{why_of, number_of, told, told_sent, verdict_of, judged_of, FrontFor, MeasuredAs, PutsReply, Joinable, Carries};

use ble_joined::{join, joined_len};
use ble_packet::header;
use ble_sender::writer::{Sending, room_fits};
use msg_control::envelope::{Payload, read_envelope};
use proto_field::signed::sign_extended;
use proto_reader::gathered::MOST_TRANSPORTS;
use proto_reader::refusal::MessageRefusal;
use proto_strings::{BAD_TEXT, Faulted, TextFault};
use proto_writer::message::bad_member;
use reply_parts::body::{
    CommandKind, Members, OwnBox, body_room, code_of, fault_of, kind_of_command, put_body,
};
use reply_parts::front::{ReplyFront, front_len, put_front};
use wire::limit::limit_fits;
use wire::logic::either;
use wire::refusal::Numbered;

// Where the reply goes: the room, the limit, the transaction's id, and the sequence of its first packet.
#[derive(Clone, Copy)]
pub struct Link {
    pub room: usize,
    pub limit: usize,
    pub id: u8,
    pub sequence: u8,
}

#[derive(Clone, Copy, Debug, PartialEq, Eq)]
pub enum Refusal {
    // The message's own.
    Message(MessageRefusal),
    Room,
    Limit,
    Argument,
    // A string is not well formed.
    BadText(TextFault),
    Output,
}

impl From<TextFault> for Refusal {
    ghost from_gives = { λ fault r. r ≡ BadText fault };

    fn from(fault: TextFault) -> Refusal {
        Refusal::BadText(fault)
    }
}

impl Numbered for Refusal {
    ghost number_of = { number_of };

    fn number(&self) -> u8 {
        match self {
            Refusal::Message(why) => why.number(),
            Refusal::Room => 13,
            Refusal::Limit => 17,
            Refusal::Argument => 15,
            Refusal::BadText(_) => BAD_TEXT,
            Refusal::Output => 14,
        }
    }
}

impl Faulted for Refusal {
    ghost goes_with = { λ why. (why_of why).1 };

    fn fault(&self) -> [u64; 2] {
        match self {
            Refusal::Message(_) => [0u64; 2],
            Refusal::Room => [0u64; 2],
            Refusal::Limit => [0u64; 2],
            Refusal::Argument => [0u64; 2],
            Refusal::BadText(fault) => [fault.field, fault.place as u64],
            Refusal::Output => [0u64; 2],
        }
    }
}

// The number of the response's member.
fn member_of(kind: CommandKind, members: Members) -> Option<u64>
    ensures { result ≡ member_of members kind }
{
    match kind {
        CommandKind::Information => Some(members.information),
        CommandKind::Features => Some(members.features),
        CommandKind::Bare => None,
        CommandKind::Other => None,
    }
}

// Whether what the reply carries is out of its range.
fn bad_carried(kind: CommandKind, members: Members, count: usize) -> bool
    ensures { result ≡ bad_carried members count kind }
{
    match kind {
        CommandKind::Information => either(
            bad_member(members.information),
            MOST_TRANSPORTS < count,
        ),
        CommandKind::Features => bad_member(members.features),
        CommandKind::Bare => false,
        CommandKind::Other => false,
    }
}

// The table, from the top, up to what the reply's bytes decide.
fn judge(link: Link, own: OwnBox, kind: CommandKind) -> Result<(), Refusal>
    ensures { verdict_of result
        ≡ judged_of link own.entry.members (length own.entry.information.transports.now) kind }
{
    if !room_fits(link.room) {
        return Err(Refusal::Room);
    }
    if !limit_fits(link.limit) {
        return Err(Refusal::Limit);
    }
    if !header::in_range(0, link.id, link.sequence) {
        return Err(Refusal::Argument);
    }
    if bad_carried(kind, own.members, own.information.transports.len()) {
        return Err(Refusal::Argument);
    }
    Ok(())
}

// What stands before the member's bytes.
fn front_for(value: u64, kind: CommandKind, members: Members, body: usize) -> ReplyFront
    ensures { FrontFor value kind members body result }
{
    let code = code_of(kind);
    let member = member_of(kind, members);
    ReplyFront {
        value,
        code,
        member,
        body,
    }
}

// The front of the reply, if all of it is within the limit.
fn measure(value: u64, kind: CommandKind, limit: usize, own: OwnBox) -> Option<ReplyFront>
    requires { (limit ≤ 65535)
        × FewCarried kind own.information.transports.now
        × (bad_response_payload (member_of own.members kind) ≡ false) }
    ensures { MeasuredAs value kind own.entry.members (body_lent own.entry kind) limit result }
{
    let left = body_room(limit, kind, own)?;
    let body = limit - left;
    let front = front_for(value, kind, own.members, body);
    let head = front_len(front);
    if left < head {
        return None;
    }
    Some(front)
}

// The reply at the end of an output that is exactly as long as its packets, then joined.
fn put_reply(
    out: &mut [u8],
    front: ReplyFront,
    total: usize,
    how: Sending,
    kind: CommandKind,
    own: OwnBox,
)
    requires { FewCarried kind own.information.transports.now
        × PutsReply front total how (body_lent own kind) out.old }
    ensures { out.new ≡ joined_of how (front_bytes front ++ body_lent own.entry kind) }
{
    let end = out.len();
    let start = end - total;
    let middle = end - front.body;
    put_front(&mut out[start..end], front);
    put_body(&mut out[middle..end], kind, own);
    join(out, how, total);
}

// The reply, if the output holds all of its packets: how many bytes they have.
fn fill(
    out: &mut [u8],
    front: ReplyFront,
    link: Link,
    kind: CommandKind,
    own: OwnBox,
) -> Result<usize, Refusal>
    requires { FewCarried kind own.information.transports.now
        × Joinable front (body_lent own kind) link }
    ensures { written (told_sent result) out.new
        ≡ joined_in (sending_of link) (front_bytes front ++ body_lent own.entry kind) out.old }
{
    let room = link.room;
    let total = front_len(front) + front.body;
    let joined = joined_len(room, total);
    if out.len() < joined {
        return Err(Refusal::Output);
    }
    let how = Sending {
        room,
        stream: 0,
        id: link.id,
        sequence: link.sequence,
        ack: false,
    };
    put_reply(&mut out[0..joined], front, total, how, kind, own);
    Ok(joined)
}

// The reply to a command, by the varint's value of it, where no line of the table has held so far.
fn carry(
    out: &mut [u8],
    value: u64,
    kind: CommandKind,
    own: OwnBox,
    link: Link,
) -> Result<usize, Refusal>
    requires { Carries kind own.members own.information.transports.now link }
    ensures { written (told_sent result) out.new
        ≡ carried_of (box_lent own.entry) link value kind out.old }
{
    let Some(front) = measure(value, kind, link.limit, own) else {
        return Err(Refusal::Argument);
    };
    fault_of(kind, own)?;
    fill(out, front, link, kind, own)
}

// The reply to a command.
fn answer(out: &mut [u8], value: u64, own: OwnBox, link: Link) -> Result<usize, Refusal>
    ensures { written (told_sent result) out.new ≡ sent_of (box_lent own.entry) link value out.old }
{
    let kind = kind_of_command(value);
    judge(link, own, kind)?;
    carry(out, value, kind, own, link)
}

// Whether a message is itself a response.
fn is_response(payload: Payload) -> bool
    ensures { result ≡ is_response payload }
{
    matches!(payload, Payload::Response(_))
}

// Writes the reply to a finished control transaction, joined, from the first byte on: the number of bytes of its packets, or none
// where the message is itself a response.
pub fn write_reply(
    out: &mut [u8],
    message: &[u8],
    own: OwnBox,
    link: Link,
) -> Result<Option<usize>, Refusal>
    ensures { written (told result) out.new
        ≡ replied_of (box_lent own.entry) link message.now out.old }
{
    match read_envelope(&message[..]) {
        Err(e) => Err(Refusal::Message(e)),
        Ok(envelope) => {
            let payload = envelope.payload;
            if is_response(payload) {
                return Ok(None);
            }
            let value = sign_extended(envelope.command);
            Ok(Some(answer(out, value, own, link)?))
        }
    }
}
