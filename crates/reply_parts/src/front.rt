// What stands before the bytes of the reply's member.
ghost use Rattle.std.specs.Prelude.{◌≡◌, false, ◌+◌, ◌≤◌, ◌<◌, length};
ghost use Rattle.wire.specs.Put.{Put};
ghost use Rattle.msg_control.specs.Response.{bad_response_payload};
ghost use Rattle.reply_parts.specs.Front.{member_head, inner_length, front_bytes, FrontFits};

use proto_schema::{COMMAND, ERROR_CODE, RESPONSE};
use proto_writer::fields::{head_len, put_head, put_scalar, scalar_len};

// The varints' values of command and error code, the number of the member, and the number of its bytes.
#[derive(Clone, Copy)]
pub struct ReplyFront {
    pub value: u64,
    pub code: u64,
    pub member: Option<u64>,
    pub body: usize,
}

// The number of bytes of the member's tag and length.
fn member_len(member: Option<u64>, n: usize) -> usize
    requires { bad_response_payload member ≡ false }
    ensures { (result ≡ length (member_head member n)) × (result ≤ 20) }
{
    match member {
        None => 0,
        Some(field) => head_len(field, n),
    }
}

// The member's tag and length, written at a place; the answer is the place after them.
fn put_member(out: &mut [u8], at: usize, member: Option<u64>, n: usize) -> usize
    requires { (bad_response_payload member ≡ false) × (at + length (member_head member n) ≤ length out.old) }
    ensures { Put out.old at (member_head member n) result out.new }
{
    match member {
        None => at,
        Some(field) => put_head(out, at, field, n),
    }
}

// The length of the response.
fn inner_len(front: ReplyFront) -> usize
    requires { FrontFits front }
    ensures { (result ≡ inner_length front) × (result ≤ 65575) }
{
    let member = front.member;
    let body = front.body;
    let code = scalar_len(ERROR_CODE, front.code);
    let head = member_len(member, body);
    code + head + body
}

// The number of bytes before the member's.
pub fn front_len(front: ReplyFront) -> usize
    requires { FrontFits front }
    ensures { (result ≡ length (front_bytes front)) × (result ≤ 80) }
{
    let inner = inner_len(front);
    let member = front.member;
    let command = scalar_len(COMMAND, front.value);
    let response = head_len(RESPONSE, inner);
    let code = scalar_len(ERROR_CODE, front.code);
    let head = member_len(member, front.body);
    command + response + code + head
}

// The bytes before the member's, written from the first byte on; the answer is the place after them.
pub fn put_front(out: &mut [u8], front: ReplyFront) -> usize
    requires { FrontFits front × (length (front_bytes front) ≤ length out.old) }
    ensures { Put out.old 0 (front_bytes front) result out.new }
{
    let inner = inner_len(front);
    let member = front.member;
    let second = put_scalar(out, 0, COMMAND, front.value);
    let third = put_head(out, second, RESPONSE, inner);
    let fourth = put_scalar(out, third, ERROR_CODE, front.code);
    put_member(out, fourth, member, front.body)
}
