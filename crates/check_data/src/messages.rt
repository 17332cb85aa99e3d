// The cases of control messages, P10 and P11.
use check_printing::{bytes, digits, end, refused, text};
use msg_control::envelope::{Envelope, EnvelopePayload, Payload, write_envelope};
use proto_field::signed::sign_extended;
use std::io::Stdout;
use std::num::wrapping_sub_u64;
use wire::refusal::Numbered;

// The output lent to a writer: more than any case needs.
const OUTPUT: usize = 32;

fn write_response(to: Stdout, label: &[u8], command: i32, error_code: i32) {
    let mut out = [0u8; OUTPUT];
    let payload = EnvelopePayload::Response {
        error_code,
        payload: None,
    };
    let wrote = write_envelope(&mut out, command, payload, b"");
    text(to, label);
    match wrote {
        Ok(n) => bytes(to, &out, n),
        Err(why) => refused(to, why.number()),
    }
    end(to);
}

fn signed(to: Stdout, n: i32) {
    let value = sign_extended(n);
    if n < 0 {
        text(to, b" -");
        digits(to, wrapping_sub_u64(0, value));
    } else {
        text(to, b" ");
        digits(to, value);
    }
}

fn print_payload(to: Stdout, payload: Payload) {
    match payload {
        Payload::None => {}
        Payload::Response(response) => {
            text(to, b", error code");
            signed(to, response.error_code);
        }
        Payload::Member { field: _, part: _ } => text(to, b", another member"),
    }
}

fn print_envelope(to: Stdout, envelope: Envelope) {
    let payload = envelope.payload;
    text(to, b" command");
    signed(to, envelope.command);
    print_payload(to, payload);
}

fn read_envelope(to: Stdout, label: &[u8], message: &[u8]) {
    text(to, label);
    match msg_control::envelope::read_envelope(message) {
        Ok(envelope) => print_envelope(to, envelope),
        Err(_) => text(to, b" refused"),
    }
    end(to);
}

pub fn cases(to: Stdout) {
    write_response(to, b"P10", 94, 0);
    read_envelope(to, b"P10", b"\x08\x5E\x4A\x00");
    write_response(to, b"P10", 20, 3);
    read_envelope(to, b"P10", b"\x08\x14\x4A\x02\x08\x03");
    read_envelope(to, b"P11", b"\x08\xFF\xFF\xFF\xFF\xFF\xFF\xFF\xFF\xFF\x01");
}
