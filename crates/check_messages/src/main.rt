// Reads a control message and writes it again: for comparison with other makers' tools (tools/compare_protoc).
// Standard input is a letter for the message's kind and the message. Standard output is the answer; 1 is for any other letter, 2 for an
// input that is too long.
#![tactic(auto)]

use check_answering::{NO_KIND, TOO_LONG, refuse, show};
use cli_console::read_quietly;
use msg_control::envelope::{EnvelopePayload, Payload, read_envelope, write_envelope};
use msg_control::response::{read_response, write_response};
use msg_device::features::{read_features, write_features};
use msg_device::information::{InformationToWrite, read_information, write_information};
use std::io::Stdout;
use wire::refusal::Numbered;

const ENVELOPE: u8 = b'E';

const RESPONSE: u8 = b'R';

const INFORMATION: u8 = b'I';

const FEATURES: u8 = b'F';
// A letter, a message of at most 8,192 bytes, and one byte that is too many.
const INPUT: usize = 8194;

fn inner(field: u64) -> Option<u64> {
    if field == 0 {
        return None;
    }
    Some(field)
}

fn envelope_again(to: Stdout, message: &[u8], out: &mut [u8]) {
    match read_envelope(message) {
        Err(why) => refuse(to, why.number()),
        Ok(envelope) => {
            let command = envelope.command;
            match envelope.payload {
                Payload::None => {
                    let wrote = write_envelope(out, command, EnvelopePayload::None, message);
                    show(to, wrote, out);
                }
                Payload::Response(r) => {
                    let carried = EnvelopePayload::Response {
                        error_code: r.error_code,
                        payload: inner(r.field),
                    };
                    let wrote = write_envelope(out, command, carried, r.part.of(message));
                    show(to, wrote, out);
                }
                Payload::Member { field, part } => {
                    let carried = EnvelopePayload::Member(field);
                    let wrote = write_envelope(out, command, carried, part.of(message));
                    show(to, wrote, out);
                }
            }
        }
    }
}

fn response_again(to: Stdout, message: &[u8], out: &mut [u8]) {
    match read_response(message) {
        Err(why) => refuse(to, why.number()),
        Ok(r) => {
            let wrote = write_response(out, r.error_code, inner(r.field), r.part.of(message));
            show(to, wrote, out);
        }
    }
}

fn information_again(to: Stdout, message: &[u8], out: &mut [u8]) {
    match read_information(message) {
        Err(why) => refuse(to, why.number()),
        Ok(i) => {
            let again = InformationToWrite {
                serial_number: i.serial_number.of(message),
                name: i.name.of(message),
                transports: &i.transports[..i.count],
                device_type: i.device_type.of(message),
            };
            let wrote = write_information(out, again);
            show(to, wrote, out);
        }
    }
}

fn features_again(to: Stdout, message: &[u8], out: &mut [u8]) {
    match read_features(message) {
        Err(why) => refuse(to, why.number()),
        Ok(features) => {
            let wrote = write_features(out, features);
            show(to, wrote, out);
        }
    }
}

fn again(to: Stdout, kind: u8, message: &[u8], out: &mut [u8]) {
    if kind == ENVELOPE {
        return envelope_again(to, message, out);
    }
    if kind == RESPONSE {
        return response_again(to, message, out);
    }
    if kind == INFORMATION {
        return information_again(to, message, out);
    }
    if kind == FEATURES {
        return features_again(to, message, out);
    }
    refuse(to, NO_KIND)
}

fn main(rt: HostRuntime) {
    let to = rt.stdout();
    let mut from = rt.stdin();
    let mut input = [0u8; 8194];
    let n = read_quietly(&mut from, &mut input);
    if n == 0 {
        return refuse(to, NO_KIND);
    }
    if n == INPUT {
        return refuse(to, TOO_LONG);
    }
    let mut out = [0u8; 8192];
    again(to, input[0], &input[1..n], &mut out);
}
