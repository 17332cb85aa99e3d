// Reads a firmware message and writes it again: for comparison with other makers' tools (tools/compare_protoc).
// Standard input is a letter for the message's kind and the message. Standard output is the answer; 1 is for any other letter, 2 for an
// input that is too long.
#![tactic(auto)]

use check_answering::{NO_KIND, TOO_LONG, refuse, show};
use cli_console::read_quietly;
use msg_apply_writer::apply::write_apply;
use msg_firmware::apply::read_apply;
use msg_firmware::segment::read_segment;
use msg_segment_writer::write_segment;
use std::io::Stdout;
use wire::refusal::Numbered;

const SEGMENT: u8 = b'S';

const APPLY: u8 = b'A';
// A letter, a message of at most 8,192 bytes, and one byte that is too many.
const INPUT: usize = 8194;

fn segment_again(to: Stdout, message: &[u8], out: &mut [u8]) {
    match read_segment(message) {
        Err(why) => refuse(to, why.number()),
        Ok(segment) => {
            let wrote = write_segment(
                out,
                segment.component_name.of(message),
                segment.component_offset,
                segment.segment_size,
                segment.segment_signature.of(message),
            );
            show(to, wrote, out);
        }
    }
}

fn apply_again(to: Stdout, message: &[u8], out: &mut [u8]) {
    match read_apply(message) {
        Err(why) => refuse(to, why.number()),
        Ok(apply) => {
            let wrote = write_apply(out, apply, message);
            show(to, wrote, out);
        }
    }
}

fn again(to: Stdout, kind: u8, message: &[u8], out: &mut [u8]) {
    if kind == SEGMENT {
        return segment_again(to, message, out);
    }
    if kind == APPLY {
        return apply_again(to, message, out);
    }
    refuse(to, NO_KIND)
}

fn main(rt: HostRuntime) {
    let to = rt.stdout();
    let mut from = rt.stdin();
    let mut input = [0u8; 8194];
    let n = read_quietly(&mut from, &mut input);
    if n == 0 {
        return refuse(to, NO_KIND);
    }
    if n == INPUT {
        return refuse(to, TOO_LONG);
    }
    let mut out = [0u8; 8192];
    again(to, input[0], &input[1..n], &mut out);
}
