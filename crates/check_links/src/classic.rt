// The cases of Classic, P1 to P3.
use crate::{LIMIT, OUTPUT};
use check_printing::{bytes, end, refused, text};
use classic_frame::header::next_sequence;
use std::io::Stdout;
use wire::refusal::Numbered;

fn write_frame(to: Stdout, label: &[u8], sequence: u8, payload: &[u8]) {
    let mut out = [0u8; OUTPUT];
    let outcome = classic_writer::writer::write_frame(sequence, LIMIT, payload, &mut out);
    text(to, label);
    match outcome {
        Ok(n) => bytes(to, &out, n),
        Err(why) => refused(to, why.number()),
    }
    end(to);
}

fn next_sequence_byte(to: Stdout, label: &[u8], sequence: u8) {
    let next = [next_sequence(sequence)];
    text(to, label);
    bytes(to, &next, 1);
    end(to);
}

pub fn cases(to: Stdout) {
    write_frame(to, b"P1", 0, b"");
    write_frame(to, b"P2", 5, b"\xF0");
    next_sequence_byte(to, b"P3", 0xEF);
    next_sequence_byte(to, b"P3", 0xFF);
    next_sequence_byte(to, b"P3", 0x00);
}
