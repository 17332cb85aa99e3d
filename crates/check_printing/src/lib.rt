// Words, numbers and bytes on standard output, for the programs. Numbers and bytes have a blank before them.
#![tactic(auto)]

use std::io::Stdout;
use wire::bytes::byte_at;

pub fn text(out: Stdout, words: &[u8]) {
    let _ = out.write_all(words);
}

// The end of a line.
pub fn end(out: Stdout) {
    text(out, b"\n");
}

pub fn digits(out: Stdout, n: u64) {
    let _ = print!(out; "{n}");
}

pub fn number(out: Stdout, n: usize) {
    let _ = print!(out; " {n}");
}

// A byte as two digits of base 16.
fn byte(out: Stdout, b: u8) {
    let _ = print!(out; " {b:02X}");
}

// The first n of some bytes.
pub fn bytes(out: Stdout, all: &[u8], n: usize) {
    for i in 0..n {
        byte(out, byte_at(all, i));
    }
}

// A refusal by its number.
pub fn refused(out: Stdout, by: u8) {
    text(out, b" refused");
    number(out, usize::from(by));
}
