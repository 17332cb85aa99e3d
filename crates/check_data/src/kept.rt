// The cases of the outbox, P12.
use check_printing::{end, number, refused, text};
use outbox::reader::{FoundRecord, ReadRefusal, read};
use outbox::verdict::Broken;
use std::io::Stdout;
use wire::refusal::Numbered;

fn print_record(to: Stdout, found: FoundRecord) {
    text(to, b" record of stream");
    number(to, found.stream as usize);
    text(to, b", payload at");
    number(to, found.start);
    text(to, b" of length");
    number(to, found.size);
    text(to, b", next place");
    number(to, found.next);
}

fn print_broken(to: Stdout, broken: Broken) {
    refused(to, broken.number());
    text(to, b" at");
    number(to, broken.place);
}

fn read_record(to: Stdout, label: &[u8], file: &[u8], place: usize) {
    text(to, label);
    match read(file, place) {
        Ok(Some(found)) => print_record(to, found),
        Ok(None) => text(to, b" end"),
        Err(ReadRefusal::BadPlace) => refused(to, ReadRefusal::BadPlace.number()),
        Err(ReadRefusal::Broken(broken)) => print_broken(to, broken),
    }
    end(to);
}

pub fn cases(to: Stdout) {
    read_record(to, b"P12", b"\x01\x00\x03\x06\x41\x42", 1);
    read_record(to, b"P12", b"\x01\x00\x03\x06\x41\x42", 6);
    read_record(to, b"P12", b"\x01\x00\x03\x06\x41", 1);
}
