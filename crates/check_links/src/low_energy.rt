// The cases of Low Energy, P4 to P9 and No. 2.
use crate::{LIMIT, OUTPUT};
use ble_packet::header::extender_bit;
use ble_packet::reader;
use ble_packet::reader::Packet;
use ble_receiver::{SLOT_COUNT, decide};
use ble_sender::piece::LARGEST_ROOM;
use ble_sender::writer::{Sending, write_packet};
use ble_slot::Slot;
use ble_slot::answer::Accepted;
use check_printing::{bytes, end, number, refused, text};
use std::io::Stdout;
use wire::bytes::{byte_at, smaller};
use wire::refusal::Numbered;

// More packets than any case has.
const MOST_PACKETS: usize = 8;

// What is printed of each packet of a message: its header, or the length of its piece.
#[derive(Clone, Copy)]
enum Shown {
    Headers,
    Pieces,
}

fn print_packet(to: Stdout, shown: Shown, packet: &[u8], start: usize, len: usize) {
    match shown {
        Shown::Headers => bytes(to, packet, start),
        Shown::Pieces => {
            number(to, len);
            if extender_bit(byte_at(packet, 1)) {
                text(to, b" (extended)");
            }
        }
    }
}

fn print_read(to: Stdout, shown: Shown, packet: &[u8], read: Packet) {
    match read {
        Packet::First {
            head: _,
            ack: _,
            total: _,
            start,
            len,
        } => print_packet(to, shown, packet, start, len),
        Packet::Next {
            head: _,
            ack: _,
            last: _,
            start,
            len,
        } => print_packet(to, shown, packet, start, len),
        Packet::Ack(_) => text(to, b" ACK"),
        Packet::Nack(_) => text(to, b" NACK"),
    }
}

// Prints the packet that stands first in the output, as it is read back.
fn read_packet(to: Stdout, shown: Shown, out: &[u8], length: usize) {
    let n = smaller(length, out.len());
    match reader::read(LIMIT, &out[0..n]) {
        Ok(read) => print_read(to, shown, out, read),
        Err(why) => refused(to, why.number()),
    }
}

// Prints the packet of a message at a place, and answers the next place; none after the last.
fn next_packet(
    to: Stdout,
    shown: Shown,
    how: Sending,
    message: &[u8],
    place: usize,
    out: &mut [u8],
) -> Option<usize> {
    match write_packet(how, LIMIT, message, place, out) {
        Ok(sent) => {
            read_packet(to, shown, out, sent.length);
            if sent.next.is_some() {
                text(to, b",");
            }
            sent.next
        }
        Err(why) => {
            refused(to, why.number());
            None
        }
    }
}

fn print_packets(to: Stdout, shown: Shown, how: Sending, message: &[u8], out: &mut [u8]) {
    let mut place = 0;
    for _ in 0..MOST_PACKETS {
        let Some(next) = next_packet(to, shown, how, message, place, out) else {
            return;
        };
        place = next;
    }
}

fn write_packets(to: Stdout, label: &[u8], shown: Shown, how: Sending, message: &[u8]) {
    let mut out = [0u8; LARGEST_ROOM];
    text(to, label);
    print_packets(to, shown, how, message, &mut out);
    end(to);
}

fn print_accepted(to: Stdout, accepted: Accepted) {
    match accepted {
        Accepted::Taken {
            index: _,
            stream: _,
            id: _,
            replaced: _,
        } => text(to, b" taken"),
        Accepted::Finished {
            index: _,
            stream: _,
            id: _,
            total: _,
            ack,
            replaced: _,
        } => {
            text(to, b" finished");
            if ack {
                text(to, b", ACK wanted");
            }
        }
        Accepted::Acked(_) => text(to, b" ACK"),
        Accepted::Nacked(_) => text(to, b" NACK"),
    }
}

// A packet given to a link with this first control slot and this first Alexa slot, all others idle.
fn accept_packet(to: Stdout, label: &[u8], control: Slot, alexa: Slot, packet: &[u8]) {
    let mut buffer = [0u8; SLOT_COUNT * LIMIT];
    let none = Slot::idle();
    let slots = [
        control, none, none, none, none, none, none, none, alexa, none, none, none,
    ];
    let mut out = [0u8; OUTPUT];
    let outcome = decide(SLOT_COUNT, slots, LIMIT, &mut buffer, packet, 9, &mut out);
    let answer = outcome.answer;
    text(to, label);
    match answer {
        Ok(accepted) => print_accepted(to, accepted),
        Err(why) => refused(to, why.number()),
    }
    end(to);
}

fn write_acknowledgement(
    to: Stdout,
    label: &[u8],
    stream: u8,
    id: u8,
    sequence: u8,
    positive: bool,
) {
    let mut out = [0u8; OUTPUT];
    let answer = ble_ack::write(stream, id, sequence, positive, &mut out);
    text(to, label);
    match answer {
        Ok(n) => bytes(to, &out, n),
        Err(why) => refused(to, why.number()),
    }
    end(to);
}

// How a message is sent at a room: stream, id and sequence 0, no ACK wanted.
fn in_room(room: usize) -> Sending {
    Sending {
        room,
        stream: 0,
        id: 0,
        sequence: 0,
        ack: false,
    }
}

// A transaction of three bytes, of which one is held; the last packet had this sequence.
fn open_after(sequence: u8) -> Slot {
    Slot {
        opened: 1,
        id: 0,
        sequence,
        wanted: 0,
        total: 3,
        held: 1,
    }
}

// A transaction of two bytes whose first packet, with one of them, asked for an ACK.
fn asking() -> Slot {
    Slot {
        opened: 1,
        id: 1,
        sequence: 0,
        wanted: 1,
        total: 2,
        held: 1,
    }
}

fn sent(to: Stdout) {
    let fourth = Sending {
        room: 20,
        stream: 6,
        id: 1,
        sequence: 0,
        ack: true,
    };
    write_packets(to, b"P4", Shown::Headers, fourth, &[0u8; 35]);
    write_packets(to, b"P5", Shown::Pieces, in_room(244), &[0u8; 490]);
    write_packets(to, b"P6", Shown::Pieces, in_room(262), &[0u8; 300]);
    write_packets(to, b"P6", Shown::Pieces, in_room(263), &[0u8; 300]);
}

pub fn cases(to: Stdout) {
    sent(to);
    let none = Slot::idle();
    accept_packet(to, b"P7", open_after(15), none, b"\x00\x04\x01\x00");
    accept_packet(to, b"P7", open_after(15), none, b"\x00\xA4\x01\x00");
    write_acknowledgement(to, b"P8", 6, 1, 0, true);
    write_acknowledgement(to, b"P8", 6, 1, 0, false);
    write_packets(to, b"P9", Shown::Headers, in_room(20), b"");
    accept_packet(to, b"P9", none, none, b"\x00\x00\x00\x00\x00\x00");
    accept_packet(to, b"No. 2", none, none, b"\x61\x02\x00\x00\x02\x01\xAA");
    accept_packet(to, b"No. 2", none, asking(), b"\x61\x18\x01\xBB");
}
