// What a refusal says of a program's input, to whoever runs it. By number and by no enum: refusals of five enums of four crates meet here,
// and an enum of them all would be no plainer.
use crate::{Console, complain};

// Of an outbox file.
pub fn explain_outbox(console: Console, number: u8) {
    match number {
        40 => complain(
            console,
            b"this is no outbox file: it is empty, or its first byte is neither 01 nor 02\n",
        ),
        41 => complain(
            console,
            b"the last record is cut short; all before it are whole\n",
        ),
        42 => complain(
            console,
            b"a record's length is out of its range: what follows is no outbox's\n",
        ),
        43 => complain(
            console,
            b"a record's stream is none of 0, 2 and 6: what follows is no outbox's\n",
        ),
        46 => complain(
            console,
            b"that record has more than 4,096 bytes, which no file of version 01 can hold\n",
        ),
        _ => {}
    }
}

// Of room, limit and capture.
pub fn explain_capture(console: Console, number: u8) {
    match number {
        1 => complain(console, b"the capture has more than 65,536 bytes\n"),
        13 => complain(
            console,
            b"the room, the first two bytes, is not 20 to 512\n",
        ),
        17 => complain(console, b"the limit, the third and fourth byte, is 0\n"),
        40 => complain(console, b"no capture follows: its first byte would be 01\n"),
        41 => complain(console, b"the capture ends inside a packet or a length\n"),
        42 => complain(console, b"a packet of the capture has no byte\n"),
        _ => {}
    }
}
