// Says why a sender is not lawful: the same input as `lawful`, its line, and then of 41 and 42 their place, of the packet that decides
// what was expected and what came, or what is still open at the end.
#![tactic(auto)]

use ble_packet::header;
use capture_judge::State;
use capture_judge::capture::Refusal;
use capture_judge::input::{LARGEST_CAPTURE, SETTINGS, settings_in, trace_input};
use capture_next::NextPacket;
use capture_reader::RefusedAt;
use capture_stream::SenderSlot;
use capture_why::{Came, Expected, Explained, ReadNumbers};
use cli_console::sentences::explain_capture;
use cli_console::{Console, Output, is_alone, read_full};
use wire::bytes::wide;
use wire::refusal::Numbered;
use wire::stream::Stream;

// Room, limit, the largest capture, and one byte more, by which a larger one is told.
const SPACE: usize = SETTINGS + LARGEST_CAPTURE + 1;

fn say_number(output: Output, text: &[u8], n: usize) -> Output {
    output.text(text).number(n as u64)
}

fn say_bit(output: Output, text: &[u8], set: bool) -> Output {
    output.text(text).number(u64::from(set))
}

// The id and the sequence that a packet must have; a first one may have any.
fn say_expected_head(output: Output, next: NextPacket) -> Output {
    match next.head {
        Some(head) => {
            let named = say_number(output, b"expected: id ", wide(head.id));
            say_number(named, b", sequence ", wide(head.sequence))
        }
        None => output.text(b"expected: any id, any sequence"),
    }
}

fn say_flag(output: Output, last: bool) -> Output {
    if last {
        output.text(b", flag 0 or 1")
    } else {
        output.text(b", flag 0")
    }
}

// What is expected, in one line.
fn say_expected(output: Output, next: NextPacket) -> Output {
    let head = say_expected_head(output, next);
    let kind = say_number(head, b", type ", wide(next.kind));
    let sized = say_number(kind, b", ", next.len).text(b" bytes");
    let flagged = say_flag(sized, next.last);
    say_bit(flagged, b", extender ", next.extended).text(b"\n")
}

fn say_expected_by(output: Output, expected: Expected) -> Output {
    match expected {
        Expected::Nothing => output,
        Expected::AnyFirst => output.text(b"expected: any id, any sequence, type 0\n"),
        Expected::This(next) => say_expected(output, next),
    }
}

// The fields that each packet of two bytes has.
fn say_came(output: Output, came: Came) -> Output {
    let named = say_number(output, b"came: id ", wide(came.id));
    let numbered = say_number(named, b", sequence ", wide(came.sequence));
    say_number(numbered, b", type ", wide(came.kind))
}

fn say_payload(output: Output, came: Came, read: ReadNumbers) -> Output {
    let sized = say_number(say_came(output, came), b", ", read.len).text(b" bytes");
    let flagged = say_bit(sized, b", flag ", came.ack);
    say_bit(flagged, b", extender ", came.extended)
}

fn say_size(output: Output, text: &[u8], size: usize) -> Output {
    say_number(output, text, size).text(b" bytes in all\n")
}

// By the number of our reader's refusal.
fn say_reason(output: Output, number: u8) -> Output {
    match number {
        2 => output.text(b", it is shorter than its header\n"),
        3 => output.text(b", its stream is not 0, 2 or 6\n"),
        12 => output.text(b", of type 3 and neither an ACK nor a NACK\n"),
        4 => output.text(b", its reserved byte is not 0\n"),
        5 => output.text(b", it is not as long as its header and payload\n"),
        6 => output.text(b", its total is above the limit\n"),
        7 => output.text(b", its payload is empty\n"),
        _ => output.text(b", its payload is above its total\n"),
    }
}

fn say_refused_size(output: Output, came: Came) -> Output {
    if came.size < header::START_SIZE {
        say_size(output, b"came: ", came.size)
    } else {
        say_size(say_came(output, came), b"; ", came.size)
    }
}

fn say_refused_packet(output: Output, came: Came, number: u8) -> Output {
    let sized = say_refused_size(output, came);
    let refused = say_number(sized, b"our reader refuses it: ", wide(number));
    say_reason(refused, number)
}

fn say_read(output: Output, came: Came, read: ReadNumbers) -> Output {
    let said = say_payload(output, came, read);
    match read.total {
        Some(total) => say_size(say_number(said, b", total ", total), b"; ", came.size),
        None => say_size(said, b"; ", came.size),
    }
}

// What was expected, and what came.
fn say_packet(output: Output, came: Came, expected: Expected) -> Output {
    let named = say_number(output, b"stream ", wide(came.stream)).text(b"\n");
    let held = say_expected_by(named, expected);
    match came.read {
        Ok(read) => say_read(held, came, read),
        Err(number) => say_refused_packet(held, came, number),
    }
}

fn say_open(output: Output, state: State, stream: Stream) -> Output {
    let slot = state.slot(stream);
    match slot {
        SenderSlot::Idle => output,
        SenderSlot::Open { id, left, sequence } => {
            let named = say_number(output, b"stream ", wide(stream.number()));
            let opened = say_number(named, b": id ", wide(id));
            let counted = say_number(opened, b", ", left);
            say_number(counted, b" bytes to come, next sequence ", wide(sequence)).text(b"\n")
        }
    }
}

fn say_end(output: Output, state: State) -> Output {
    if state.is_idle() {
        return output.text(b"lawful\n");
    }
    let control = say_open(output.text(b"open\n"), state, Stream::Control);
    let ota = say_open(control, state, Stream::Ota);
    say_open(ota, state, Stream::Alexa)
}

// The place of a refusal, where it has one.
fn say_at(output: Output, at: usize) -> Output {
    if at != 0 {
        say_number(output, b"at ", at).text(b"\n")
    } else {
        output
    }
}

fn say_refused(output: Output, why: Refusal, at: usize) -> Output {
    let refused = say_number(output, b"refused ", wide(why.number())).text(b"\n");
    let said = say_at(refused, at);
    explain_capture(output.console, why.number());
    said
}

fn say_explained(output: Output, explained: Explained) -> Output {
    match explained {
        Explained::Ended(state) => say_end(output, state),
        Explained::Stopped {
            at,
            state: _,
            came,
            expected,
        } => {
            let placed = say_number(output, b"unlawful at ", at).text(b"\n");
            say_packet(placed, came, expected)
        }
    }
}

fn explain(console: Console, input: &[u8]) -> Output {
    let output = Output::new(console);
    let start = input.len().min(SETTINGS);
    let traced = trace_input(input);
    let why = capture_why::explain(&input[start..], settings_in(input), traced);
    match why {
        Ok(explained) => say_explained(output, explained),
        Err(RefusedAt { why, at }) => say_refused(output, why, at),
    }
}

fn main(rt: HostRuntime) {
    let console = Console::of(&rt);
    if !is_alone(
        &rt,
        console,
        b"usage: why < INPUT (room and limit, two bytes each, then a capture)\n",
    ) {
        return;
    }
    let mut input = rt.stdin();
    let mut space = [0u8; SPACE];
    let Ok(n) = read_full(console, &mut input, &mut space) else {
        return;
    };
    explain(console, &space[..n]);
}
