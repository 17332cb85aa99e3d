// Judges the sender of the capture on standard input: room and limit, two bytes each, then the capture.
#![tactic(auto)]

use capture_judge::capture::{Refusal, SenderVerdict};
use capture_judge::input::{LARGEST_CAPTURE, SETTINGS, judge_input};
use capture_reader::RefusedAt;
use cli_console::sentences::explain_capture;
use cli_console::{Console, Output, is_alone, read_full};
use wire::refusal::Numbered;

// Room, limit, the largest capture, and one byte more, by which a larger one is told.
const SPACE: usize = SETTINGS + LARGEST_CAPTURE + 1;

fn show(console: Console, judged: Result<SenderVerdict, RefusedAt<Refusal>>) {
    let output = Output::new(console);
    match judged {
        Err(RefusedAt { why, at: _ }) => {
            output
                .text(b"refused ")
                .number(u64::from(why.number()))
                .text(b"\n");
            explain_capture(console, why.number());
        }
        Ok(SenderVerdict::Lawful) => {
            output.text(b"lawful\n");
        }
        Ok(SenderVerdict::Open) => {
            output.text(b"open\n");
        }
        Ok(SenderVerdict::Unlawful(at)) => {
            output.text(b"unlawful at ").number(at as u64).text(b"\n");
        }
    }
}

fn main(rt: HostRuntime) {
    let console = Console::of(&rt);
    if !is_alone(
        &rt,
        console,
        b"usage: lawful < INPUT (room and limit, two bytes each, then a capture)\n",
    ) {
        return;
    }
    let mut input = rt.stdin();
    let mut space = [0u8; SPACE];
    let Ok(n) = read_full(console, &mut input, &mut space) else {
        return;
    };
    show(console, judge_input(&space[..n]));
}
