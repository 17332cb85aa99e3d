// Lists the outbox file given on standard input; with --payloads what each record holds, too.
#![tactic(auto)]

use cli_console::{Console, argument_count, argument_is, complain};
use cli_listing::RecordView;
use std::io::Stdin;

fn list(console: Console, input: Stdin, view: RecordView) {
    let mut outbox = input;
    let mut room = cli_listing::room();
    cli_listing::list(console, &mut outbox, &mut room, view);
}

fn main(rt: HostRuntime) {
    let console = Console::of(&rt);
    let count = argument_count(&rt);
    if count <= 1 {
        list(console, rt.stdin(), RecordView::Lengths);
        return;
    }
    if count == 2 && argument_is(&rt, 1, b"--payloads") {
        list(console, rt.stdin(), RecordView::Payloads);
        return;
    }
    complain(console, b"usage: records [--payloads] < OUTBOX\n");
}
