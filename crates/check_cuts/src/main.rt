// Lists the outbox file given on standard input cut at each byte in turn: nothing of it, its first byte, .., all of it.
#![tactic(auto)]

use cli_console::{Console, Output, read_quietly};
use cli_listing::RecordView;

fn main(rt: HostRuntime) {
    let console = Console::of(&rt);
    let mut input = rt.stdin();
    let mut room = cli_listing::room();
    let n = read_quietly(&mut input, &mut room);
    let mut output = Output::new(console);
    for kept in 0..=n {
        let shown = cli_listing::list_part(output, RecordView::Lengths, &room[..kept], 0, true);
        output = shown.output;
    }
}
