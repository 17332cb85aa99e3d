// Runs the worked cases of messages and of the outbox through the library: a line for each row of P10 to P12 of the table in crate `worked`, in
// its order.
#![tactic(auto)]

mod kept;
mod messages;

fn main(rt: HostRuntime) {
    let to = rt.stdout();
    messages::cases(to);
    kept::cases(to);
}
