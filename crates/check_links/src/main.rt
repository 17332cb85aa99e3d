// Runs the worked cases of the two links through the library: a line for each row of P1 to P9, and for the first two of No. 2, of the table in crate `worked`, in its order.
#![tactic(auto)]

mod classic;
mod low_energy;

// The limit of the worked cases.
pub const LIMIT: usize = 4096;

// The output lent to a writer: more than any case needs, but for packets of messages.
pub const OUTPUT: usize = 32;

fn main(rt: HostRuntime) {
    let to = rt.stdout();
    classic::cases(to);
    low_energy::cases(to);
}
