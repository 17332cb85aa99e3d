// ApplyFirmware written, with its nested messages.
#![tactic(auto)]

pub mod apply;
pub mod information;
