// The reply's message in two runs: what stands before its member's bytes, and those.
#![tactic(auto)]

pub mod body;
pub mod front;
