// The writer of Classic frames.
#![tactic(auto)]

pub mod writer;
