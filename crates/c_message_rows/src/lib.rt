// Control messages for C: what was read as rows, and what the writers are given by numbers.
#![tactic(auto)]

pub mod convert;
