// A row of numbers read and written, and what a call from C leaves: what all calls of the C interface share.
#![tactic(auto)]

pub mod row;
