// The calls of control messages for C: readers and writers over rows.
#![tactic(auto)]

pub mod calls;
