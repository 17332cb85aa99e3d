// The calls of firmware messages and of single fields for C: readers and writers over rows.
#![tactic(auto)]

pub mod calls;
