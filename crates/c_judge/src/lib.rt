// Captures for C: whether one is lawful, and why not.
#![tactic(auto)]

pub mod calls;
mod convert;
