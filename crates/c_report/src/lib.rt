// A report over captures for C: one capture added.
#![tactic(auto)]

pub mod calls;
mod convert;
