// The calls of the outbox for C: answers as rows, and the outbox over them.
#![tactic(auto)]

pub mod calls;
mod convert;
