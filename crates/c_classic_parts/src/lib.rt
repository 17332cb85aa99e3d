// The calls of the frame writer by parts for C: its state and answers as rows, and the calls over them.
#![tactic(auto)]

pub mod calls;
mod convert;
