// One packet for C: the one at the front of some bytes, and the one at a place of a capture.
#![tactic(auto)]

pub mod calls;
mod convert;
