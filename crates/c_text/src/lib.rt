// Texts for C.
#![tactic(auto)]

pub mod calls;
