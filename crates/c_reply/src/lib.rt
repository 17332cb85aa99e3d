// The reply to the handshake for C.
#![tactic(auto)]

pub mod calls;
mod convert;
