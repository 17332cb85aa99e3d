// Fields of Protocol Buffers messages, written; and why a message writer refuses.
#![tactic(auto)]

pub mod fields;
pub mod message;
pub mod varint;
