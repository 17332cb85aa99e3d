// The outbox: a file of messages that a box keeps until a kiln is in reach. This crate reads and writes its bytes.
#![tactic(auto)]

pub mod format;
mod judging;
pub mod reader;
pub mod verdict;
pub mod writer;
