// Low Energy packets: one packet read; the layout of headers, ACK and NACK packets, for the reader and the writers.
#![tactic(auto)]

pub mod control;
pub mod header;
pub mod reader;
