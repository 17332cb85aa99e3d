// What every format of the link shares: bytes and numbers, runs of bytes, tests, streams.
#![tactic(auto)]

pub mod bytes;
pub mod limit;
pub mod logic;
pub mod refusal;
pub mod scan;
pub mod stream;
