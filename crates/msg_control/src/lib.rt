// The control envelope and its response, read and written.
#![tactic(auto)]

pub mod envelope;
pub mod response;
