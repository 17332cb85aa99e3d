// The walk over the fields of a message, for every message, and what is gathered.
#![tactic(auto)]

pub mod gathered;
pub mod reader;
pub mod refusal;
