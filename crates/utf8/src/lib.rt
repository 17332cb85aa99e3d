// Strings of messages: well-formed UTF-8, by Unicode's Table 3-7.
#![tactic(auto)]

pub mod check;
pub mod claims;
pub mod table;
mod usual;
