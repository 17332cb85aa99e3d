// Firmware messages and single fields as rows of numbers: what was read, and what the writers are given.
#![tactic(auto)]

pub mod apply;
pub mod field_row;
pub mod segment;
