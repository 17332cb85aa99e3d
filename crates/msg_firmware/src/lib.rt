// Firmware messages: UpdateComponentSegment, and ApplyFirmware with its nested messages, read.
#![tactic(auto)]

pub mod apply;
pub mod component;
pub mod information;
pub mod segment;
