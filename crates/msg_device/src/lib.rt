// Device information and device features, read and written.
#![tactic(auto)]

pub mod features;
pub mod information;
