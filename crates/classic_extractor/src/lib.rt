// The extractor of Classic frames, one byte to a step.
#![tactic(auto)]

pub mod outcome;
pub mod phase;
pub mod state;
pub mod step;
