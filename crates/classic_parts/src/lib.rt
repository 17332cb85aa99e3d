// The writer of Classic frames by parts: the payload comes part by part, and the frame goes into one output after another.
#![tactic(auto)]

mod byte;
mod fast_path;
pub mod state;
pub mod writer;
