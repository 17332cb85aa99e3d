// The calls of Classic for C: states and answers as rows, and the extractor and the frame writer over them.
#![tactic(auto)]

pub mod calls;
mod convert;
