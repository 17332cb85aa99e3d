// The calls of receiving over Low Energy for C: state and answers as rows, and the receiver over them.
#![tactic(auto)]

pub mod calls;
mod convert;
