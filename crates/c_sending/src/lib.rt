// The calls of sending over Low Energy for C: arguments and answers as numbers, and the writers of packets over them.
#![tactic(auto)]

pub mod calls;
mod convert;
