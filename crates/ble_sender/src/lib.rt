// A message sent as Low Energy packets: its pieces, and the packet of a piece.
#![tactic(auto)]

pub mod piece;
pub mod writer;
