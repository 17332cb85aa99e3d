// What a Classic frame is made of: marks and escape codes, the header's bytes, the checksum.
#![tactic(auto)]

pub mod checksum;
pub mod header;
pub mod mark;
