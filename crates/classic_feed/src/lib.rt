// Many bytes given to the extractor at once, with a fast path over those that decide nothing.
#![tactic(auto)]

mod fast_path;
pub mod many;
