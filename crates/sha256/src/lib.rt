// SHA-256's definition, and the compression of a block.
#![tactic(auto)]

pub mod compress;
pub mod state;
pub mod word;
