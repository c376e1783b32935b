// The parts of words, records and settings as lines of text, for people to read, and bytes in hex.
#![tactic(auto)]

pub mod described;
pub mod failure;
pub mod lines;
pub mod shown;
pub mod unhex;
