// The group and the signatures as traits, and what is made of them: seals, locks, the keys of records.
#![tactic(auto)]

pub mod group;
pub mod locks;
pub mod seals;
pub mod signatures;
mod sums;
pub mod ways;
