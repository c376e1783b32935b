// Words as bytes: readers that stop at the first fault, writers, and what holds of both.
#![tactic(auto)]

pub mod end;
pub mod hello;
pub mod kind;
pub mod laws;
mod length;
pub mod listing;
pub mod reply;
pub mod word;
