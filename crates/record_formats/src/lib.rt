// Records and settings as bytes: readers that stop at the first fault, and what holds of them.
#![tactic(auto)]

pub mod laws;
pub mod packet;
pub mod settings;
