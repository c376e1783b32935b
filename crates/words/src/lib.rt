// What every word of the protocol is made of: ciphers, preferences and the choice, faults, first bytes.
#![tactic(auto)]

pub mod choice;
pub mod cipher;
pub mod fault;
pub mod preferences;
pub mod registry;
#[cfg(test)]
mod tests;
