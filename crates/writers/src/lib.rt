// Words, records and settings written as bytes.
#![tactic(auto)]

pub mod failure;
pub mod messages;
pub mod record;
pub mod settings;
