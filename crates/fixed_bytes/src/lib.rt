// Byte strings: public values and secrets of a fixed size in types of their own, equality without an early exit, numbers high byte first, wiping.
#![tactic(auto)]

pub mod compare;
pub mod fixed;
pub mod secret;
pub mod wipe;
