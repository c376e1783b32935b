// SHA-256 and HMAC-SHA-256: of a whole message, of one in parts, and under a key that is kept.
#![tactic(auto)]

pub mod examples;
pub mod hasher;
pub mod hmac;
