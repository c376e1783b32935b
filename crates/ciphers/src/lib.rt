// ChaCha20: its keystream, and bytes turned by it in place.
#![tactic(auto)]

pub mod chacha20;
pub mod examples;
#[cfg(test)]
mod tests;
mod word;
