// Authenticated encryption in place: ChaCha20, and a tag by HMAC-SHA-256.
#![tactic(auto)]

pub mod cipher_key;
pub mod closing;
pub mod key;
#[cfg(test)]
mod tests;
