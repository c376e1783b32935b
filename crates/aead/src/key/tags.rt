// A kept key as one that closes and opens.
use crate::cipher_key::{CipherKey, tag_by};
use crate::key::ClosingKey;

impl CipherKey for ClosingKey {
    ghost secret = { λ key. key.key.bytes };

    fn secret(&self) -> &[u8; 32] {
        self.bytes()
    }

    fn tag(&self, head: &[u8], bytes: &[u8]) -> [u8; 16] {
        tag_by(self.sums.start(), head, bytes)
    }
}
