// What closing and opening ask of a key: its 32 bytes, and tags under it.
ghost use Rattle.std.specs.Prelude.{◌≡◌, ℕ, List, []};
ghost use Rattle.hashes.specs.Streams.{HoldsUnder};
ghost use Rattle.aead.specs.Closing.{tag};

use hashes::hmac::{HmacKey, KeyedHasher};

pub trait CipherKey {
    ghost secret: { Self → List ℕ };

    fn secret(&self) -> &[u8; 32]
        ensures { result.now ≡ secret self.now };

    // The tag over a head and encrypted bytes.
    fn tag(&self, head: &[u8], bytes: &[u8]) -> [u8; 16]
        ensures { result ≡ tag (secret self.now) head.now bytes.now };
}

// The first half of the sum of a head and bytes.
pub(crate) fn tag_by(sums: KeyedHasher, head: &[u8], bytes: &[u8]) -> [u8; 16]
    ensures { (key : List ℕ) → HoldsUnder sums key [] → result ≡ tag key head.now bytes.now }
{
    let sum = sums.update(head).update(bytes).finish();
    let mut tag = [0; 16];
    tag.copy_from_slice(&sum[0..16]);
    tag
}

// A key of which nothing is kept.
impl CipherKey for [u8; 32] {
    ghost secret = { λ bytes. bytes };

    fn secret(&self) -> &[u8; 32] {
        self
    }

    fn tag(&self, head: &[u8], bytes: &[u8]) -> [u8; 16] {
        tag_by(HmacKey::new(self).start(), head, bytes)
    }
}
