// A key for closing and opening, with the two pads of its HMAC kept for the next message.
ghost use Rattle.std.specs.Prelude.{◌≡◌};
ghost use Rattle.hashes.specs.Streams.{Keyed};

use fixed_bytes::secret::Secret;
use hashes::hmac::HmacKey;

mod tags;

// 32 secret bytes, and what HMAC keeps of them.
#[repr(C)]
pub struct ClosingKey {
    key: Secret,
    sums: HmacKey,
    ghost kept: { ∥ Keyed sums key.bytes ∥₁ },
}

impl ClosingKey {
    pub fn new(key: Secret) -> ClosingKey
        ensures { result.key.bytes ≡ key.bytes }
    {
        let sums = HmacKey::new(key.bytes());
        ClosingKey { key, sums }
    }

    pub fn bytes(&self) -> &[u8; 32]
        ensures { result.now ≡ self.now.key.bytes }
    {
        self.key.bytes()
    }
}

// Both are overwritten before their memory is given back, of which no contract can speak.
impl Drop for ClosingKey {
    fn drop(mut self) {
        self.sums.wipe();
        let ClosingKey { key: _, sums: _ } = self;
    }
}
