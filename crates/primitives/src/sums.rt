// Keys as sums: HMAC-SHA-256 of a message in two parts, which is itself a secret.
ghost use Rattle.std.specs.Prelude.{◌≡◌, ◌++◌};
ghost use Rattle.hashes.specs.Hmac.{hmac_sha256};

use aead::key::ClosingKey;
use fixed_bytes::secret::Secret;
use hashes::hmac::HmacKey;

// The key that is the sum of two parts under a secret.
pub(crate) fn derive(secret: &Secret, first: &[u8], second: &[u8]) -> ClosingKey
    ensures { result.key.bytes ≡ hmac_sha256 secret.now.bytes (first.now ++ second.now) }
{
    let mut sum = HmacKey::new(secret.bytes())
        .start()
        .update(first)
        .update(second)
        .finish();
    ClosingKey::new(Secret::taken_from(&mut sum))
}
