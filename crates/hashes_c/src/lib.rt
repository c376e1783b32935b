// What C links of the hashes: the digest of a message, a key to keep, and a sum under it.
#![tactic(auto)]

ghost use Rattle.std.specs.Prelude.{◌≡◌, ℕ, List};
ghost use Rattle.hashes.specs.Hmac.{hmac_sha256};
ghost use Rattle.sha256.specs.Sha256.{sha256};
ghost use Rattle.hashes.specs.Streams.{Keyed};

use hashes::hasher::digest;
use hashes::hmac::HmacKey;

// The 32 bytes that a call gives. C hands bytes in and takes them as a struct.
#[repr(C)]
#[derive(Drop)]
pub struct Output {
    pub bytes: [u8; 32],
}

#[unsafe(no_mangle)]
pub extern "C" fn hashes_digest(message: &[u8], out: &mut Output)
    ensures { out.new.bytes ≡ sha256 message.now }
{
    out.bytes = digest(message);
}

#[unsafe(no_mangle)]
pub extern "C" fn hashes_hmac_key(key: &[u8], out: &mut HmacKey)
    ensures { Keyed out.new key.now }
{
    *out = HmacKey::new(key);
}

#[unsafe(no_mangle)]
pub extern "C" fn hashes_hmac_sum(kept: &HmacKey, message: &[u8], out: &mut Output)
    ensures { (key : List ℕ) → Keyed kept.now key → out.new.bytes ≡ hmac_sha256 key message.now }
{
    out.bytes = kept.sum(message);
}
