// What C links of the authenticated encryption: a key to keep, and closing and opening in place under it.
#![tactic(auto)]

ghost use Rattle.std.specs.Prelude.{◌≡◌};
ghost use Rattle.fixed_bytes.specs.Zeros.{zeros};
ghost use Rattle.aead.specs.Closing.{Closing, Opening};

use aead::closing::{close, open};
use aead::key::ClosingKey;
use fixed_bytes::secret::Secret;

// 32 bytes, which hold zeros once a key is made of them. C hands bytes in and takes them as a struct.
#[repr(C)]
#[derive(Drop)]
pub struct KeyBytes {
    pub bytes: [u8; 32],
}

#[unsafe(no_mangle)]
pub extern "C" fn ciphers_key(key: &mut KeyBytes, out: &mut ClosingKey)
    ensures made { out.new.key.bytes ≡ key.old.bytes }
    ensures wiped { key.new.bytes ≡ zeros 32 }
{
    *out = ClosingKey::new(Secret::taken_from(&mut key.bytes));
}

#[unsafe(no_mangle)]
pub extern "C" fn ciphers_close(key: &ClosingKey, n: u64, head: &[u8], bytes: &mut [u8]) -> bool
    ensures { Closing key.now.key.bytes n head.now bytes.old bytes.new result }
{
    close(key, n, head, bytes).is_ok()
}

#[unsafe(no_mangle)]
pub extern "C" fn ciphers_open(key: &ClosingKey, n: u64, head: &[u8], bytes: &mut [u8]) -> bool
    ensures { Opening key.now.key.bytes n head.now bytes.old bytes.new result }
{
    open(key, n, head, bytes).is_ok()
}
