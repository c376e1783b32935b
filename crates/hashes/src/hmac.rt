// HMAC-SHA-256 of a whole message, of one in parts, and under a key that is kept for many messages.
ghost use Rattle.std.specs.Prelude.{◌≡◌, ℕ, ◌≤◌, List, [], ◌++◌, map, length, nat_lt};
ghost use Rattle.hashes.specs.Hmac.{filled_up, hmac_sha256, key_block, masked};
ghost use Rattle.sha256.specs.Sha256.{compressed, initial, sha256};
ghost use Rattle.hashes.specs.Streams.{Keyed, HoldsUnder, wiped_state};

use crate::hasher::{Hasher, digest, written};
use sha256::compress::compress;
use sha256::state::State;

const INNER_PAD: u8 = 0x36;

const OUTER_PAD: u8 = 0x5c;

// A key, kept as the states after its two pads. Which key it is no field says, and C hands it in, so no fact of the type could
// tie it to one: `Keyed` and `HoldsUnder` stand in the clauses.
#[repr(C)]
#[derive(Clone, Copy)]
pub struct HmacKey {
    inner: State,
    outer: State,
}

// A message under a key that comes in parts.
#[derive(Clone, Copy)]
pub struct KeyedHasher {
    inner: Hasher,
    outer: State,
}

// A key of at most a block, with zeros behind it.
fn filled_up(key: &[u8]) -> [u8; 64]
    requires { length key.now ≤ 64 }
    ensures { result ≡ filled_up key.now }
{
    written(&[0; 64], 0, key)
}

// Whether a key is longer than a block, and so hashed first.
fn is_long(size: usize) -> bool
    ensures { result ≡ nat_lt 64 size }
{
    size > 64
}

// The block that a key stands for.
fn key_block(key: &[u8]) -> [u8; 64]
    ensures { result ≡ key_block key.now }
{
    if is_long(key.len()) {
        filled_up(&digest(key))
    } else {
        filled_up(key)
    }
}

// A block with each byte exclusive-ored with one byte.
fn pad_with(block: &[u8; 64], pad: u8) -> [u8; 64]
    ensures { result ≡ masked pad block.now }
{
    let mut out = *block;
    for byte in out.iter_mut() {
        *byte ^= pad;
    }
    out
}

impl HmacKey {
    // The kept form of a key of any length.
    pub fn new(key: &[u8]) -> HmacKey
        ensures { Keyed result key.now }
    {
        let block = key_block(key);
        HmacKey {
            inner: compress(State::initial(), &pad_with(&block, INNER_PAD)),
            outer: compress(State::initial(), &pad_with(&block, OUTER_PAD)),
        }
    }

    // The beginning of a sum under this key.
    pub fn start(&self) -> KeyedHasher
        ensures { (key : List ℕ) → Keyed self.now key → HoldsUnder result key [] }
    {
        KeyedHasher {
            inner: Hasher::after_block(self.inner),
            outer: self.outer,
        }
    }

    // The sum of a whole message under this key.
    pub fn sum(&self, message: &[u8]) -> [u8; 32]
        ensures { (key : List ℕ) → Keyed self.now key → result ≡ hmac_sha256 key message.now }
    {
        self.start().update(message).finish()
    }

    // The end of a kept key: both states are overwritten with zeros.
    pub fn wipe(&mut self)
        ensures inner { self.new.inner ≡ wiped_state }
        ensures outer { self.new.outer ≡ wiped_state }
    {
        self.inner = State::default();
        self.outer = State::default();
    }
}

impl KeyedHasher {
    // The sum of the message with these bytes behind it.
    pub fn update(self, bytes: &[u8]) -> KeyedHasher
        ensures { (key m : List ℕ) → HoldsUnder self key m → HoldsUnder result key (m ++ bytes.now) }
    {
        KeyedHasher {
            inner: self.inner.update(bytes),
            outer: self.outer,
        }
    }

    // HMAC-SHA-256 of the message.
    pub fn finish(self) -> [u8; 32]
        ensures { (key m : List ℕ) → HoldsUnder self key m → result ≡ hmac_sha256 key m }
    {
        let inner = self.inner.finish();
        Hasher::after_block(self.outer).update(&inner).finish()
    }
}

// HMAC-SHA-256 of a whole message under a key.
pub fn hmac(key: &[u8], message: &[u8]) -> [u8; 32]
    ensures { result ≡ hmac_sha256 key.now message.now }
{
    HmacKey::new(key).sum(message)
}
