// Locking with a session secret, in place.
ghost use Rattle.std.specs.Prelude.{◌≡◌, [], is_ok};
ghost use Rattle.aead.specs.Closing.{Closing, Opening};
ghost use Rattle.aead.specs.Behind.{Behind};
ghost use Rattle.primitives.specs.Derived.{lock_key};

use crate::sums::derive;
use aead::closing::{Refused, close_behind, open_behind};
use aead::key::ClosingKey;
use fixed_bytes::secret::SessionSecret;
use words::registry::Derivation;

// The key of a session's lock, made from its secret.
#[derive(Drop)]
pub struct LockKey(ClosingKey);

impl LockKey {
    pub fn of(secret: &SessionSecret) -> LockKey
        ensures { result.0.key.bytes ≡ lock_key secret.now.0.bytes }
    {
        LockKey(derive(&secret.0, &[u8::from(Derivation::Lock)], &[]))
    }

    // What stands behind the first bytes of a word, with room for a tag, is closed in its place. This and the next are the two
    // ways of one key, in one line each.
    pub fn lock(&self, start: usize, word: &mut [u8]) -> Result<(), Refused>
        ensures { Behind start (λ before after. Closing self.now.0.key.bytes 0 [] before after (is_ok result)) word.old word.new }
    {
        close_behind(&self.0, 0, &[], start, word)
    }

    // What stands behind the first bytes of a word is opened in its place, or nothing changes.
    pub fn unlock(&self, start: usize, word: &mut [u8]) -> Result<(), Refused>
        ensures { Behind start (λ before after. Opening self.now.0.key.bytes 0 [] before after (is_ok result)) word.old word.new }
    {
        open_behind(&self.0, 0, &[], start, word)
    }
}
