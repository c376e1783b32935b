// The keys of records: one for each way between the two sides of a session.
ghost use Rattle.std.specs.Prelude.{◌≡◌};
ghost use Rattle.primitives.specs.Derived.{way_byte, way_key, DerivedApart};

use crate::sums::derive;
use aead::key::ClosingKey;
use fixed_bytes::secret::SessionSecret;
use words::cipher::Cipher;
use words::registry::Derivation;

// Which way a record goes.
#[derive(Clone, Copy)]
pub enum Direction {
    ToCalled,
    ToCaller,
}

impl From<Direction> for u8 {
    ghost from_gives = { λ way byte. byte ≡ way_byte way };

    fn from(way: Direction) -> u8 {
        match way {
            Direction::ToCalled => u8::from(Derivation::ToCalled),
            Direction::ToCaller => u8::from(Derivation::ToCaller),
        }
    }
}

// The key of one way.
#[derive(Drop)]
pub struct WayKey(ClosingKey);

impl WayKey {
    // From the session secret, the choice and the digest of the reply.
    pub fn of(secret: &SessionSecret, way: Direction, choice: Cipher, digest: &[u8; 32]) -> WayKey
        ensures { result.0.key.bytes ≡ way_key secret.now.0.bytes way choice.number digest.now }
    {
        WayKey(derive(&secret.0, &[u8::from(way), choice.number()], digest))
    }

    pub fn key(&self) -> &ClosingKey
        ensures { result.now ≡ self.now.0 }
    {
        &self.0
    }
}

// Each key comes from bytes of its own.
pub fn derived_apart()
    ensures { DerivedApart }
{}
