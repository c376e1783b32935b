// Values that nobody else may see: they can be neither copied nor shown, and are overwritten when they are let go.
ghost use Rattle.std.specs.Prelude.{◌≡◌, length, bytes_eq, Decides};
ghost use Rattle.fixed_bytes.specs.Zeros.{zeros};
ghost use Rattle.std.specs.Cmp.Rules.{comparing};
ghost use Rattle.std.proofs.Common.{rules};
ghost use Rattle.std.specs.Ordering.{on};
ghost use Rattle.std.specs.Cmp as Keys;

use crate::compare::same_bytes;
use crate::wipe::wipe;

// 32 bytes.
#[repr(C)]
pub struct Secret {
    bytes: [u8; 32],
    ghost whole: { length bytes ≡ 32 },
}

impl Secret {
    // What was drawn is taken over, and zeros are left where it stood.
    pub fn taken_from(drawn: &mut [u8; 32]) -> Secret
        ensures value { result.bytes ≡ drawn.old }
        ensures wiped { drawn.new ≡ zeros 32 }
    {
        let bytes = *drawn;
        wipe(drawn);
        Secret { bytes }
    }

    pub fn bytes(&self) -> &[u8; 32]
        ensures { result.now ≡ self.now.bytes }
    {
        &self.bytes
    }

    pub fn wipe(&mut self)
        ensures { self.new.bytes ≡ zeros 32 }
    {
        wipe(&mut self.bytes);
    }
}

// Bytes that are known anyway, as those of vectors and settings; the copy that is handed in is overwritten.
impl From<[u8; 32]> for Secret {
    ghost from_gives = { λ bytes secret. secret.bytes ≡ bytes };

    fn from(mut bytes: [u8; 32]) -> Secret {
        Secret::taken_from(&mut bytes)
    }
}

// The bytes are overwritten before their memory is given back, of which no contract can speak.
impl Drop for Secret {
    fn drop(mut self) {
        self.wipe();
        let Secret { bytes: _ } = self;
    }
}

// By hand, since a derived `==` would end at the first byte that differs.
impl PartialEq for Secret {
    ghost eq = { on (λ v. v.bytes) bytes_eq };

    ghost laws = { Keys.partial_equiv_from_equiv (Prim.search (comparing, rules)) };

    fn eq(&self, other: &Secret) -> bool
        ensures value { result ≡ bytes_eq self.now.bytes other.now.bytes }
        ensures same { Decides result (self.now.bytes ≡ other.now.bytes) }
    {
        same_bytes(&self.bytes, &other.bytes)
    }
}

// The secret half of an ephemeral key or of an identity key.
#[derive(PartialEq, Drop)]
pub struct SecretKey(pub Secret);

// What the two sides of a session share.
#[derive(PartialEq, Drop)]
pub struct SessionSecret(pub Secret);

// The element that two keys have in common.
#[derive(PartialEq, Drop)]
pub struct CommonElement(pub Secret);
