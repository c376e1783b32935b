// Values of a fixed size that everybody may see.
ghost use Rattle.std.specs.Prelude.{◌≡◌, length, bytes_eq, Decides};
ghost use Rattle.std.specs.Cmp.Rules.{comparing};
ghost use Rattle.std.proofs.Common.{rules};
ghost use Rattle.std.specs.Ordering.{on};
ghost use Rattle.std.specs.Cmp as Keys;

use crate::compare::same_bytes;

// A string of N bytes, by value.
#[derive(Clone, Copy)]
pub struct Fixed<const N: usize> {
    bytes: [u8; N],
    ghost whole: { length bytes ≡ N },
}

impl<const N: usize> From<[u8; N]> for Fixed<N> {
    ghost from_gives = { λ bytes value. value.bytes ≡ bytes };

    fn from(bytes: [u8; N]) -> Fixed<N> {
        Fixed { bytes }
    }
}

impl<const N: usize> Fixed<N> {
    pub fn bytes(&self) -> &[u8; N]
        ensures { result.now ≡ self.now.bytes }
    {
        &self.bytes
    }
}

// By hand, since a derived `==` would end at the first byte that differs.
impl<const N: usize> PartialEq for Fixed<N> {
    ghost eq = { on (λ v. v.bytes) bytes_eq };

    ghost laws = { Keys.partial_equiv_from_equiv (Prim.search (comparing, rules)) };

    fn eq(&self, other: &Fixed<N>) -> bool
        ensures value { result ≡ bytes_eq self.now.bytes other.now.bytes }
        ensures same { Decides result (self.now.bytes ≡ other.now.bytes) }
    {
        same_bytes(&self.bytes, &other.bytes)
    }
}

// 32 drawn bytes that are sent openly.
#[derive(Clone, Copy, PartialEq)]
pub struct Nonce(pub Fixed<32>);

// The public half of an ephemeral key or of an identity key.
#[derive(Clone, Copy, PartialEq)]
pub struct PublicKey(pub Fixed<32>);

// A signature.
#[derive(Clone, Copy, PartialEq)]
pub struct Signature(pub Fixed<64>);
