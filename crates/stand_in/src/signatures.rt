// The signatures of the stand-in: sums under the public half. They protect nothing.
ghost use Rattle.std.specs.Prelude.{◌≡◌};
ghost use Rattle.stand_in.specs.StandIn.{stand_in_signatures, signature_of};
ghost use Rattle.stand_in.specs.Products.{signed_verifies};
ghost use Rattle.stand_in.specs.Products;

use crate::StandIn;
use fixed_bytes::fixed::{Fixed, PublicKey, Signature};
use fixed_bytes::secret::SecretKey;
use hashes::hmac::hmac;
use primitives::group::Group;
use primitives::signatures::Signatures;

// What stands for a signature by the key with a public half.
fn signature_of(half: &PublicKey, message: &[u8]) -> Signature
    ensures { result.0.bytes ≡ signature_of half.now.0.bytes message.now }
{
    let mut bytes = [0; 64];
    bytes[0..32].copy_from_slice(&hmac(half.0.bytes(), message));
    Signature(Fixed::from(bytes))
}

impl Signatures for StandIn {
    ghost model = { stand_in_signatures };

    ghost correctness = { signed_verifies };

    ghost sizes = { Products.sizes };

    fn public_half(key: &SecretKey) -> PublicKey {
        <StandIn as Group>::public_half(key)
    }

    fn sign(key: &SecretKey, message: &[u8]) -> Signature {
        signature_of(&<StandIn as Group>::public_half(key), message)
    }

    fn verify(signer: &PublicKey, message: &[u8], signature: &Signature) -> bool {
        signature_of(signer, message) == *signature
    }
}
