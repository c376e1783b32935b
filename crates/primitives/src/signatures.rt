// Signatures of 64 bytes under keys of 32 bytes.
ghost use Rattle.std.specs.Prelude.{◌≡◌};
ghost use Rattle.primitives.specs.Signatures.{SignatureModel, SignedVerifies, Sizes};

use fixed_bytes::fixed::{PublicKey, Signature};
use fixed_bytes::secret::SecretKey;

// The laws are those that an implementation can prove. That nobody signs without the secret key is none of them: it is assumed.
pub trait Signatures {
    ghost model: { SignatureModel };

    // The public half of a key.
    fn public_half(key: &SecretKey) -> PublicKey
        ensures { result.0.bytes ≡ model.public key.now.0.bytes };

    fn sign(key: &SecretKey, message: &[u8]) -> Signature
        ensures { result.0.bytes ≡ model.sign key.now.0.bytes message.now };

    fn verify(signer: &PublicKey, message: &[u8], signature: &Signature) -> bool
        ensures { result ≡ model.verifies signer.now.0.bytes message.now signature.now.0.bytes };

    ghost correctness: { SignedVerifies model };

    ghost sizes: { Sizes model };
}
