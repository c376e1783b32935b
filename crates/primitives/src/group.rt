// A group with elements and secret keys of 32 bytes.
ghost use Rattle.std.specs.Prelude.{◌≡◌, Decides};
ghost use Rattle.primitives.specs.Group.{GroupModel, half, Commutes, OneStays, Sized};

use fixed_bytes::fixed::PublicKey;
use fixed_bytes::secret::{CommonElement, SecretKey};

// The laws are those that an implementation can prove. That nobody finds a common element without one of the two keys is none of them: it is assumed.
pub trait Group {
    ghost model: { GroupModel };

    // The public half of a key.
    fn public_half(key: &SecretKey) -> PublicKey
        ensures { result.0.bytes ≡ half model key.now.0.bytes };

    // The element that a key has in common with the key of a public half.
    fn common(key: &SecretKey, theirs: &PublicKey) -> CommonElement
        ensures { result.0.bytes ≡ model.raise key.now.0.bytes theirs.now.0.bytes };

    // Whether a common element is the group's one.
    fn is_one(element: &CommonElement) -> bool
        ensures { Decides result (element.now.0.bytes ≡ model.one) };

    ghost commutes: { Commutes model };

    ghost identity: { OneStays model };

    ghost size: { Sized model };
}
