// Why nothing is computed of a vector.
ghost use Rattle.std.specs.Prelude.{◌≡◌};
ghost use Rattle.session_vectors.specs.declared.failure.NotComputed.TheVariants.{Refused, NoMemory};

use ciphers::chacha20::KeystreamUsedUp;
use std::alloc::AllocError;

// It is refused, or there is no memory for it. From is written by hand, since what a derive writes has no contract.
#[derive(Clone, Copy, Debug)]
pub enum NotComputed {
    Refused,
    NoMemory(AllocError),
}

impl From<AllocError> for NotComputed {
    ghost from_gives = { λ error r. r ≡ NoMemory error };

    fn from(error: AllocError) -> NotComputed {
        NotComputed::NoMemory(error)
    }
}

impl From<KeystreamUsedUp> for NotComputed {
    ghost from_gives = { λ _ r. r ≡ Refused };

    fn from(_used_up: KeystreamUsedUp) -> NotComputed {
        NotComputed::Refused
    }
}

impl From<aead::closing::Refused> for NotComputed {
    ghost from_gives = { λ _ r. r ≡ Refused };

    fn from(_refused: aead::closing::Refused) -> NotComputed {
        NotComputed::Refused
    }
}
