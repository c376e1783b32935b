// Why nothing is written.
ghost use Rattle.std.specs.Prelude.{◌≡◌};
ghost use Rattle.writers.specs.declared.failure.NotWritten.TheVariants.{NoMemory};

use std::alloc::{AllocError, AllocFailed};

#[derive(Clone, Copy, Debug)]
pub enum NotWritten {
    NoMemory,
    BadLength,
}

// The library has two errors for want of memory, of a new and of a growing Vec, and From is written for each.
impl From<AllocError> for NotWritten {
    ghost from_gives = { λ _ r. r ≡ NoMemory };

    fn from(_error: AllocError) -> NotWritten {
        NotWritten::NoMemory
    }
}

impl From<AllocFailed<u8>> for NotWritten {
    ghost from_gives = { λ _ r. r ≡ NoMemory };

    fn from(_refused: AllocFailed<u8>) -> NotWritten {
        NotWritten::NoMemory
    }
}
