// Why nothing is shown of some bytes.
ghost use Rattle.std.specs.Prelude.{◌≡◌};
ghost use Rattle.parts.specs.declared.failure.NotShown.TheVariants.{Faulty, NoMemory};

use std::alloc::AllocError;
use words::fault::Fault;

// Their first fault, or want of memory for the text. From is written by hand, since what a derive writes has no contract.
#[derive(Clone, Copy, Debug)]
pub enum NotShown {
    Faulty(Fault),
    NoMemory(AllocError),
}

impl From<Fault> for NotShown {
    ghost from_gives = { λ fault r. r ≡ Faulty fault };

    fn from(fault: Fault) -> NotShown {
        NotShown::Faulty(fault)
    }
}

impl From<AllocError> for NotShown {
    ghost from_gives = { λ error r. r ≡ NoMemory error };

    fn from(error: AllocError) -> NotShown {
        NotShown::NoMemory(error)
    }
}
