// Theorems about all kinds of bytes together, and about ends with what is locked in them; each on the contract of a function that does nothing.
#![tactic(auto)]

ghost use Rattle.word_laws.specs.Laws.{KindsAreApart, LockedEndsAreApart};

// No bytes are read as two kinds.
pub fn kinds_are_apart()
    ensures { KindsAreApart }
{}

// Under one session secret, ends with different contents have different bytes.
pub fn locked_ends_are_apart()
    ensures { LockedEndsAreApart }
{}
