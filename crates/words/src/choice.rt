// The called side's choice of a cipher.
ghost use Rattle.std.specs.Prelude.{◌≡◌};
ghost use Rattle.words.specs.Best.{Best};
ghost use Rattle.words.specs.Choice.{choose};
ghost use Rattle.words.specs.Ciphers.{number_of};
ghost use Rattle.words.specs.Listed.{listed};
ghost use Rattle.words.specs.Search.{Searched};

use crate::cipher::Cipher;
use crate::preferences::Preferences;

// The first of the ranked ciphers that is offered. Nested loops left by a label are a rule of the project for the choice.
fn first_common(ranked: &[Cipher], offered: &[Cipher]) -> Option<Cipher>
    ensures { Searched ranked.now offered.now result }
{
    let mut found = None;
    'search: for cipher in ranked {
        for other in offered {
            if cipher == other {
                found = Some(*cipher);
                break 'search;
            }
        }
    }
    found
}

// The first of the preferences that is offered, or nothing where no cipher is in common.
pub fn choose(preferences: &Preferences, offer: &Preferences) -> Option<Cipher>
    ensures value { number_of result ≡ choose (listed preferences.now) (listed offer.now) }
    ensures best { Best (listed preferences.now) (listed offer.now) (number_of result) }
{
    first_common(preferences.as_slice(), offer.as_slice())
}
