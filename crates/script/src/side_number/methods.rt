// How a side's number is made and read.
ghost use Rattle.std.specs.Prelude.{◌≡◌};
ghost use Rattle.script.specs.Lines.{Numbered};

use crate::expected::Expected;
use crate::side_number::SideNumber;
use std::fmt;

// How many sides a script can have.
const MOST_SIDES: u8 = 8;

impl TryFrom<u8> for SideNumber {
    type Error = Expected;

    ghost try_from_gives = { Numbered };

    fn try_from(number: u8) -> Result<SideNumber, Expected> {
        if number < MOST_SIDES {
            Ok(SideNumber { number })
        } else {
            Err(Expected::NumberOfSide)
        }
    }
}

impl From<SideNumber> for u8 {
    ghost from_gives = { λ s n. n ≡ s.number };

    fn from(side: SideNumber) -> u8 {
        side.number
    }
}

impl fmt::Display for SideNumber {
    fn fmt<W: fmt::Write>(&self, f: &mut fmt::Formatter<W>) -> fmt::Result {
        write!(f, "{}", self.number)
    }
}
