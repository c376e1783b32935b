// An end as bytes.
ghost use Rattle.std.specs.Prelude.{◌≡◌};
ghost use Rattle.formats.specs.Decoding.{lockable, read_end};
ghost use Rattle.formats.specs.Reading.{with};
ghost use Rattle.formats.specs.Views.{seen};

use crate::length::behind_length;
use words::fault::Fault;
use words::registry::Kind;

// How many bytes the shortest and the longest reply, a signature and a tag have.
const SHORTEST_LOCKED: usize = 331;

const LONGEST_LOCKED: usize = 346;

// Whether a reply and a signature, locked, can have so many bytes.
fn is_lockable(length: usize) -> bool
    ensures { result ≡ lockable length }
{
    SHORTEST_LOCKED <= length && length <= LONGEST_LOCKED
}

// The locked bytes that an end holds, or its first fault.
pub fn read_end(bytes: &[u8]) -> Result<&[u8], Fault>
    ensures { with seen result ≡ read_end bytes.now }
{
    let locked = behind_length(bytes, Kind::End)?;
    if !is_lockable(locked.len()) {
        return Err(Fault::BadLength);
    }
    Ok(locked)
}
