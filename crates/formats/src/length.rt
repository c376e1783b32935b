// The front that a reply and an end have: the kind, and the length of all that follows.
ghost use Rattle.std.specs.Prelude.{◌≡◌, ◌==◌};
ghost use Rattle.words.specs.Bytes.{kind_byte};
ghost use Rattle.formats.specs.Reading.{with, behind_length};
ghost use Rattle.formats.specs.Views.{seen};

use crate::kind::behind_kind;
use words::fault::Fault;
use words::registry::Kind;

// Whether a length is that of what follows.
fn tells(length: u16, behind: usize) -> bool
    ensures { result ≡ (length == behind) }
{
    usize::from(length) == behind
}

// What follows the kind and the length.
// Parts are taken by `let .. else`, a rule of the project for readers.
pub fn behind_length(bytes: &[u8], kind: Kind) -> Result<&[u8], Fault>
    ensures { with seen result ≡ behind_length (kind_byte kind) bytes.now }
{
    let rest = behind_kind(bytes, kind)?;
    let Some((length, behind)) = rest.split_first_chunk::<2>() else {
        return Err(Fault::BadLength);
    };
    if !tells(u16::from_be_bytes(*length), behind.len()) {
        return Err(Fault::BadLength);
    }
    Ok(behind)
}
