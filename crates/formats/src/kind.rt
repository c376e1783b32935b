// The byte that a word, a record and settings begin with.
ghost use Rattle.std.specs.Prelude.{◌≡◌};
ghost use Rattle.words.specs.Bytes.{kind_byte};
ghost use Rattle.formats.specs.Reading.{with, behind_kind};
ghost use Rattle.formats.specs.Views.{seen};

use words::fault::Fault;
use words::registry::Kind;

// What follows the kind.
// Parts are taken by `let .. else`, a rule of the project for readers.
pub fn behind_kind(bytes: &[u8], kind: Kind) -> Result<&[u8], Fault>
    ensures { with seen result ≡ behind_kind (kind_byte kind) bytes.now }
{
    let Some((first, rest)) = bytes.split_first() else {
        return Err(Fault::BadLength);
    };
    if *first != u8::from(kind) {
        return Err(Fault::UnknownKind);
    }
    Ok(rest)
}
