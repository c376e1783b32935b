// Any of the three words, by its kind.
ghost use Rattle.std.specs.Prelude.{◌≡◌};
ghost use Rattle.formats.specs.Decoding.{read_word};
ghost use Rattle.formats.specs.Reading.{with};
ghost use Rattle.formats.specs.Views.{as_word};

use crate::end::read_end;
use crate::hello::{Hello, read_hello};
use crate::reply::{Reply, read_reply};
use words::fault::Fault;
use words::registry::Kind;

// An end shows nothing: what it holds stands behind its kind and length in the bytes that it was read from.
#[derive(Clone, Copy)]
pub enum Word {
    Hello(Hello),
    Reply(Reply),
    End,
}

// A whole word, or its first fault.
// Parts are taken by `let .. else`, a rule of the project for readers.
pub fn read_word(bytes: &[u8]) -> Result<Word, Fault>
    ensures { with (as_word bytes.now) result ≡ read_word bytes.now }
{
    let Some(first) = bytes.first() else {
        return Err(Fault::BadLength);
    };
    match Kind::try_from(*first)? {
        Kind::Hello => Ok(Word::Hello(read_hello(bytes)?)),
        Kind::Reply => Ok(Word::Reply(read_reply(bytes)?)),
        Kind::End => {
            let _ = read_end(bytes)?;
            Ok(Word::End)
        }
        Kind::Record | Kind::Settings => Err(Fault::UnknownKind),
    }
}
