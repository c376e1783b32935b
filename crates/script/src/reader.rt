// Reads a line of a script from left to right, up to its end or its first fault.
ghost use Rattle.std.specs.Prelude.{◌≡◌, Ok};
ghost use Rattle.words.specs.Listed.{listed};
ghost use Rattle.script.specs.declared.expected.Expected.TheVariants.{NumberOfSide, NumberOfCipher};
ghost use Rattle.script.specs.Lines.{says, said, seen, side_number, number_of, needs, ciphers, Wished, side_line, call_line, line};
ghost use Rattle.script.specs.Text.{spelled, decimal};

use crate::call::Call;
use crate::command::Command;
use crate::expected::Expected;
use crate::side_number::SideNumber;
use crate::text::{Words, decimal};
use words::cipher::Cipher;
use words::fault::Fault;
use words::preferences::Preferences;

// The side whose number comes next.
fn read_number(found: Option<&[u8]>) -> Result<SideNumber, Expected>
    ensures { seen number_of result ≡ needs (side_number (spelled found.entry)) NumberOfSide Ok }
{
    found
        .and_then(decimal)
        .ok_or(Expected::NumberOfSide)?
        .try_into()
}

// The cipher whose number comes next.
fn read_cipher(found: Option<&[u8]>) -> Result<Cipher, Expected>
    ensures { seen (λ c. c.number) result ≡ needs (decimal (spelled found.entry)) NumberOfCipher Ok }
{
    let number = found.and_then(decimal).ok_or(Expected::NumberOfCipher)?;
    Ok(Cipher::new(number))
}

// The ciphers up to the line's end.
fn read_ciphers(mut words: Words) -> Result<Preferences, Expected>
    ensures { seen listed result ≡ ciphers words.entry }
{
    let mut preferences = Preferences::only(read_cipher(words.next())?);
    for found in words {
        add_cipher(&mut preferences, read_cipher(Some(found))?)?;
    }
    Ok(preferences)
}

// One cipher more, or what was expected in its place.
fn add_cipher(preferences: &mut Preferences, cipher: Cipher) -> Result<(), Expected>
    ensures { Wished preferences.old cipher.number result preferences.new }
{
    preferences.add(cipher).map_err(|fault| match fault {
        Fault::TooManyCiphers => Expected::AtMostSixteen,
        _ => Expected::NoneTwice,
    })
}

// After `side`: its number, `wishes` and its ciphers.
fn read_side(mut words: Words) -> Result<Command, Expected>
    ensures { seen says result ≡ side_line words.entry }
{
    let side = read_number(words.next())?;
    let Some(b"wishes") = words.next() else {
        return Err(Expected::WishesWord);
    };
    let preferences = read_ciphers(words)?;
    Ok(Command::Side(side, preferences))
}

// After `call`: who calls, and who is called.
fn read_call(mut words: Words) -> Result<Command, Expected>
    ensures { seen says result ≡ call_line words.entry }
{
    let caller = read_number(words.next())?;
    let called = read_number(words.next())?;
    if words.next().is_some() {
        return Err(Expected::LineEnd);
    }
    Ok(Command::Call(Call { caller, called }))
}

// What a line says, which is nothing where it is blank, or what was expected where it can't be read.
pub fn read_line(text: &[u8]) -> Result<Option<Command>, Expected>
    ensures { seen said result ≡ line text.now }
{
    let mut words = Words::of(text);
    match words.next() {
        None => Ok(None),
        Some(b"side") => read_side(words).map(Some),
        Some(b"call") => read_call(words).map(Some),
        Some(_) => Err(Expected::CommandName),
    }
}
