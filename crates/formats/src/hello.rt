// A hello as bytes.
ghost use Rattle.std.specs.Prelude.{◌≡◌, ◌==◌};
ghost use Rattle.formats.specs.Decoding.{names, hello_front, read_hello};
ghost use Rattle.formats.specs.Encoding.{hello_length};
ghost use Rattle.formats.specs.Reading.{with, alone};
ghost use Rattle.formats.specs.Views.{named, as_hello};

use crate::kind::behind_kind;
use crate::listing::read_ciphers;
use fixed_bytes::fixed::{Fixed, Nonce, PublicKey};
use words::fault::Fault;
use words::preferences::Preferences;
use words::registry::Kind;

#[derive(Clone, Copy)]
pub struct Hello {
    pub caller: u16,
    pub called: u16,
    pub offer: Preferences,
    pub nonce: Nonce,
    pub half: PublicKey,
}

impl Hello {
    // How many bytes it has.
    pub fn len(&self) -> usize
        ensures { result ≡ hello_length (as_hello self.now) }
    {
        70 + self.offer.len()
    }
}

// Who calls and who is called, and what follows.
// Parts are taken by `let .. else`, a rule of the project for readers.
fn read_names(bytes: &[u8]) -> Result<(u16, u16, &[u8]), Fault>
    ensures { with named result ≡ names bytes.now }
{
    let rest = behind_kind(bytes, Kind::Hello)?;
    let Some((caller, rest)) = rest.split_first_chunk::<2>() else {
        return Err(Fault::BadLength);
    };
    let Some((called, rest)) = rest.split_first_chunk::<2>() else {
        return Err(Fault::BadLength);
    };
    Ok((
        u16::from_be_bytes(*caller),
        u16::from_be_bytes(*called),
        rest,
    ))
}

// A hello at the front of some bytes.
// Parts are taken by `let .. else`, a rule of the project for readers.
pub fn read_hello_front(bytes: &[u8]) -> Result<Hello, Fault>
    ensures { with as_hello result ≡ alone (hello_front bytes.now) }
{
    let (caller, called, rest) = read_names(bytes)?;
    let offer = read_ciphers(rest, Fault::TooManyCiphers, Fault::CipherTwice)?;
    let Some((_, rest)) = rest.split_at_checked(1 + offer.len()) else {
        return Err(Fault::BadLength);
    };
    let Some((nonce, rest)) = rest.split_first_chunk::<32>() else {
        return Err(Fault::BadLength);
    };
    let Some((half, _)) = rest.split_first_chunk::<32>() else {
        return Err(Fault::BadLength);
    };
    Ok(Hello {
        caller,
        called,
        offer,
        nonce: Nonce(Fixed::from(*nonce)),
        half: PublicKey(Fixed::from(*half)),
    })
}

// Whether nothing follows a hello of so many bytes.
fn is_whole(length: usize, hello: usize) -> bool
    ensures { result ≡ (length == hello) }
{
    length == hello
}

// A whole hello, or its first fault.
pub fn read_hello(bytes: &[u8]) -> Result<Hello, Fault>
    ensures { with as_hello result ≡ read_hello bytes.now }
{
    let hello = read_hello_front(bytes)?;
    if !is_whole(bytes.len(), hello.len()) {
        return Err(Fault::BadLength);
    }
    Ok(hello)
}
