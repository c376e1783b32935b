// A reply as bytes.
ghost use Rattle.std.specs.Prelude.{◌≡◌};
ghost use Rattle.formats.specs.Decoding.{answer, read_reply, hello_part, before_signature, last_signature};
ghost use Rattle.formats.specs.Reading.{with};
ghost use Rattle.formats.specs.Views.{as_hello, as_reply, seen};

use crate::hello::{Hello, read_hello_front};
use crate::length::behind_length;
use fixed_bytes::fixed::{Fixed, Nonce, PublicKey, Signature};
use words::cipher::Cipher;
use words::fault::Fault;
use words::registry::Kind;

// What the called side signs.
#[derive(Clone, Copy)]
pub struct Body {
    pub hello: Hello,
    pub choice: Cipher,
    pub nonce: Nonce,
    pub seal: PublicKey,
    pub sealed: Fixed<48>,
}

#[derive(Clone, Copy)]
pub struct Reply {
    pub body: Body,
    pub signature: Signature,
}

// What follows the hello, up to the end.
// Parts are taken by `let .. else`, a rule of the project for readers.
fn read_answer(hello: Hello, bytes: &[u8]) -> Result<Reply, Fault>
    ensures { with as_reply result ≡ answer (as_hello hello) bytes.now }
{
    let Some((choice, rest)) = bytes.split_first() else {
        return Err(Fault::BadLength);
    };
    let Some((nonce, rest)) = rest.split_first_chunk::<32>() else {
        return Err(Fault::BadLength);
    };
    let Some((seal, rest)) = rest.split_first_chunk::<32>() else {
        return Err(Fault::BadLength);
    };
    let Some((sealed, rest)) = rest.split_first_chunk::<48>() else {
        return Err(Fault::BadLength);
    };
    let Some((signature, rest)) = rest.split_first_chunk::<64>() else {
        return Err(Fault::BadLength);
    };
    if !rest.is_empty() {
        return Err(Fault::BadLength);
    }
    let body = Body {
        hello,
        choice: Cipher::new(*choice),
        nonce: Nonce(Fixed::from(*nonce)),
        seal: PublicKey(Fixed::from(*seal)),
        sealed: Fixed::from(*sealed),
    };
    Ok(Reply {
        body,
        signature: Signature(Fixed::from(*signature)),
    })
}

// A whole reply, or its first fault.
// Parts are taken by `let .. else`, a rule of the project for readers.
pub fn read_reply(bytes: &[u8]) -> Result<Reply, Fault>
    ensures { with as_reply result ≡ read_reply bytes.now }
{
    let behind = behind_length(bytes, Kind::Reply)?;
    let hello = read_hello_front(behind)?;
    let Some((_, rest)) = behind.split_at_checked(hello.len()) else {
        return Err(Fault::BadLength);
    };
    read_answer(hello, rest)
}

// The hello in a reply, as it stands there.
// Parts are taken by `let .. else`, a rule of the project for readers.
pub fn hello_in(reply: &[u8]) -> Result<&[u8], Fault>
    ensures { with seen result ≡ hello_part reply.now }
{
    let behind = behind_length(reply, Kind::Reply)?;
    let hello = read_hello_front(behind)?;
    let Some((part, _)) = behind.split_at_checked(hello.len()) else {
        return Err(Fault::BadLength);
    };
    Ok(part)
}

// What stands before a signature at the end, and the signature: all but the last 64 bytes, and these.
pub fn split_signature(signed: &[u8]) -> (&[u8], &[u8])
    ensures front { result.0.now ≡ before_signature signed.now }
    ensures back { result.1.now ≡ last_signature signed.now }
{
    signed.split_at(signed.len().saturating_sub(64))
}
