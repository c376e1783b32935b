// Hellos, replies and ends as bytes.
ghost use Rattle.std.specs.Prelude.{◌≡◌, ◌++◌, length, IfOk};
ghost use Rattle.words.specs.Listed.{listed};
ghost use Rattle.formats.specs.Decoding.{lockable};
ghost use Rattle.formats.specs.Encoding.{listed_bytes, hello_bytes, body_bytes, claim_bytes, end_bytes};
ghost use Rattle.formats.specs.Views.{as_hello, as_body};
ghost use Rattle.writers.specs.Written.{replyable, Writes, tag_room};

use crate::failure::NotWritten;
use fixed_bytes::fixed::Signature;
use formats::hello::Hello;
use formats::reply::Body;
use record_formats::packet::TAG_LENGTH;
use std::alloc::{AllocError, Global};
use words::preferences::Preferences;
use words::registry::Kind;

// What stands between the hello and the signature of a reply, a signature, and a tag.
const ANSWER_LENGTH: usize = 113;

const SIGNATURE_LENGTH: usize = 64;

// How long replies are.
const SHORTEST_REPLY: usize = 251;

const LONGEST_REPLY: usize = 266;

// Ciphers behind their count.
pub fn write_ciphers(heap: Global, list: &Preferences) -> Result<Vec<u8>, AllocError>
    ensures { IfOk result (λ v. v.items ≡ listed_bytes (listed list.now)) }
{
    let ciphers = list.as_slice();
    let mut out = Vec::with_capacity(heap, 1 + list.len())?;
    out.push(list.len() as u8)?;
    for cipher in ciphers {
        out.push(cipher.number())?;
    }
    Ok(out)
}

pub fn write_hello(heap: Global, hello: &Hello) -> Result<Vec<u8>, AllocError>
    ensures { IfOk result (λ v. v.items ≡ hello_bytes (as_hello hello.now)) }
{
    let offer = write_ciphers(heap, &hello.offer)?;
    let mut out = Vec::with_capacity(heap, hello.len())?;
    out.push(u8::from(Kind::Hello))?;
    out.extend_from_slice(&hello.caller.to_be_bytes())?;
    out.extend_from_slice(&hello.called.to_be_bytes())?;
    out.extend_from_slice(&offer)?;
    out.extend_from_slice(hello.nonce.0.bytes())?;
    out.extend_from_slice(hello.half.0.bytes())?;
    Ok(out)
}

// What the signature of a reply is over.
pub fn write_body(heap: Global, body: &Body) -> Result<Vec<u8>, AllocError>
    ensures { IfOk result (λ v. v.items ≡ body_bytes (as_body body.now)) }
{
    let hello = write_hello(heap, &body.hello)?;
    let length = (hello.len() + ANSWER_LENGTH + SIGNATURE_LENGTH) as u16;
    let mut out = Vec::with_capacity(heap, 3 + usize::from(length))?;
    out.push(u8::from(Kind::Reply))?;
    out.extend_from_slice(&length.to_be_bytes())?;
    out.extend_from_slice(&hello)?;
    out.push(body.choice.number())?;
    out.extend_from_slice(body.nonce.0.bytes())?;
    out.extend_from_slice(body.seal.0.bytes())?;
    out.extend_from_slice(body.sealed.bytes())?;
    Ok(out)
}

// A signature behind what it is over.
pub fn with_signature(mut signed: Vec<u8>, signature: &Signature) -> Result<Vec<u8>, AllocError>
    ensures { IfOk result (λ v. v.items ≡ signed.items ++ signature.now.0.bytes) }
{
    signed.extend_from_slice(signature.0.bytes())?;
    Ok(signed)
}

// Room for a tag behind what is to be closed in its place.
pub fn with_tag_room(mut open: Vec<u8>) -> Result<Vec<u8>, AllocError>
    ensures { IfOk result (λ v. v.items ≡ «open».items ++ tag_room) }
{
    open.extend_from_slice(&[0; 16])?;
    Ok(open)
}

// Whether a reply can have so many bytes.
fn is_replyable(length: usize) -> bool
    ensures { result ≡ replyable length }
{
    SHORTEST_REPLY <= length && length <= LONGEST_REPLY
}

// What the signature of an end is over: the kind, the length as it is sent, and the whole reply.
pub fn write_claim(heap: Global, reply: &[u8]) -> Result<Vec<u8>, NotWritten>
    ensures { Writes (replyable (length reply.now)) (claim_bytes reply.now) result }
{
    if !is_replyable(reply.len()) {
        return Err(NotWritten::BadLength);
    }
    let length = (reply.len() + SIGNATURE_LENGTH + TAG_LENGTH) as u16;
    let mut out = Vec::with_capacity(heap, 3 + usize::from(length))?;
    out.push(u8::from(Kind::End))?;
    out.extend_from_slice(&length.to_be_bytes())?;
    out.extend_from_slice(reply)?;
    Ok(out)
}
