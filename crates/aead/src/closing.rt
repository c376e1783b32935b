// Closing and opening in place: ChaCha20, and a tag by HMAC-SHA-256 over a head and the encrypted bytes.
ghost use Rattle.std.specs.Prelude.{◌≡◌, is_ok, Decides};
ghost use Rattle.ciphers.specs.ChaCha20.{suffices, Turning};
ghost use Rattle.aead.specs.Closing.{nonce_of, Closing, Tagged, Opening, ClosedOpens, OnlyClosedOpens, ClosedApart};
ghost use Rattle.aead.specs.Behind.{Behind};

use crate::cipher_key::CipherKey;
use ciphers::chacha20::{KeystreamUsedUp, turn};
use fixed_bytes::compare::same_bytes;

// Closing begins with this block of the keystream.
const FIRST_BLOCK: u32 = 1;

// The bytes of the blocks from the first one on.
const MOST_BYTES: usize = 0x3f_ffff_ffc0;

// The nonce of a number: 4 zeros, and the number in 8 bytes, high byte first.
fn nonce_of(n: u64) -> [u8; 12]
    ensures { result ≡ nonce_of n }
{
    let [a, b, c, d, e, f, g, h] = n.to_be_bytes();
    [0, 0, 0, 0, a, b, c, d, e, f, g, h]
}

// Whether the keystream suffices for so many bytes.
fn is_within_keystream(bytes: usize) -> bool
    ensures { result ≡ suffices 1 bytes }
{
    bytes <= MOST_BYTES
}

// Nothing was closed or opened. Why isn't told: no room for a tag, more bytes than one keystream has, or another tag.
#[derive(Clone, Copy, Debug)]
pub struct Refused;

impl From<KeystreamUsedUp> for Refused {
    fn from(_used_up: KeystreamUsedUp) -> Refused {
        Refused
    }
}

// Bytes turned in place under a key with a number.
fn turn_content<K: CipherKey>(key: &K, n: u64, bytes: &mut [u8]) -> Result<(), Refused>
    ensures { Turning (K.CipherKey.secret key.now) 1 (nonce_of n) bytes.old bytes.new (is_ok result) }
{
    Ok(turn(key.secret(), FIRST_BLOCK, &nonce_of(n), bytes)?)
}

// The content, which stands before room for its tag, is encrypted in its place and the tag written behind it. Key, number and
// head stay apart: number and head are other ones at each call, so a struct would only be made to be taken apart.
pub fn close<K: CipherKey>(key: &K, n: u64, head: &[u8], bytes: &mut [u8]) -> Result<(), Refused>
    ensures { Closing (K.CipherKey.secret key.now) n head.now bytes.old bytes.new (is_ok result) }
{
    let end = bytes.len().checked_sub(16).ok_or(Refused)?;
    turn_content(key, n, &mut bytes[0..end])?;
    let tag = key.tag(head, &bytes[0..end]);
    bytes[end..].copy_from_slice(&tag);
    Ok(())
}

// Whether this opens: it fits, and its tag is the right one.
pub fn opens<K: CipherKey>(key: &K, head: &[u8], bytes: &[u8]) -> bool
    ensures { Decides result (Tagged (K.CipherKey.secret key.now) head.now bytes.now) }
{
    let Some((content, tag)) = bytes.split_last_chunk::<16>() else {
        return false;
    };
    if !is_within_keystream(content.len()) {
        return false;
    }
    same_bytes(&key.tag(head, content), tag)
}

// What `close` left is looked at and, if its tag is the right one, decrypted in its place; otherwise nothing changes.
pub fn open<K: CipherKey>(key: &K, n: u64, head: &[u8], bytes: &mut [u8]) -> Result<(), Refused>
    ensures { Opening (K.CipherKey.secret key.now) n head.now bytes.old bytes.new (is_ok result) }
{
    if !opens(key, head, bytes) {
        return Err(Refused);
    }
    let end = bytes.len().checked_sub(16).ok_or(Refused)?;
    turn_content(key, n, &mut bytes[0..end])
}

// What stands behind the first bytes of a word is closed in its place; they stay. This and the next don't lend a closure to
// one function: the closure would need a contract of its own, longer than the lines that it saves. They take a word with the
// place where its closed part begins, a rule of the project: the part is lent on and closed in its place.
pub fn close_behind<K: CipherKey>(
    key: &K,
    n: u64,
    head: &[u8],
    start: usize,
    word: &mut [u8],
) -> Result<(), Refused>
    ensures { Behind start (λ before after. Closing (K.CipherKey.secret key.now) n head.now before after (is_ok result)) word.old word.new }
{
    if start > word.len() {
        return Err(Refused);
    }
    close(key, n, head, &mut word[start..])
}

// What stands behind the first bytes of a word is opened in its place; they stay.
pub fn open_behind<K: CipherKey>(
    key: &K,
    n: u64,
    head: &[u8],
    start: usize,
    word: &mut [u8],
) -> Result<(), Refused>
    ensures { Behind start (λ before after. Opening (K.CipherKey.secret key.now) n head.now before after (is_ok result)) word.old word.new }
{
    if start > word.len() {
        return Err(Refused);
    }
    open(key, n, head, &mut word[start..])
}

// What was closed opens, and gives the content back.
pub fn closed_opens()
    ensures { ClosedOpens }
{}

// What opens is exactly what closing its content gives.
pub fn only_closed_opens()
    ensures { OnlyClosedOpens }
{}

// Different contents are closed into different bytes.
pub fn closed_apart()
    ensures { ClosedApart }
{}
