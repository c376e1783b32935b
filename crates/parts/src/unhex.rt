// Bytes that are written in hex.
ghost use Rattle.std.specs.Prelude.{◌≡◌, [], IfOk, vec_items};
ghost use Rattle.std.specs.Option.{option_map};
ghost use Rattle.parts.specs.Hex.{digit_value, pair_byte, unhexed};

use std::alloc::{AllocError, Global};

// The value of a digit.
fn digit_value(digit: u8) -> Option<u8>
    ensures { result ≡ digit_value digit }
{
    match digit {
        b'0'..=b'9' => Some(digit - b'0'),
        b'a'..=b'f' => Some(digit - b'a' + 10),
        b'A'..=b'F' => Some(digit - b'A' + 10),
        _ => None,
    }
}

// The byte that a pair of digits stands for.
fn byte_of(pair: &[u8; 2]) -> Option<u8>
    ensures { result ≡ pair_byte pair.now }
{
    Some(digit_value(pair[0])? * 16 + digit_value(pair[1])?)
}

// The bytes that pairs of digits stand for, or nothing where that isn't hex. That is None and no error, since nothing more
// can be told of it; the error is want of memory. Each byte is pushed as its pair is read, so text that is no hex takes memory
// only for what was read of it. The crate `hex` would take it for all digits first, and for a pair at a time takes more time.
pub fn unhex(heap: Global, digits: &[u8]) -> Result<Option<Vec<u8>>, AllocError>
    ensures { IfOk result (λ o. option_map vec_items o ≡ unhexed [] digits.now) }
{
    let (pairs, odd) = digits.as_chunks::<2>();
    if !odd.is_empty() {
        return Ok(None);
    }
    let mut bytes = Vec::new(heap);
    for pair in pairs {
        let Some(byte) = byte_of(pair) else {
            return Ok(None);
        };
        bytes.push(byte)?;
    }
    Ok(Some(bytes))
}
