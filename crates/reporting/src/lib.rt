// How programs of vectors tell a value: its name, as much of it in hex as is expected, and whether it is the same.
#![tactic(auto)]

ghost use Rattle.std.specs.Prelude.{◌≡◌, ◌/◌, min, length, take, IfOk, string_bytes};
ghost use Rattle.hex.specs.Hex.{encode_lower};

use std::alloc::{AllocError, Global};
use std::io;

// As many of the bytes in hex as another text in hex has.
fn shown_like(heap: Global, value: &[u8], expected: &str) -> Result<String, AllocError>
    ensures { IfOk result (λ text. string_bytes text ≡ encode_lower (take (min (length expected.now / 2) (length value.now)) value.now)) }
{
    let size = (expected.len() / 2).min(value.len());
    hex::encode(heap, &value[0..size])
}

// Prints the value and whether it is the expected one.
pub fn report(rt: &HostRuntime, name: &str, value: &[u8], expected: &str) -> io::Result<()> {
    let shown = shown_like(rt.alloc(), value, expected)?;
    let verdict = if shown.as_str() == expected {
        "fits"
    } else {
        "DIFFERS"
    };
    println!(rt; "{name}: {shown} {verdict}")
}
