// Settings as bytes.
ghost use Rattle.std.specs.Prelude.{◌≡◌, length};
ghost use Rattle.words.specs.Listed.{listed};
ghost use Rattle.record_formats.specs.Settings.{settings_bytes};
ghost use Rattle.writers.specs.Written.{settings_fit, Writes};

use crate::failure::NotWritten;
use crate::messages::write_ciphers;
use record_formats::settings::MOST_SIDES;
use std::alloc::Global;
use words::preferences::Preferences;
use words::registry::Kind;

// Whether halves in so many bytes are of some sides, with the own one among them.
fn are_sides(own: u16, length: usize) -> bool
    ensures { result ≡ settings_fit own length }
{
    length % 32 == 0 && length / 32 <= MOST_SIDES && usize::from(own) < length / 32
}

// The settings of a side: its number, its preferences, the public halves of all sides one after another, as they are written
// without a copy, and its identity key.
pub fn write_settings(
    heap: Global,
    own: u16,
    preferences: &Preferences,
    halves: &[u8],
    key: &[u8; 32],
) -> Result<Vec<u8>, NotWritten>
    ensures { Writes (settings_fit own (length halves.now)) (settings_bytes (record { own = own; preferences = listed preferences.now; halves = halves.now; key = key.now })) result }
{
    if !are_sides(own, halves.len()) {
        return Err(NotWritten::BadLength);
    }
    let list = write_ciphers(heap, preferences)?;
    let mut out = Vec::new(heap);
    out.push(u8::from(Kind::Settings))?;
    out.extend_from_slice(&own.to_be_bytes())?;
    out.extend_from_slice(&list)?;
    out.extend_from_slice(halves)?;
    out.extend_from_slice(key)?;
    Ok(out)
}
