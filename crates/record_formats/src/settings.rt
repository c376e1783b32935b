// The settings of a side as bytes.
ghost use Rattle.std.specs.Prelude.{◌≡◌, nat_le, nat_lt, slice_get};
ghost use Rattle.words.specs.declared.fault.Fault.TheVariants.{SettingsTooManyCiphers, SettingsCipherTwice};
ghost use Rattle.words.specs.Listed.{listed};
ghost use Rattle.formats.specs.Reading.{with, alone, listing};
ghost use Rattle.record_formats.specs.Settings.{most_sides, sides_in, keys_fit, settings_keys, own_number, read_settings, half_at, Fits};
ghost use Rattle.record_formats.specs.Views.{as_settings, two_parts, numbered, half_of};

use fixed_bytes::fixed::{Fixed, PublicKey};
use formats::kind::behind_kind;
use formats::listing::read_ciphers;
use words::fault::Fault;
use words::preferences::Preferences;
use words::registry::Kind;

// The most sides, and the bytes of a key.
pub const MOST_SIDES: usize = 4096;

const KEY_LENGTH: usize = 32;

// A side's number, its preferences behind their count, the public halves of all sides, and its identity key. The halves stay
// one after another, as they stand in the bytes: nothing is copied, and they are seen as the format has them.
#[derive(Clone, Copy)]
pub struct Settings<'a> {
    pub own: u16,
    pub listed: &'a [u8],
    pub halves: &'a [u8],
    pub key: &'a [u8; 32],
}

// Whether a side can have this number.
fn is_side(number: u16) -> bool
    ensures { result ≡ nat_lt number most_sides }
{
    usize::from(number) < MOST_SIDES
}

// Whether so many bytes are the halves of some sides and a key.
fn fit_keys(length: usize) -> bool
    ensures { result ≡ keys_fit length }
{
    length % KEY_LENGTH == 0 && 2 * KEY_LENGTH <= length
}

// How many sides the halves and a key in so many bytes are of.
fn sides_in(length: usize) -> usize
    ensures { result ≡ sides_in length }
{
    (length / KEY_LENGTH).saturating_sub(1)
}

// Whether there can be so many sides.
fn are_few(sides: usize) -> bool
    ensures { result ≡ nat_le sides most_sides }
{
    sides <= MOST_SIDES
}

// Whether the side with this number is there.
fn is_there(number: u16, sides: usize) -> bool
    ensures { result ≡ nat_lt number sides }
{
    usize::from(number) < sides
}

// The own number, and what follows it.
// Parts are taken by `let .. else`, a rule of the project for readers.
fn read_own(bytes: &[u8]) -> Result<(u16, &[u8]), Fault>
    ensures { with numbered result ≡ own_number bytes.now }
{
    let rest = behind_kind(bytes, Kind::Settings)?;
    let Some((number, rest)) = rest.split_first_chunk::<2>() else {
        return Err(Fault::BadLength);
    };
    let own = u16::from_be_bytes(*number);
    if !is_side(own) {
        return Err(Fault::SettingsUnknownSide);
    }
    Ok((own, rest))
}

// The halves of all sides and the key of the one with a number.
// Parts are taken by `let .. else`, a rule of the project for readers.
fn read_keys(own: u16, bytes: &[u8]) -> Result<(&[u8], &[u8; 32]), Fault>
    ensures { with two_parts result ≡ settings_keys own bytes.now }
{
    if !fit_keys(bytes.len()) {
        return Err(Fault::BadLength);
    }
    let sides = sides_in(bytes.len());
    if !are_few(sides) {
        return Err(Fault::SettingsTooManySides);
    }
    if !is_there(own, sides) {
        return Err(Fault::SettingsUnknownSide);
    }
    let Some((halves, key)) = bytes.split_last_chunk::<32>() else {
        return Err(Fault::BadLength);
    };
    Ok((halves, key))
}

// Whole settings, or their first fault. Whether the key is that of its side, `fits` says.
// Parts are taken by `let .. else`, a rule of the project for readers.
pub fn read_settings(bytes: &[u8]) -> Result<Settings<'_>, Fault>
    ensures { with as_settings result ≡ read_settings bytes.now }
{
    let (own, rest) = read_own(bytes)?;
    let list = read_ciphers(
        rest,
        Fault::SettingsTooManyCiphers,
        Fault::SettingsCipherTwice,
    )?;
    let Some((listed, rest)) = rest.split_at_checked(1 + list.len()) else {
        return Err(Fault::BadLength);
    };
    let (halves, key) = read_keys(own, rest)?;
    Ok(Settings {
        own,
        listed,
        halves,
        key,
    })
}

// The half in a side's place, if there is one.
fn half_in(halves: &[[u8; 32]], side: u16) -> Option<[u8; 32]>
    ensures { result ≡ slice_get halves.now side }
{
    halves.get(usize::from(side)).copied()
}

impl Settings<'_> {
    // The preferences, best first.
    pub fn preferences(&self) -> Result<Preferences, Fault>
        ensures { with listed result ≡ alone (listing SettingsTooManyCiphers SettingsCipherTwice self.now.listed.now) }
    {
        read_ciphers(
            self.listed,
            Fault::SettingsTooManyCiphers,
            Fault::SettingsCipherTwice,
        )
    }

    // The public half of a side, if it is there.
    pub fn public_half(&self, side: u16) -> Option<PublicKey>
        ensures { half_of result ≡ half_at self.now.halves.now side }
    {
        let (halves, _) = self.halves.as_chunks::<32>();
        let half = half_in(halves, side)?;
        Some(PublicKey(Fixed::from(half)))
    }

    // Whether the public half of the key is the one that stands in the list at the own number.
    pub fn fits(&self, half: &PublicKey) -> Result<(), Fault>
        ensures { Fits (as_settings self.now) half.now.0.bytes result }
    {
        let own = self.public_half(self.own).ok_or(Fault::SettingsOtherKey)?;
        if own != *half {
            return Err(Fault::SettingsOtherKey);
        }
        Ok(())
    }
}
