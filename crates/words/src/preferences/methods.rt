// How preferences are made, added to and seen.
ghost use Rattle.std.specs.Prelude.{◌≡◌, [], ◌∷◌, length, is_ok, nat_le, nat_lt};
ghost use Rattle.words.specs.Choice.{most_ciphers, holds, proper};
ghost use Rattle.words.specs.Ciphers.{numbers};
ghost use Rattle.words.specs.Listed.{listed, taken, made, addable, Added};

use crate::cipher::Cipher;
use crate::fault::Fault;
use crate::preferences::Preferences;

// The most ciphers of a list.
const MOST_CIPHERS: usize = 16;

// Whether there is room for one more.
fn has_room(count: usize) -> bool
    ensures { result ≡ nat_lt count most_ciphers }
{
    count < MOST_CIPHERS
}

// Whether a cipher is among those of a slice.
fn is_among(ciphers: &[Cipher], cipher: Cipher) -> bool
    ensures { result ≡ holds (numbers ciphers.now) cipher.number }
{
    ciphers.contains(&cipher)
}

impl Preferences {
    // Whether so many can stand in one list.
    pub fn can_hold(count: usize) -> bool
        ensures { result ≡ nat_le count most_ciphers }
    {
        count <= MOST_CIPHERS
    }

    // A list of one cipher.
    pub fn only(cipher: Cipher) -> Preferences
        ensures { listed result ≡ cipher.number ∷ [] }
    {
        Preferences {
            ciphers: [cipher; 16],
            count: 1,
        }
    }

    // The ciphers of a slice, best first, or the first of its faults: none, too many, one twice.
    pub fn from_slice(ciphers: &[Cipher]) -> Result<Preferences, Fault>
        ensures value { made result ≡ taken (numbers ciphers.now) }
        ensures exact { is_ok result ≡ proper (numbers ciphers.now) }
    {
        let (first, rest) = ciphers.split_first().ok_or(Fault::NoCipher)?;
        if !Preferences::can_hold(ciphers.len()) {
            return Err(Fault::TooManyCiphers);
        }
        let mut preferences = Preferences::only(*first);
        for cipher in rest {
            preferences.add(*cipher)?;
        }
        Ok(preferences)
    }

    // One cipher more, the last; a seventeenth and one that is there already are refused.
    pub fn add(&mut self, cipher: Cipher) -> Result<(), Fault>
        ensures { Added self.old cipher result self.new }
    {
        self.admits(cipher)?;
        self.ciphers[self.count] = cipher;
        self.count += 1;
        Ok(())
    }

    // Whether one more can be added.
    fn admits(&self, cipher: Cipher) -> Result<(), Fault>
        ensures { result ≡ addable (listed self.now) cipher.number }
    {
        if !has_room(self.len()) {
            return Err(Fault::TooManyCiphers);
        }
        if self.holds(cipher) {
            return Err(Fault::CipherTwice);
        }
        Ok(())
    }

    // Whether a cipher is among them.
    pub fn holds(&self, cipher: Cipher) -> bool
        ensures { result ≡ holds (listed self.now) cipher.number }
    {
        is_among(self.as_slice(), cipher)
    }

    // How many there are.
    pub fn len(&self) -> usize
        ensures { result ≡ length (listed self.now) }
    {
        self.as_slice().len()
    }

    // The ciphers, best first.
    pub fn as_slice(&self) -> &[Cipher]
        ensures { numbers result.now ≡ listed self.now }
    {
        &self.ciphers[0..self.count]
    }
}
