// A cipher, by its number.
ghost use Rattle.std.specs.Prelude.{◌≡◌, Decides};
ghost use Rattle.words.specs.declared.cipher.Cipher.{Cipher};

// Any byte is a cipher's number, also one that no cipher has yet.
#[derive(Clone, Copy, Debug, PartialEq, Eq)]
pub struct Cipher {
    number: u8,
}

impl Cipher {
    // Public const functions, which From can't be.
    pub const fn new(number: u8) -> Cipher
        ensures { result.number ≡ number }
    {
        Cipher { number }
    }

    pub const fn number(self) -> u8
        ensures { result ≡ self.number }
    {
        self.number
    }
}

// Ciphers are equal exactly where they are the same.
pub fn equality_is_sameness()
    ensures { (a b : Cipher) → Decides (⟦<Cipher as PartialEq>⟧.eq a b) (a ≡ b) }
{}
