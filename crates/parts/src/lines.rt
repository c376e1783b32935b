// Lines of text, each with a name and a value.
ghost use Rattle.std.specs.Prelude.{◌≡◌, IfOk, string_bytes};
ghost use Rattle.words.specs.Ciphers.{numbers};
ghost use Rattle.parts.specs.Lines.{hex_digits, line_on, number_on, bytes_on, title_on, numbers_on};

use std::alloc::{AllocError, Global};
use std::marker::Model;
use words::cipher::Cipher;

// Bytes in hex.
#[tactic(auto, using(crate::proofs::Hexes::encoded))]
pub fn hex(heap: Global, bytes: &[u8]) -> Result<String, AllocError>
    ensures { IfOk result (λ s. string_bytes s ≡ hex_digits bytes.now) }
{
    hex::encode(heap, bytes)
}

// A text that gets line after line, and where memory for it is had from. Indentations come with the lines: titles and parts
// have other ones.
#[derive(Drop)]
pub struct Lines {
    heap: Global,
    text: String,
}

// Seen as its text.
impl Model for Lines {
    ghost use Rattle.std.specs.Prelude.{ℕ, List, string_bytes};

    ghost Value = { List ℕ };

    ghost view = { λ l. string_bytes l.text };
}

// The whole text.
impl From<Lines> for String {
    ghost from_gives = { λ lines r. string_bytes r ≡ lines };

    fn from(lines: Lines) -> String {
        lines.text
    }
}

impl Lines {
    // Lines behind a text.
    pub fn behind(heap: Global, text: String) -> Lines
        ensures { result ≡ string_bytes text }
    {
        Lines { heap, text }
    }

    // One line more.
    pub fn line(mut self, indent: &str, name: &str, value: &str) -> Result<Lines, AllocError>
        ensures { IfOk result (λ l. l ≡ line_on self indent.now name.now value.now) }
    {
        self.text.push_str(indent)?;
        self.text.push_str(name)?;
        self.text.push_str(": ")?;
        self.text.push_str(value)?;
        self.text.push_str("\n")?;
        Ok(self)
    }

    // A line with a number.
    pub fn number(self, indent: &str, name: &str, number: u64) -> Result<Lines, AllocError>
        ensures { IfOk result (λ l. l ≡ number_on self indent.now name.now number) }
    {
        let value = number.to_string(self.heap)?;
        self.line(indent, name, value.as_str())
    }

    // A line with bytes in hex.
    pub fn bytes(self, indent: &str, name: &str, bytes: &[u8]) -> Result<Lines, AllocError>
        ensures { IfOk result (λ l. l ≡ bytes_on self indent.now name.now bytes.now) }
    {
        let value = hex(self.heap, bytes)?;
        self.line(indent, name, value.as_str())
    }

    // A title.
    pub fn title(mut self, indent: &str, title: &str) -> Result<Lines, AllocError>
        ensures { IfOk result (λ l. l ≡ title_on self indent.now title.now) }
    {
        self.text.push_str(indent)?;
        self.text.push_str(title)?;
        self.text.push_str("\n")?;
        Ok(self)
    }

    // A line for each cipher.
    #[tactic(auto, unfolding(crate::specs::Lines::numbers_on))]
    pub fn ciphers(self, indent: &str, name: &str, ciphers: &[Cipher]) -> Result<Lines, AllocError>
        ensures { IfOk result (λ l. l ≡ numbers_on self indent.now name.now (numbers ciphers.now)) }
    {
        let mut lines = self;
        for cipher in ciphers {
            lines = lines.number(indent, name, u64::from(cipher.number()))?;
        }
        Ok(lines)
    }
}
