// Words and numbers at the front of a text.
ghost use Rattle.std.specs.Prelude.{◌≡◌, List, ℕ, length};
ghost use Rattle.std.specs.Iterator.{at_most};
ghost use Rattle.std.specs.Option.{unwrap_or};
ghost use Rattle.script.specs.Text.{blank, uncommented, word, behind, with_digit, decimal, Tests, IsCut, NextWord};

use std::marker::Model;

// Whether a byte separates words.
fn is_blank(byte: u8) -> bool
    ensures { result ≡ blank byte }
{
    byte == b' ' || byte == b'\t' || byte == b'\r'
}

// Where a text is cut: at the byte that was found, or else at its end.
fn cut_place(found: Option<usize>, end: usize) -> usize
    ensures { result ≡ unwrap_or found end }
{
    found.unwrap_or(end)
}

// What stands before the first byte that stops, and the rest.
fn cut<F: Fn(u8) -> bool>(text: &[u8], stops: F) -> (&[u8], &[u8])
    requires { F.IsAlwaysCallable stops }
    ensures { (stop : _) → Tests (F.post stops) stop → IsCut stop text.now result.0.now result.1.now }
{
    let stopped = text.iter().position(|byte| stops(*byte));
    text.split_at(cut_place(stopped, text.len()))
}

// The first word, which is empty where there is none, and what follows it.
fn next_word(text: &[u8]) -> (&[u8], &[u8])
    ensures front { result.0.now ≡ word text.now }
    ensures back { result.1.now ≡ behind text.now }
{
    cut(cut(text, |byte| !is_blank(byte)).1, is_blank)
}

// The words of a text that are still to be read, seen as that text.
#[derive(Drop)]
pub struct Words<'a> {
    rest: &'a [u8],
}

impl<'a> Model for Words<'a> {
    ghost Value = { List ℕ };

    ghost view = { λ words. words.rest.now };
}

impl<'a> Words<'a> {
    // Those of a line that stand before a comment.
    pub fn of(line: &'a [u8]) -> Words<'a>
        ensures { result ≡ uncommented line.now }
    {
        let (rest, _) = cut(line, |byte| byte == b'#');
        Words { rest }
    }
}

impl<'a> Iterator for Words<'a> {
    type Item = &'a [u8];

    ghost next_gives = { NextWord };

    ghost remaining = { λ words. at_most (length words) };

    fn next(&mut self) -> Option<&'a [u8]> {
        let (found, rest) = next_word(self.rest);
        self.rest = rest;
        if found.is_empty() { None } else { Some(found) }
    }
}

// A number with one more digit behind it, if the byte is a digit and the number is below 256.
fn with_digit(number: u8, byte: u8) -> Option<u8>
    ensures { result ≡ with_digit number byte }
{
    if !byte.is_ascii_digit() {
        return None;
    }
    number.checked_mul(10)?.checked_add(byte - b'0')
}

// The number that a word of decimal digits stands for, if it is below 256.
pub fn decimal(digits: &[u8]) -> Option<u8>
    ensures { result ≡ decimal digits.now }
{
    if digits.is_empty() {
        return None;
    }
    let mut number = 0;
    for digit in digits {
        number = with_digit(number, *digit)?;
    }
    Some(number)
}
