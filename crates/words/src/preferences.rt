// A list of ciphers, best first: what a side prefers, and what a hello offers.
ghost use Rattle.std.specs.Prelude.{◌≡◌, ◌≤◌, true, length, take};
ghost use Rattle.words.specs.Choice.{most_ciphers, proper};
ghost use Rattle.words.specs.Ciphers.{numbers};

use crate::cipher::Cipher;

mod methods;

// 1 to 16 ciphers, none twice: the first `count` of the array.
// An array and a count are a rule of the project: lists are copied by value and need no heap. No Model: it would show the list
// without these facts, by which writers know how long a hello is, and Copy would want the cells behind the count back.
#[derive(Clone, Copy)]
pub struct Preferences {
    ciphers: [Cipher; 16],
    count: usize,
    ghost whole: { length ciphers ≡ most_ciphers },
    ghost few: { count ≤ most_ciphers },
    ghost sound: { proper (numbers (take count ciphers)) ≡ true },
}
