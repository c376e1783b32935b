// What a line that can't be read should have had where reading stopped.
use thiserror::Error;

#[derive(Clone, Copy, Debug, Error)]
pub enum Expected {
    #[error("a command: side or call")]
    CommandName,
    #[error("a side's number, 0 to 7")]
    NumberOfSide,
    #[error("the word wishes")]
    WishesWord,
    #[error("a cipher's number, 0 to 255")]
    NumberOfCipher,
    #[error("at most 16 ciphers")]
    AtMostSixteen,
    #[error("no cipher twice")]
    NoneTwice,
    #[error("the end of the line")]
    LineEnd,
}
