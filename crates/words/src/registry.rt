// Every first byte that has a meaning: kinds, signing marks, derivations. Nothing else names such a byte.
ghost use Rattle.std.specs.Prelude.{◌≡◌};
ghost use Rattle.words.specs.Bytes.{kind_byte, Decodes, mark_byte, derivation_byte, OnePurposeEach};

use crate::fault::Fault;

// The first byte of a word, of a record and of a settings file.
#[derive(Clone, Copy)]
pub enum Kind {
    Hello = 1,
    Reply = 2,
    End = 3,
    Record = 4,
    Settings = 8,
}

impl From<Kind> for u8 {
    ghost from_gives = { λ kind byte. byte ≡ kind_byte kind };

    fn from(kind: Kind) -> u8 {
        kind as u8
    }
}

// The kind that a byte stands for, if it stands for any.
impl TryFrom<u8> for Kind {
    type Error = Fault;

    ghost try_from_gives = { Decodes };

    fn try_from(byte: u8) -> Result<Kind, Fault> {
        match byte {
            1 => Ok(Kind::Hello),
            2 => Ok(Kind::Reply),
            3 => Ok(Kind::End),
            4 => Ok(Kind::Record),
            8 => Ok(Kind::Settings),
            _ => Err(Fault::UnknownKind),
        }
    }
}

// The first byte of what is signed.
#[derive(Clone, Copy)]
pub enum Mark {
    OnReply,
    OnEnd,
}

impl From<Mark> for u8 {
    ghost from_gives = { λ mark byte. byte ≡ mark_byte mark };

    fn from(mark: Mark) -> u8 {
        match mark {
            Mark::OnReply => u8::from(Kind::Reply),
            Mark::OnEnd => u8::from(Kind::End),
        }
    }
}

// The first byte of what is put under a secret to make a key.
#[derive(Clone, Copy)]
pub enum Derivation {
    Lock = 4,
    ToCalled = 5,
    ToCaller = 6,
}

impl From<Derivation> for u8 {
    ghost from_gives = { λ derivation byte. byte ≡ derivation_byte derivation };

    fn from(derivation: Derivation) -> u8 {
        derivation as u8
    }
}

// Within each family no byte has two purposes.
pub fn one_purpose_each()
    ensures { OnePurposeEach }
{}
