// Why a word, a record, an order or a settings file is refused.
ghost use Rattle.std.specs.Prelude.{◌≡◌};
ghost use Rattle.words.specs.Faults.{fault_number};

use thiserror::Error;

// Finer than the numbers that refusals are counted by, for people: several cases may have one number.
#[derive(Clone, Copy, Debug, Error)]
pub enum Fault {
    #[error("unknown kind")]
    UnknownKind,
    #[error("bad length")]
    BadLength,
    #[error("no cipher")]
    NoCipher,
    #[error("too many ciphers")]
    TooManyCiphers,
    #[error("a cipher twice")]
    CipherTwice,
    #[error("a side that isn't there")]
    UnknownSide,
    #[error("not for this side")]
    NotForThisSide,
    #[error("no cipher in common")]
    NothingInCommon,
    #[error("no open call with this hello")]
    NoSuchCall,
    #[error("a wrong signature")]
    BadSignature,
    #[error("a choice that wasn't offered")]
    NotOffered,
    #[error("a seal that doesn't open")]
    SealShut,
    #[error("a common element that is the group's one")]
    CommonOne,
    #[error("no answered session that this end is for")]
    NoAnsweredSession,
    #[error("no ended session that this record is for")]
    NoEndedSession,
    #[error("not that session's reply")]
    OtherReply,
    #[error("settings of a side that isn't there")]
    SettingsUnknownSide,
    #[error("settings with too many sides")]
    SettingsTooManySides,
    #[error("settings with too many ciphers")]
    SettingsTooManyCiphers,
    #[error("settings with a cipher twice")]
    SettingsCipherTwice,
    #[error("settings whose key isn't this side's")]
    SettingsOtherKey,
    #[error("a record out of order")]
    RecordOutOfOrder,
    #[error("a record that doesn't open")]
    RecordShut,
    #[error("a cipher that has no records")]
    CipherWithoutRecords,
    #[error("every record number is used")]
    RecordsUsedUp,
}

impl Fault {
    // The number by which the refusal is counted. No From: several faults have one number, so this says something of a fault
    // and turns it into nothing.
    pub fn number(self) -> u8
        ensures { result ≡ fault_number self }
    {
        match self {
            Fault::UnknownKind
            | Fault::BadLength
            | Fault::NoCipher
            | Fault::TooManyCiphers
            | Fault::CipherTwice => 1,
            Fault::UnknownSide | Fault::NotForThisSide => 2,
            Fault::NothingInCommon => 3,
            Fault::NoSuchCall => 4,
            Fault::BadSignature => 5,
            Fault::NotOffered => 6,
            Fault::SealShut => 7,
            Fault::CommonOne => 8,
            Fault::NoAnsweredSession | Fault::NoEndedSession => 9,
            Fault::OtherReply => 10,
            Fault::SettingsUnknownSide
            | Fault::SettingsTooManySides
            | Fault::SettingsTooManyCiphers
            | Fault::SettingsCipherTwice
            | Fault::SettingsOtherKey => 11,
            Fault::RecordOutOfOrder | Fault::RecordShut | Fault::CipherWithoutRecords => 12,
            Fault::RecordsUsedUp => 13,
        }
    }
}
