// A record as bytes.
ghost use Rattle.std.specs.Prelude.{◌≡◌, ◌+◌, ◌==◌};
ghost use Rattle.formats.specs.Encoding.{tag_length};
ghost use Rattle.formats.specs.Reading.{with};
ghost use Rattle.record_formats.specs.Records.{sendable, read_record};
ghost use Rattle.record_formats.specs.Views.{as_record};

use formats::kind::behind_kind;
use words::fault::Fault;
use words::registry::Kind;

// The most bytes of a content, and those of a tag.
const MOST_CONTENT: usize = 1024;

pub const TAG_LENGTH: usize = 16;

// The bytes that name its session, its number, and the content with the tag behind it.
#[derive(Clone, Copy)]
pub struct Packet<'a> {
    pub session: [u8; 4],
    pub number: u64,
    pub closed: &'a [u8],
}

// Whether a content can have so many bytes.
pub fn is_sendable(length: usize) -> bool
    ensures { result ≡ sendable length }
{
    1 <= length && length <= MOST_CONTENT
}

// Whether a content of so many bytes and a tag are what follows.
fn is_followed(length: u16, behind: usize) -> bool
    ensures { result ≡ (length + tag_length == behind) }
{
    usize::from(length) + TAG_LENGTH == behind
}

// A whole record, or its first fault.
// Parts are taken by `let .. else`, a rule of the project for readers.
pub fn read_record(bytes: &[u8]) -> Result<Packet<'_>, Fault>
    ensures { with as_record result ≡ read_record bytes.now }
{
    let rest = behind_kind(bytes, Kind::Record)?;
    let Some((session, rest)) = rest.split_first_chunk::<4>() else {
        return Err(Fault::BadLength);
    };
    let Some((number, rest)) = rest.split_first_chunk::<8>() else {
        return Err(Fault::BadLength);
    };
    let Some((length, closed)) = rest.split_first_chunk::<2>() else {
        return Err(Fault::BadLength);
    };
    let length = u16::from_be_bytes(*length);
    if !is_sendable(usize::from(length)) {
        return Err(Fault::BadLength);
    }
    if !is_followed(length, closed.len()) {
        return Err(Fault::BadLength);
    }
    Ok(Packet {
        session: *session,
        number: u64::from_be_bytes(*number),
        closed,
    })
}
