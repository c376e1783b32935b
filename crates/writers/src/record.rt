// Records as bytes.
ghost use Rattle.std.specs.Prelude.{◌≡◌, ◌++◌, length};
ghost use Rattle.record_formats.specs.Records.{sendable, record_bytes};
ghost use Rattle.writers.specs.Written.{Writes, tag_room};

use crate::failure::NotWritten;
use record_formats::packet::is_sendable;
use std::alloc::Global;
use words::registry::Kind;

// How many bytes a record's head and tag have.
const HEAD_AND_TAG: usize = 31;

// A record whose content is to be closed in its place, with room for the tag behind it.
pub fn write_record(
    heap: Global,
    session: &[u8; 4],
    number: u64,
    content: &[u8],
) -> Result<Vec<u8>, NotWritten>
    ensures { Writes (sendable (length content.now)) (record_bytes (record { session = session.entry.now; number = number; closed = content.now ++ tag_room })) result }
{
    if !is_sendable(content.len()) {
        return Err(NotWritten::BadLength);
    }
    let mut out = Vec::with_capacity(heap, HEAD_AND_TAG + content.len())?;
    out.push(u8::from(Kind::Record))?;
    out.extend_from_slice(session)?;
    out.extend_from_slice(&number.to_be_bytes())?;
    out.extend_from_slice(&(content.len() as u16).to_be_bytes())?;
    out.extend_from_slice(content)?;
    out.extend_from_slice(&[0; 16])?;
    Ok(out)
}
