// What is shown of some bytes, by their kind, or why they are refused.
ghost use Rattle.std.specs.Prelude.{◌≡◌, ℕ, List, [], Result, IfOk, codes};
ghost use Rattle.words.specs.declared.fault.Fault.{Fault};
ghost use Rattle.formats.specs.Reading.{with};
ghost use Rattle.formats.specs.Views.{as_hello, as_reply};
ghost use Rattle.record_formats.specs.Views.{as_record};
ghost use Rattle.parts.specs.Lines.{title_on};
ghost use Rattle.parts.specs.Parts.{hello_on, reply_on, end_on, record_on};
ghost use Rattle.parts.specs.Described.{hello_shown, reply_shown, end_shown, record_shown, described};
ghost use Rattle.parts.specs.Shown.{IsShown};

use crate::failure::NotShown;
use crate::lines::Lines;
use formats::end::read_end;
use formats::hello::{Hello, read_hello};
use formats::reply::{Reply, read_reply};
use record_formats::packet::{Packet, read_record};
use std::alloc::AllocError;
use words::fault::Fault;
use words::registry::Kind;

// What can be read from some bytes, and shown.
trait Shown<'a>: Sized + Drop {
    // Its title and its lines behind a text.
    ghost on: { List ℕ → Self → List ℕ };

    // The text that is shown of bytes behind a text, or their fault.
    ghost shown: { List ℕ → List ℕ → Result (List ℕ) Fault };

    // What the bytes hold, or their first fault.
    fn read(bytes: &'a [u8]) -> Result<Self, Fault>
        ensures { (before : List ℕ) → with (on before) result ≡ shown before bytes.now };

    // Adds its title and its lines.
    fn show(&self, lines: Lines) -> Result<Lines, AllocError>
        ensures { IfOk result (λ l. l ≡ on lines self.now) };
}

impl<'a> Shown<'a> for Hello {
    ghost on = { λ before h. hello_on (title_on before [] (codes "hello")) (codes "  ") (as_hello h) };

    ghost shown = { hello_shown };

    fn read(bytes: &'a [u8]) -> Result<Hello, Fault> {
        read_hello(bytes)
    }

    fn show(&self, lines: Lines) -> Result<Lines, AllocError> {
        lines.title("", "hello")?.hello("  ", self)
    }
}

impl<'a> Shown<'a> for Reply {
    ghost on = { λ before r. reply_on (title_on before [] (codes "reply")) (as_reply r) };

    ghost shown = { reply_shown };

    fn read(bytes: &'a [u8]) -> Result<Reply, Fault> {
        read_reply(bytes)
    }

    fn show(&self, lines: Lines) -> Result<Lines, AllocError> {
        lines.title("", "reply")?.reply(self)
    }
}

// The locked bytes of an end.
#[derive(Clone, Copy)]
struct Locked<'a>(&'a [u8]);

impl<'a> Shown<'a> for Locked<'a> {
    ghost on = { λ before l. end_on (title_on before [] (codes "end")) l.0.now };

    ghost shown = { end_shown };

    fn read(bytes: &'a [u8]) -> Result<Locked<'a>, Fault> {
        Ok(Locked(read_end(bytes)?))
    }

    fn show(&self, lines: Lines) -> Result<Lines, AllocError> {
        lines.title("", "end")?.end(self.0)
    }
}

impl<'a> Shown<'a> for Packet<'a> {
    ghost on = { λ before p. record_on (title_on before [] (codes "record")) (as_record p) };

    ghost shown = { record_shown };

    fn read(bytes: &'a [u8]) -> Result<Packet<'a>, Fault> {
        read_record(bytes)
    }

    fn show(&self, lines: Lines) -> Result<Lines, AllocError> {
        lines.title("", "record")?.record(self)
    }
}

// The parts of bytes that are to be read as some type, or their first fault.
fn describe_as<'a, S: Shown<'a>>(lines: Lines, bytes: &'a [u8]) -> Result<Lines, NotShown>
    ensures { IsShown (S.shown lines bytes.now) result }
{
    Ok(S::read(bytes)?.show(lines)?)
}

// The parts of a word or a record behind a text, or its first fault.
pub fn describe(lines: Lines, bytes: &[u8]) -> Result<Lines, NotShown>
    ensures { IsShown (described lines bytes.now) result }
{
    let first = bytes.first().ok_or(Fault::BadLength)?;
    match Kind::try_from(*first)? {
        Kind::Hello => describe_as::<Hello>(lines, bytes),
        Kind::Reply => describe_as::<Reply>(lines, bytes),
        Kind::End => describe_as::<Locked<'_>>(lines, bytes),
        Kind::Record => describe_as::<Packet<'_>>(lines, bytes),
        Kind::Settings => Err(NotShown::Faulty(Fault::UnknownKind)),
    }
}
