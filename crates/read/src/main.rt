// Prints the parts of words, records and settings: in hex, a line each on standard input, or as bytes in files that are named by argument.
#![tactic(auto)]

use fixed_bytes::fixed::PublicKey;
use fixed_bytes::secret::{Secret, SecretKey};
use parts::described::describe;
use parts::failure::NotShown;
use parts::lines::Lines;
use parts::unhex::unhex;
use primitives::signatures::Signatures;
use record_formats::settings::{Settings, read_settings};
use stand_in::StandIn;
use std::alloc::Global;
use std::io::{BufRead, BufReader};
use std::{env, fs, io};
use words::registry::Kind;

// Whether a key in settings is that of its side is told by the stand-in.
const STAND_IN_WARNING: &str = "read: keys are compared by a stand-in that protects nothing";

fn main(rt: HostRuntime) -> io::Result<()> {
    run(&rt)
}

// Reads the files that are named by argument, `-` for standard input, or else standard input alone.
// These lines stand in `line` too: a function that is lent two closures would be longer.
fn run(rt: &HostRuntime) -> io::Result<()> {
    eprintln!(rt; "{STAND_IN_WARNING}")?;
    let mut names = env::args(rt)?.skip(1).peekable();
    if names.peek().is_none() {
        return read_lines(rt);
    }
    for name in names {
        read_named(rt, name.as_str())?;
    }
    Ok(())
}

// Reads a file of bytes, or standard input where the name is `-`.
fn read_named(rt: &HostRuntime, name: &str) -> io::Result<()> {
    if name == "-" {
        return read_lines(rt);
    }
    let bytes = fs::read(rt, name)?;
    print!(rt; "{name}: ")?;
    show(rt, bytes.as_slice())
}

// Reads each line of standard input; empty ones and those that begin with `#` are passed over.
fn read_lines(rt: &HostRuntime) -> io::Result<()> {
    let lines = BufReader::new(rt.alloc(), rt.stdin())?.split(rt.alloc(), b'\n');
    for (above, line) in lines.enumerate() {
        let line = line?;
        if is_passed_over(line.as_slice()) {
            continue;
        }
        let number = above.saturating_add(1);
        print!(rt; "line {number}: ")?;
        match unhex(rt.alloc(), line.as_slice())? {
            Some(bytes) => show(rt, bytes.as_slice())?,
            None => println!(rt; "no hex")?,
        }
    }
    Ok(())
}

fn is_passed_over(line: &[u8]) -> bool {
    line.first().is_none_or(|first| *first == b'#')
}

// Prints the parts of some bytes, or the number and the cause of their first fault.
fn show(rt: &HostRuntime, bytes: &[u8]) -> io::Result<()> {
    match lines_of(rt.alloc(), bytes) {
        Ok(lines) => rt.print(String::from(lines)),
        Err(NotShown::Faulty(fault)) => {
            let number = fault.number();
            println!(rt; "fault {number}: {fault}")
        }
        Err(NotShown::NoMemory(error)) => Err(error.into()),
    }
}

// The lines of settings, if the bytes begin as such, or else those of a word or a record.
fn lines_of(heap: Global, bytes: &[u8]) -> Result<Lines, NotShown> {
    let lines = Lines::behind(heap, String::new(heap));
    if bytes.first().copied() == Some(u8::from(Kind::Settings)) {
        settings_lines(lines, bytes)
    } else {
        describe(lines, bytes)
    }
}

// The lines of settings, without the own key.
fn settings_lines(lines: Lines, bytes: &[u8]) -> Result<Lines, NotShown> {
    let settings = read_settings(bytes)?;
    let preferences = settings.preferences()?;
    settings.fits(&half_of_key(&settings))?;
    let title = lines.title("", "settings")?;
    Ok(title.settings(&settings, &preferences)?)
}

// The public half of the own key, by the stand-in.
fn half_of_key(settings: &Settings<'_>) -> PublicKey {
    <StandIn as Signatures>::public_half(&SecretKey(Secret::from(*settings.key)))
}
