// Plays scripts of sides that call each other, from files or standard input, and prints what each call comes to.
#![tactic(auto)]

use script::reader::read_line;
use script::sides::Sides;
use std::io::{BufRead, BufReader, Read};
use std::{env, fs, io};

fn main(rt: HostRuntime) -> io::Result<()> {
    run(&rt)
}

// Plays the scripts that are named by argument, or else the one on standard input.
// These lines stand in `read` too: a function that is lent two closures would be longer.
fn run(rt: &HostRuntime) -> io::Result<()> {
    let mut names = env::args(rt)?.skip(1).peekable();
    if names.peek().is_none() {
        return play(rt, rt.stdin());
    }
    for name in names {
        play_named(rt, name.as_str())?;
    }
    Ok(())
}

// Plays the script of a file, or of standard input where the name is `-`, under its name.
fn play_named(rt: &HostRuntime, name: &str) -> io::Result<()> {
    println!(rt; "{name}:")?;
    if name == "-" {
        play(rt, rt.stdin())
    } else {
        play(rt, fs::open(rt, name)?)
    }
}

// Plays one script, up to its end or a line that can't be read.
fn play<R: Read + Drop>(rt: &HostRuntime, script: R) -> io::Result<()> {
    let mut sides = Sides::new();
    for (above, line) in BufReader::new(rt.alloc(), script)?
        .split(rt.alloc(), b'\n')
        .enumerate()
    {
        match read_line(line?.as_slice()) {
            Ok(command) => {
                if let Some(played) = sides.play(command) {
                    println!(rt; "{played}")?;
                }
            }
            Err(expected) => {
                let number = above.saturating_add(1);
                return println!(rt; "line {number}: expected {expected}");
            }
        }
    }
    Ok(())
}
