// Runs the published vectors of ChaCha20 and two worked sessions, and prints of each its name, the value and whether it fits.
#![tactic(auto)]

mod closings;
mod encryptions;
mod failure;
mod session;
mod told;

use closings::CLOSINGS;
use encryptions::ENCRYPTIONS;
use session::SESSIONS;
use std::io;
use told::tell;

fn main(rt: HostRuntime) -> io::Result<()> {
    run(&rt)
}

fn run(rt: &HostRuntime) -> io::Result<()> {
    for vector in &ENCRYPTIONS {
        let encrypted = vector.encrypted(rt.alloc());
        tell(rt, vector.name, encrypted, vector.expected, "no keystream")?;
    }
    for vector in &SESSIONS {
        vector.report(rt)?;
    }
    for vector in &CLOSINGS {
        let closed = vector.closed(rt.alloc());
        tell(rt, vector.name, closed, vector.expected, "not closed")?;
    }
    Ok(())
}
