// Runs the published vectors of the primitives, and prints of each its name, the value and whether it fits.
#![tactic(auto)]

mod digests;
mod sums;

use digests::DIGESTS;
use reporting::report;
use std::io;
use sums::SUMS;

fn main(rt: HostRuntime) -> io::Result<()> {
    run(&rt)
}

fn run(rt: &HostRuntime) -> io::Result<()> {
    for vector in &DIGESTS {
        report(rt, vector.name, &vector.digest(), vector.expected)?;
    }
    for vector in &SUMS {
        report(rt, vector.name, &vector.sum(), vector.expected)?;
    }
    Ok(())
}
