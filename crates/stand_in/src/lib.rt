// This protects nothing: a stand-in for the group and the signatures, of 64-bit arithmetic, to try the programs out.
// A secret key can be computed from its public half, and whoever knows a public half can sign for it.
#![tactic(auto)]

pub mod group;
mod number;
pub mod signatures;

// The name of the stand-in: `StandIn::..` are its group and its signatures.
pub struct StandIn;
