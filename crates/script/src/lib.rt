// Scripts for `line`: how a line is read, and what it does to the sides. The form is told in docs/LINE.md.
#![tactic(auto)]

pub mod call;
pub mod command;
pub mod expected;
pub mod laws;
pub mod played;
pub mod reader;
pub mod side_number;
pub mod sides;
mod text;
