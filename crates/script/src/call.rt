// Who calls whom.
use crate::side_number::SideNumber;
use std::fmt;

#[derive(Clone, Copy)]
pub struct Call {
    pub caller: SideNumber,
    pub called: SideNumber,
}

impl fmt::Display for Call {
    fn fmt<W: fmt::Write>(&self, f: &mut fmt::Formatter<W>) -> fmt::Result {
        write!(f, "call {} {}", self.caller, self.called)
    }
}
