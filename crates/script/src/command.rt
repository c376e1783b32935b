// What a line of a script says, if it says anything.
use crate::call::Call;
use crate::side_number::SideNumber;
use words::preferences::Preferences;

#[derive(Clone, Copy)]
pub enum Command {
    // a side is there, with these preferences
    Side(SideNumber, Preferences),
    // one side calls another, or itself
    Call(Call),
}
