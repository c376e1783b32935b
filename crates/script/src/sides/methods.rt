// How sides are set, how they call each other, and what a command does to them.
ghost use Rattle.std.specs.Prelude.{◌≡◌, set, replicate, Some, None, Ok, slice_index_or, slice_set};
ghost use Rattle.words.specs.Listed.{listed, made};
ghost use Rattle.script.specs.Lines.{said};
ghost use Rattle.script.specs.Playing.{roster, chosen, there, answer, told, outcome, after};
ghost use Rattle.script.specs.Text.{most_sides};

use crate::call::Call;
use crate::command::Command;
use crate::played::Played;
use crate::side_number::SideNumber;
use crate::sides::Sides;
use words::choice::choose;
use words::cipher::Cipher;
use words::fault::Fault;
use words::preferences::Preferences;

impl Sides {
    // No side is there.
    pub fn new() -> Sides
        ensures { roster result ≡ replicate most_sides None }
    {
        Sides { slots: [None; 8] }
    }

    // A side is there from now on, with these preferences.
    pub fn set(&mut self, side: SideNumber, preferences: Preferences)
        ensures { roster self.new ≡ slice_set (roster self.old) side.number (Some (listed preferences)) }
    {
        self.slots[u8::from(side) as usize] = Some(preferences);
    }

    // The called side's choice among what the caller offers.
    pub fn call(&self, call: Call) -> Result<Cipher, Fault>
        ensures { chosen result ≡ answer (roster self.now) call.caller.number call.called.number }
    {
        let offer = self.preferences(call.caller)?;
        let preferences = self.preferences(call.called)?;
        choose(&preferences, &offer).ok_or(Fault::NothingInCommon)
    }

    // The preferences of a side, which must be there.
    fn preferences(&self, side: SideNumber) -> Result<Preferences, Fault>
        ensures { made result ≡ there (slice_index_or (roster self.now) side.number None) Ok }
    {
        self.slots[u8::from(side) as usize].ok_or(Fault::UnknownSide)
    }

    // Does what a command says, and tells what a call comes to.
    pub fn play(&mut self, command: Option<Command>) -> Option<Played>
        ensures shows { told result ≡ outcome (roster self.old) (said command) }
        ensures leaves { roster self.new ≡ after (roster self.old) (said command) }
    {
        match command? {
            Command::Side(side, preferences) => {
                self.set(side, preferences);
                None
            }
            Command::Call(call) => Some(Played {
                call,
                answer: self.call(call),
            }),
        }
    }
}
