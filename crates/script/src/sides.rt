// The sides that a script has.
ghost use Rattle.std.specs.Prelude.{◌≡◌, length};
ghost use Rattle.script.specs.Text.{most_sides};

use words::preferences::Preferences;

mod methods;

// A slot for each number that a side can have; a side that isn't there has an empty one.
// No model: seen as its roster it would forget what stands behind each count, and Copy needs the fields back.
#[derive(Clone, Copy)]
pub struct Sides {
    slots: [Option<Preferences>; 8],
    ghost whole: { length slots ≡ most_sides },
}
