// A side of a script, by its number.
ghost use Rattle.std.specs.Prelude.{◌<◌};

mod methods;

// 0 to 7: so many sides are played.
#[derive(Clone, Copy)]
pub struct SideNumber {
    number: u8,
    ghost small: { number < 8 },
}
