// Overwriting what must not be left behind.
ghost use Rattle.std.specs.Prelude.{◌≡◌, length};
ghost use Rattle.fixed_bytes.specs.Zeros.{zeros};

// Every byte is overwritten with zero.
#[tactic(auto, unfolding(crate::specs::Zeros::zeros))]
pub fn wipe(bytes: &mut [u8])
    ensures { bytes.new ≡ zeros (length bytes.old) }
{
    bytes.fill(0);
}
