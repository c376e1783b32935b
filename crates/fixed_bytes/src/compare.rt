// Equality of byte strings: every byte is looked at, whatever the first ones are.
ghost use Rattle.std.specs.Prelude.{◌≡◌, length, Decides};

// Whether two strings of one length have the same bytes.
fn same_all(a: &[u8], b: &[u8]) -> bool
    requires { length a.now ≡ length b.now }
    ensures { Decides result (a.now ≡ b.now) }
{
    let mut difference = 0;
    for (x, y) in a.iter().zip(b) {
        difference |= x ^ y;
    }
    difference == 0
}

// Whether two strings are the same. Only their lengths end it early.
pub fn same_bytes(a: &[u8], b: &[u8]) -> bool
    ensures { Decides result (a.now ≡ b.now) }
{
    if a.len() != b.len() {
        return false;
    }
    same_all(a, b)
}
