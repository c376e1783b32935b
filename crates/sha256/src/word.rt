// The functions of SHA-256 on words of 32 bits.
ghost use Rattle.std.specs.Prelude.{◌≡◌};
ghost use Rattle.sha256.specs.Words.{choice, majority, big_sigma0, big_sigma1, small_sigma0, small_sigma1};

// The same bits as (x & y) ^ (!x & z), with one operation less.
pub const fn choose(x: u32, y: u32, z: u32) -> u32
    ensures { result ≡ choice x y z }
{
    (x & (y ^ z)) ^ z
}

// The same bits as (x & y) ^ (x & z) ^ (y & z).
pub const fn most(x: u32, y: u32, z: u32) -> u32
    ensures { result ≡ majority x y z }
{
    ((x ^ y) & (y ^ z)) ^ y
}

// The four sums by the names that the standard has for them: one function of three constants would have these at each call.
pub const fn big_sigma0(x: u32) -> u32
    ensures { result ≡ big_sigma0 x }
{
    x.rotate_right(2) ^ x.rotate_right(13) ^ x.rotate_right(22)
}

pub const fn big_sigma1(x: u32) -> u32
    ensures { result ≡ big_sigma1 x }
{
    x.rotate_right(6) ^ x.rotate_right(11) ^ x.rotate_right(25)
}

pub const fn small_sigma0(x: u32) -> u32
    ensures { result ≡ small_sigma0 x }
{
    x.rotate_right(7) ^ x.rotate_right(18) ^ (x >> 3)
}

pub const fn small_sigma1(x: u32) -> u32
    ensures { result ≡ small_sigma1 x }
{
    x.rotate_right(17) ^ x.rotate_right(19) ^ (x >> 10)
}
