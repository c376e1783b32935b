// Numbers of 64 bits as 32 bytes.
ghost use Rattle.std.specs.Prelude.{◌≡◌, ◌*◌, ◌%◌, ◌^◌};
ghost use Rattle.stand_in.specs.StandIn.{number, element};

// The number that 32 bytes stand for.
pub(crate) fn number_of(bytes: &[u8; 32]) -> u64
    ensures { result ≡ number bytes.now }
{
    // 32 bytes have 8 last ones.
    let Some((_, last)) = bytes.split_last_chunk::<8>() else {
        return 0;
    };
    u64::from_be_bytes(*last)
}

// A number as 32 bytes.
pub(crate) fn element_of(number: u64) -> [u8; 32]
    ensures { result ≡ element number }
{
    let mut bytes = [0; 32];
    bytes[24..].copy_from_slice(&number.to_be_bytes());
    bytes
}

// The product modulo 2^64.
pub(crate) fn product(x: &[u8; 32], e: &[u8; 32]) -> [u8; 32]
    ensures { result ≡ element (number x.now * number e.now % 2 ^ 64) }
{
    element_of(number_of(x).wrapping_mul(number_of(e)))
}
