// What C links of the keystream: bytes turned in place.
#![tactic(auto)]

ghost use Rattle.ciphers.specs.ChaCha20.{Turning};

use ciphers::chacha20::turn;

// C hands bytes in as a struct of their size.
#[repr(C)]
#[derive(Drop)]
pub struct Key {
    pub bytes: [u8; 32],
}

#[repr(C)]
#[derive(Drop)]
pub struct Nonce {
    pub bytes: [u8; 12],
}

#[unsafe(no_mangle)]
pub extern "C" fn keystream_turn(key: &Key, counter: u32, nonce: &Nonce, bytes: &mut [u8]) -> bool
    ensures { Turning key.now.bytes counter nonce.now.bytes bytes.old bytes.new result }
{
    turn(&key.bytes, counter, &nonce.bytes, bytes).is_ok()
}
