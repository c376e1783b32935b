// Examples of RFC 8439, and where the counter ends.
use crate::chacha20::turn;

// The key 00 01 .. 1f.
fn counted() -> [u8; 32] {
    std::array::from_fn(|i| (i & 0xff) as u8)
}

// The block of section 2.3.2.
#[test]
fn block_of_the_rfc(rt: HostRuntime) {
    let key = counted();
    let nonce = [0, 0, 0, 9, 0, 0, 0, 0x4a, 0, 0, 0, 0];
    let mut bytes = [0u8; 64];
    assert!(rt; turn(&key, 1, &nonce, &mut bytes).is_ok());
    assert_eq!(rt;
        [bytes[0], bytes[1], bytes[2], bytes[3]],
        [0x10, 0xf1, 0xe7, 0xe4]
    );
    assert_eq!(rt;
        [bytes[60], bytes[61], bytes[62], bytes[63]],
        [0xa2, 0x50, 0x3c, 0x4e]
    );
}

#[test]
fn the_counter_ends(rt: HostRuntime) {
    let mut bytes = [7u8; 65];
    assert!(rt; turn(&[1; 32], u32::MAX, &[2; 12], &mut bytes).is_err());
    assert!(rt; bytes[0] == 7);
    assert!(rt; bytes[64] == 7);
    assert!(rt; turn(&[1; 32], u32::MAX - 1, &[2; 12], &mut bytes).is_ok());
}

// The beginning of the encryption in RFC 8439, section 2.4.2.
#[test]
fn text_of_the_rfc(rt: HostRuntime) {
    let key = counted();
    let nonce = [0, 0, 0, 0, 0, 0, 0, 0x4a, 0, 0, 0, 0];
    let mut bytes = *b"Ladies a";
    assert!(rt; turn(&key, 1, &nonce, &mut bytes).is_ok());
    assert_eq!(rt; bytes, [0x6e, 0x2e, 0x35, 0x9a, 0x25, 0x68, 0xf9, 0x80]);
}
