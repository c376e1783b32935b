// Contents that are closed and opened.
use crate::closing::{close, close_behind, open, open_behind};

#[test]
fn closed_and_opened(rt: HostRuntime) {
    let mut bytes = [5u8; 20];
    assert!(rt; close(&[1u8; 32], 7, b"head", &mut bytes).is_ok());
    assert!(rt; bytes[0] != 5);
    let closed = bytes;
    assert!(rt; open(&[1u8; 32], 7, b"heap", &mut bytes).is_err());
    assert_eq!(rt; bytes, closed);
    bytes[19] ^= 1;
    assert!(rt; open(&[1u8; 32], 7, b"head", &mut bytes).is_err());
    bytes[19] ^= 1;
    assert!(rt; open(&[1u8; 32], 7, b"head", &mut bytes).is_ok());
    assert_eq!(rt; [bytes[0], bytes[1], bytes[2], bytes[3]], [5; 4]);
}

#[test]
fn a_word_keeps_its_kind(rt: HostRuntime) {
    let mut word = [3u8; 18];
    assert!(rt; close_behind(&[1u8; 32], 0, &[], 1, &mut word).is_ok());
    assert!(rt; word[0] == 3);
    assert!(rt; open_behind(&[1u8; 32], 0, &[], 1, &mut word).is_ok());
    assert!(rt; word[1] == 3);
    let mut short = [3u8; 16];
    assert!(rt; close_behind(&[1u8; 32], 0, &[], 1, &mut short).is_err());
    let mut none = [0u8; 0];
    assert!(rt; open_behind(&[1u8; 32], 0, &[], 1, &mut none).is_err());
}

// A record's content, the number of the record before it in the tag; the bytes are those of another implementation.
#[test]
fn record_of_a_session(rt: HostRuntime) {
    let key = [
        0x0fu8, 0xe2, 0xf6, 0x97, 0x64, 0xdf, 0x0a, 0x5e, 0x6d, 0x41, 0xd4, 0xe8, 0x29, 0x71, 0x6d,
        0x30, 0x90, 0x5b, 0xbc, 0x83, 0xca, 0xf2, 0x8c, 0xab, 0x68, 0x7f, 0x30, 0x8f, 0xb8, 0x5d,
        0x15, 0x97,
    ];
    let mut bytes = *b"12480 kg................";
    assert!(rt; close(&key, 0, &[0; 8], &mut bytes).is_ok());
    assert_eq!(rt;
        bytes,
        [
            0x00, 0xa9, 0x37, 0xa8, 0xf2, 0xc4, 0xd2, 0xdc, 0x77, 0x44, 0x59, 0x03, 0x64, 0x14,
            0x66, 0x8b, 0xe9, 0x19, 0x43, 0x6b, 0x7c, 0xc4, 0x15, 0xee,
        ]
    );
}
