// Records of a worked session under cipher 1, closed with their number in the tag, as another program computed them.
ghost use Rattle.session_vectors.specs.Closed.{Closes};

use crate::failure::NotComputed;
use aead::closing::close;
use aead::key::ClosingKey;
use fixed_bytes::secret::Secret;
use std::alloc::Global;

// A key, the record's number and its content, and what is sent behind the record's head.
pub struct ClosingVector {
    pub name: &'static str,
    pub key: [u8; 32],
    pub number: u64,
    pub content: &'static [u8],
    pub expected: &'static str,
}

#[rattlefmt::skip]
pub const CLOSINGS: [ClosingVector; 3] = [
    ClosingVector {
        name: "session 2, record 0 to the called side",
        key: [
            0x0f, 0xe2, 0xf6, 0x97, 0x64, 0xdf, 0x0a, 0x5e, 0x6d, 0x41, 0xd4, 0xe8, 0x29, 0x71, 0x6d, 0x30,
            0x90, 0x5b, 0xbc, 0x83, 0xca, 0xf2, 0x8c, 0xab, 0x68, 0x7f, 0x30, 0x8f, 0xb8, 0x5d, 0x15, 0x97,
        ],
        number: 0,
        content: b"12480 kg",
        expected: "00a937a8f2c4d2dc774459036414668be919436b7cc415ee",
    },
    ClosingVector {
        name: "session 2, record 1 to the called side",
        key: [
            0x0f, 0xe2, 0xf6, 0x97, 0x64, 0xdf, 0x0a, 0x5e, 0x6d, 0x41, 0xd4, 0xe8, 0x29, 0x71, 0x6d, 0x30,
            0x90, 0x5b, 0xbc, 0x83, 0xca, 0xf2, 0x8c, 0xab, 0x68, 0x7f, 0x30, 0x8f, 0xb8, 0x5d, 0x15, 0x97,
        ],
        number: 1,
        content: b"7 t 315",
        expected: "73f184d579fd8579e45b221f9535d1ed0474db2052f002",
    },
    ClosingVector {
        name: "session 2, record 0 to the caller",
        key: [
            0x50, 0x11, 0xd8, 0x7c, 0xf1, 0xfe, 0x59, 0xcc, 0xe1, 0x5d, 0xe4, 0xad, 0x85, 0xcd, 0xb1, 0xd8,
            0xec, 0xd3, 0xa6, 0xf0, 0x50, 0x72, 0xb1, 0xc9, 0x99, 0x9c, 0xc7, 0x68, 0xe3, 0x15, 0xa1, 0x94,
        ],
        number: 0,
        content: b"paid",
        expected: "cbad1be8c289282b81d4f0b7b9060de6f747c501",
    },
];

impl ClosingVector {
    // The content closed, with its number before it in the tag.
    pub fn closed(&self, heap: Global) -> Result<Vec<u8>, NotComputed>
        ensures { Closes self.now.key self.now.number self.now.content.now result }
    {
        let mut bytes = self.content.to_vec(heap)?;
        bytes.extend_from_slice(&[0; 16])?;
        let key = ClosingKey::new(Secret::from(self.key));
        close(&key, self.number, &self.number.to_be_bytes(), &mut bytes)?;
        Ok(bytes)
    }
}
