// The vectors of RFC 4231, section 4, for HMAC-SHA-256.
ghost use Rattle.std.specs.Prelude.{◌≡◌};
ghost use Rattle.hashes.specs.Hmac.{hmac_sha256};

use hashes::hmac::hmac;

// A key and a message, and their sum, of which the vector has the first bytes.
pub struct SumVector {
    pub name: &'static str,
    pub key: &'static [u8],
    pub message: &'static [u8],
    pub expected: &'static str,
}

#[rattlefmt::skip]
pub const SUMS: [SumVector; 7] = [
    SumVector {
        name: "RFC 4231 test case 1",
        key: &[0x0b; 20],
        message: b"Hi There",
        expected: "b0344c61d8db38535ca8afceaf0bf12b881dc200c9833da726e9376c2e32cff7",
    },
    SumVector {
        name: "RFC 4231 test case 2",
        key: b"Jefe",
        message: b"what do ya want for nothing?",
        expected: "5bdcc146bf60754e6a042426089575c75a003f089d2739839dec58b964ec3843",
    },
    SumVector {
        name: "RFC 4231 test case 3",
        key: &[0xaa; 20],
        message: &[0xdd; 50],
        expected: "773ea91e36800e46854db8ebd09181a72959098b3ef8c122d9635514ced565fe",
    },
    SumVector {
        name: "RFC 4231 test case 4",
        key: &[
            0x01, 0x02, 0x03, 0x04, 0x05, 0x06, 0x07, 0x08, 0x09, 0x0a, 0x0b, 0x0c, 0x0d, 0x0e, 0x0f, 0x10, 0x11, 0x12, 0x13, 0x14,
            0x15, 0x16, 0x17, 0x18, 0x19,
        ],
        message: &[0xcd; 50],
        expected: "82558a389a443c0ea4cc819899f2083a85f0faa3e578f8077a2e3ff46729665b",
    },
    SumVector {
        name: "RFC 4231 test case 5",
        key: &[0x0c; 20],
        message: b"Test With Truncation",
        expected: "a3b6167473100ee06e0c796c2955552b",
    },
    SumVector {
        name: "RFC 4231 test case 6",
        key: &[0xaa; 131],
        message: b"Test Using Larger Than Block-Size Key - Hash Key First",
        expected: "60e431591ee0b67f0d8a26aacbf5b77f8e0bc6213728c5140546040f0ee37f54",
    },
    SumVector {
        name: "RFC 4231 test case 7",
        key: &[0xaa; 131],
        message: b"This is a test using a larger than block-size key and a larger than block-size data. The key needs to be hashed before being used by the HMAC algorithm.",
        expected: "9b09ffa71b942fcb27635fbcd5b0e944bfdc63644f0713938a7f51535c3a35e2",
    },
];

impl SumVector {
    // What the library gives.
    pub fn sum(&self) -> [u8; 32]
        ensures { result ≡ hmac_sha256 self.now.key.now self.now.message.now }
    {
        hmac(self.key, self.message)
    }
}
