// The compression of one block.
ghost use Rattle.std.specs.Prelude.{◌≡◌, ◌<◌, ◌≤◌, take, drop};
ghost use Rattle.sha256.specs.Sha256.{added, compressed, constants, next_word, round, rounds, slid_by, sums};
ghost use Rattle.sha256.specs.Words.{first_word, words};

use crate::state::State;
use crate::word::{big_sigma0, big_sigma1, choose, most, small_sigma0, small_sigma1};

// The constants of the rounds.
#[rattlefmt::skip]
const CONSTANTS: [u32; 64] = [
    0x428a_2f98, 0x7137_4491, 0xb5c0_fbcf, 0xe9b5_dba5, 0x3956_c25b, 0x59f1_11f1, 0x923f_82a4, 0xab1c_5ed5,
    0xd807_aa98, 0x1283_5b01, 0x2431_85be, 0x550c_7dc3, 0x72be_5d74, 0x80de_b1fe, 0x9bdc_06a7, 0xc19b_f174,
    0xe49b_69c1, 0xefbe_4786, 0x0fc1_9dc6, 0x240c_a1cc, 0x2de9_2c6f, 0x4a74_84aa, 0x5cb0_a9dc, 0x76f9_88da,
    0x983e_5152, 0xa831_c66d, 0xb003_27c8, 0xbf59_7fc7, 0xc6e0_0bf3, 0xd5a7_9147, 0x06ca_6351, 0x1429_2967,
    0x27b7_0a85, 0x2e1b_2138, 0x4d2c_6dfc, 0x5338_0d13, 0x650a_7354, 0x766a_0abb, 0x81c2_c92e, 0x9272_2c85,
    0xa2bf_e8a1, 0xa81a_664b, 0xc24b_8b70, 0xc76c_51a3, 0xd192_e819, 0xd699_0624, 0xf40e_3585, 0x106a_a070,
    0x19a4_c116, 0x1e37_6c08, 0x2748_774c, 0x34b0_bcb5, 0x391c_0cb3, 0x4ed8_aa4a, 0x5b9c_ca4f, 0x682e_6ff3,
    0x748f_82ee, 0x78a5_636f, 0x84c8_7814, 0x8cc7_0208, 0x90be_fffa, 0xa450_6ceb, 0xbef9_a3f7, 0xc671_78f2,
];

// One round, for the sum of its constant and its word.
fn one_round(s: State, sum: u32) -> State
    ensures { result ≡ round s sum }
{
    let first = sum
        .wrapping_add(s.h)
        .wrapping_add(choose(s.e, s.f, s.g))
        .wrapping_add(big_sigma1(s.e));
    let second = big_sigma0(s.a).wrapping_add(most(s.a, s.b, s.c));
    State {
        a: first.wrapping_add(second),
        b: s.a,
        c: s.b,
        d: s.c,
        e: s.d.wrapping_add(first),
        f: s.e,
        g: s.f,
        h: s.g,
    }
}

// The word that follows: from those 16, 15, 7 and 2 places back.
fn following(back16: u32, back15: u32, back7: u32, back2: u32) -> u32
    ensures { result ≡ next_word back16 back15 back7 back2 }
{
    small_sigma1(back2)
        .wrapping_add(back7)
        .wrapping_add(small_sigma0(back15))
        .wrapping_add(back16)
}

// The state before a block and what the rounds gave, added word by word.
fn add(s: State, t: State) -> State
    ensures { result ≡ added s t }
{
    State {
        a: s.a.wrapping_add(t.a),
        b: s.b.wrapping_add(t.b),
        c: s.c.wrapping_add(t.c),
        d: s.d.wrapping_add(t.d),
        e: s.e.wrapping_add(t.e),
        f: s.f.wrapping_add(t.f),
        g: s.g.wrapping_add(t.g),
        h: s.h.wrapping_add(t.h),
    }
}

// The sixteen words of a block.
fn block_words(block: &[u8; 64]) -> [u32; 16]
    ensures { result ≡ words 16 block.now }
{
    let mut w = [0; 16];
    for (t, bytes) in block.as_chunks::<4>().0.iter().enumerate() {
        w[t] = u32::from_be_bytes(*bytes);
    }
    w
}

// Eight rounds, by their constants and their words.
fn eight_rounds(s: State, constants: &[u32; 8], w: &[u32; 8]) -> State
    ensures { result ≡ rounds s (sums constants.now w.now) }
{
    let s = one_round(s, constants[0].wrapping_add(w[0]));
    let s = one_round(s, constants[1].wrapping_add(w[1]));
    let s = one_round(s, constants[2].wrapping_add(w[2]));
    let s = one_round(s, constants[3].wrapping_add(w[3]));
    let s = one_round(s, constants[4].wrapping_add(w[4]));
    let s = one_round(s, constants[5].wrapping_add(w[5]));
    let s = one_round(s, constants[6].wrapping_add(w[6]));
    let s = one_round(s, constants[7].wrapping_add(w[7]));
    s
}

// The first quarter of the rounds, by the words of the block: eight at a time, which takes less time than one at a time.
fn first_rounds(s: State, w: &[u32; 16]) -> State
    ensures { result ≡ rounds s (sums (take 16 constants) w.now) }
{
    let mut s = s;
    for (constants, words) in CONSTANTS
        .as_chunks::<8>()
        .0
        .iter()
        .zip(w.as_chunks::<8>().0)
    {
        s = eight_rounds(s, constants, words);
    }
    s
}

// A later quarter of the rounds, each word made from the last sixteen just before its round; and the words. They are written
// out, since a loop would count places in a ring of sixteen by hand.
fn more_rounds<const FROM: usize>(s: State, w: &[u32; 16]) -> (State, [u32; 16])
    requires { FROM ≤ 48 }
    ensures state { result.0 ≡ rounds s (sums (take 16 (drop FROM constants)) (slid_by 16 w.now)) }
    ensures words { result.1 ≡ slid_by 16 w.now }
{
    let [
        w0,
        w1,
        w2,
        w3,
        w4,
        w5,
        w6,
        w7,
        w8,
        w9,
        w10,
        w11,
        w12,
        w13,
        w14,
        w15,
    ] = *w;
    let w0 = following(w0, w1, w9, w14);
    let s = one_round(s, CONSTANTS[FROM].wrapping_add(w0));
    let w1 = following(w1, w2, w10, w15);
    let s = one_round(s, CONSTANTS[FROM + 1].wrapping_add(w1));
    let w2 = following(w2, w3, w11, w0);
    let s = one_round(s, CONSTANTS[FROM + 2].wrapping_add(w2));
    let w3 = following(w3, w4, w12, w1);
    let s = one_round(s, CONSTANTS[FROM + 3].wrapping_add(w3));
    let w4 = following(w4, w5, w13, w2);
    let s = one_round(s, CONSTANTS[FROM + 4].wrapping_add(w4));
    let w5 = following(w5, w6, w14, w3);
    let s = one_round(s, CONSTANTS[FROM + 5].wrapping_add(w5));
    let w6 = following(w6, w7, w15, w4);
    let s = one_round(s, CONSTANTS[FROM + 6].wrapping_add(w6));
    let w7 = following(w7, w8, w0, w5);
    let s = one_round(s, CONSTANTS[FROM + 7].wrapping_add(w7));
    let w8 = following(w8, w9, w1, w6);
    let s = one_round(s, CONSTANTS[FROM + 8].wrapping_add(w8));
    let w9 = following(w9, w10, w2, w7);
    let s = one_round(s, CONSTANTS[FROM + 9].wrapping_add(w9));
    let w10 = following(w10, w11, w3, w8);
    let s = one_round(s, CONSTANTS[FROM + 10].wrapping_add(w10));
    let w11 = following(w11, w12, w4, w9);
    let s = one_round(s, CONSTANTS[FROM + 11].wrapping_add(w11));
    let w12 = following(w12, w13, w5, w10);
    let s = one_round(s, CONSTANTS[FROM + 12].wrapping_add(w12));
    let w13 = following(w13, w14, w6, w11);
    let s = one_round(s, CONSTANTS[FROM + 13].wrapping_add(w13));
    let w14 = following(w14, w15, w7, w12);
    let s = one_round(s, CONSTANTS[FROM + 14].wrapping_add(w14));
    let w15 = following(w15, w0, w8, w13);
    let s = one_round(s, CONSTANTS[FROM + 15].wrapping_add(w15));
    (
        s,
        [
            w0, w1, w2, w3, w4, w5, w6, w7, w8, w9, w10, w11, w12, w13, w14, w15,
        ],
    )
}

// The state after a block.
pub fn compress(state: State, block: &[u8; 64]) -> State
    ensures { result ≡ compressed state block.now }
{
    let w = block_words(block);
    let s = first_rounds(state, &w);
    let (s, w) = more_rounds::<16>(s, &w);
    let (s, w) = more_rounds::<32>(s, &w);
    let (s, _) = more_rounds::<48>(s, &w);
    add(state, s)
}
