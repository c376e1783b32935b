// ChaCha20 as in RFC 8439: rounds of additions and turns on 32-bit words, with sums that wrap on purpose; four blocks at once where there are four.
ghost use Rattle.std.specs.Prelude.{◌≡◌, ℕ, ◌+◌, ◌*◌, ◌/◌, ◌%◌, ◌^◌, ◌<◌, ◌≤◌, min, true, ◌&&◌, map, length, is_ok, nat_le, slice_index};
ghost use Rattle.ciphers.specs.ChaCha20.{quarter_at, double_round, double_rounds, word_at, initial, sum_byte, block_byte, stream_byte, Turning, TurnedTwiceUnchanged, TurnedApart};
ghost use Rattle.ciphers.specs.Lanes.{EachLane};
ghost use Rattle.ciphers.specs.Parts.{PartTurned};

use crate::word::Word;
use std::simd::prelude::*;

// The last counter that three others follow.
const LAST_OF_FOUR: u32 = 0xffff_fffc;

// A quarter round on four words of a state.
fn quarter_at<T: Word>(s: &mut [T; 16], i: usize, j: usize, k: usize, l: usize)
    requires { (i < 16) × ((j < 16) × ((k < 16) × (l < 16))) }
    ensures sized { length s.old ≡ 16 }
    ensures each { EachLane T.Word.lanes (λ n. map (T.Word.lane n) s.new ≡ quarter_at i j k l (map (T.Word.lane n) s.old)) }
{
    let (a, d) = T::mix(16, s[i], s[j], s[l]);
    let (c, b) = T::mix(12, s[k], d, s[j]);
    let (a, d) = T::mix(8, a, b, d);
    let (c, b) = T::mix(7, c, d, b);
    s[i] = a;
    s[j] = b;
    s[k] = c;
    s[l] = d;
}

// Four rounds on columns, and four on diagonals. The diagonals have no word in common, so they may come in any order:
// from the last to the first, a machine with 16 registers moves the fewest words to and fro.
fn double_round<T: Word>(s: &mut [T; 16])
    ensures { EachLane T.Word.lanes (λ n. map (T.Word.lane n) s.new ≡ double_round (map (T.Word.lane n) s.old)) }
{
    quarter_at(s, 0, 4, 8, 12);
    quarter_at(s, 1, 5, 9, 13);
    quarter_at(s, 2, 6, 10, 14);
    quarter_at(s, 3, 7, 11, 15);
    quarter_at(s, 3, 4, 9, 14);
    quarter_at(s, 2, 7, 8, 13);
    quarter_at(s, 1, 6, 11, 12);
    quarter_at(s, 0, 5, 10, 15);
}

// Twenty rounds.
fn rounds<T: Word>(start: &[T; 16]) -> [T; 16]
    ensures { EachLane T.Word.lanes (λ n. map (T.Word.lane n) result ≡ double_rounds 10 (map (T.Word.lane n) start.now)) }
{
    let mut s = *start;
    for i in 0..10u32 {
        double_round(&mut s);
    }
    s
}

// The word at a place of some bytes, low byte first.
fn word_at(bytes: &[u8], i: usize) -> u32
    requires { 4 * i + 3 < length bytes.now }
    ensures { result ≡ word_at bytes.now i }
{
    u32::from_le_bytes([
        bytes[4 * i],
        bytes[4 * i + 1],
        bytes[4 * i + 2],
        bytes[4 * i + 3],
    ])
}

// The states that blocks begin with.
fn initial<T: Word>(key: &[u8; 32], counter: u32, nonce: &[u8; 12]) -> [T; 16]
    requires { counter + T.Word.lanes ≤ 2 ^ 32 }
    ensures { EachLane T.Word.lanes (λ n. map (T.Word.lane n) result ≡ initial key.now (counter + n) nonce.now) }
{
    [
        T::same(0x61707865),
        T::same(0x3320646e),
        T::same(0x79622d32),
        T::same(0x6b206574),
        T::same(word_at(key, 0)),
        T::same(word_at(key, 1)),
        T::same(word_at(key, 2)),
        T::same(word_at(key, 3)),
        T::same(word_at(key, 4)),
        T::same(word_at(key, 5)),
        T::same(word_at(key, 6)),
        T::same(word_at(key, 7)),
        T::counted(counter),
        T::same(word_at(nonce, 0)),
        T::same(word_at(nonce, 1)),
        T::same(word_at(nonce, 2)),
    ]
}

// The bytes of a block: the sums of its words, each with its low byte first. A zip of both under `enumerate` was tried: no
// invariant could name the place.
fn sum_bytes<T: Word>(a: &[T; 16], b: &[T; 16], n: usize) -> [u8; 64]
    requires { n < T.Word.lanes }
    ensures { (j : ℕ) → j < 64 → slice_index result j ≡ sum_byte (map (T.Word.lane n) a.now) (map (T.Word.lane n) b.now) j }
{
    let mut out = [0u8; 64];
    for (i, x) in a.iter().enumerate() {
        let word = x.of_block(n).wrapping_add(b[i].of_block(n)).to_le_bytes();
        out[4 * i..4 * i + 4].copy_from_slice(&word);
    }
    out
}

// The bytes from a place on, as many as a block has or as there are, turned by a block. The bytes are lent with a place in
// them and the loop goes over the stream, since nothing is known of bytes that were written through chunks or through an
// adapter of `iter_mut`.
fn turn_block(bytes: &mut [u8], at: usize, stream: &[u8; 64])
    requires { at + 64 < 2 ^ 64 }
    ensures { PartTurned (λ j. slice_index stream.now j) bytes.old bytes.new at (min (length bytes.old) (at + 64)) }
{
    let count = bytes.len().saturating_sub(at).min(64);
    for (j, key) in stream[0..count].iter().enumerate() {
        bytes[at + j] ^= *key;
    }
}

// The bytes from a place on, as many as the blocks have or as there are, turned by the blocks that begin so.
fn turn_blocks<T: Word>(start: &[T; 16], bytes: &mut [u8], at: usize)
    requires { at + 64 * T.Word.lanes < 2 ^ 64 }
    ensures { PartTurned (λ p. block_byte (map (T.Word.lane (p / 64)) start.now) (p % 64)) bytes.old bytes.new at (min (length bytes.old) (at + 64 * T.Word.lanes)) }
{
    let last = rounds(start);
    for n in 0..T::blocks() {
        turn_block(bytes, at + 64 * n, &sum_bytes(&last, start, n));
    }
}

// Whether the next four blocks are made at once: three of them take longer one by one.
fn takes_four(left: usize, counter: u32) -> bool
    ensures chosen { result ≡ nat_le 3 left && nat_le (counter + 4) (2 ^ 32) }
    ensures fits { result ≡ true → counter + 4 ≤ 2 ^ 32 }
{
    left >= 3 && counter <= LAST_OF_FOUR
}

// The next blocks, one or four; and how many they were. Key, counter and nonce stay apart, as those who call `turn` have them.
fn turn_next(
    key: &[u8; 32],
    counter: u32,
    nonce: &[u8; 12],
    bytes: &mut [u8],
    at: usize,
    left: usize,
) -> usize
    requires { at + 256 < 2 ^ 64 }
    ensures some { (0 < result) × (result ≤ 4) }
    ensures turned { PartTurned (stream_byte key.now counter nonce.now) bytes.old bytes.new at (min (length bytes.old) (at + 64 * result)) }
{
    if takes_four(left, counter) {
        turn_blocks(&initial::<u32x4>(key, counter, nonce), bytes, at);
        4
    } else {
        turn_blocks(&initial::<u32>(key, counter, nonce), bytes, at);
        1
    }
}

// More bytes than the counter has blocks for.
#[derive(Clone, Copy, Debug)]
pub struct KeystreamUsedUp;

// How many blocks so many bytes take.
fn blocks_for(bytes: usize) -> usize
    requires { bytes < 2 ^ 63 }
    ensures { result ≡ (bytes + 63) / 64 }
{
    (bytes + 63) / 64
}

// Whether so many blocks follow a counter before it would pass its end.
fn has_blocks(counter: u32, blocks: usize) -> bool
    ensures { result ≡ nat_le (counter + blocks) (2 ^ 32) }
{
    blocks as u64 <= 0x1_0000_0000 - counter as u64
}

// Bytes turned in place by the keystream from a counter on; turned again they are what they were.
// Where the counter would pass its end nothing is turned.
pub fn turn(
    key: &[u8; 32],
    counter: u32,
    nonce: &[u8; 12],
    bytes: &mut [u8],
) -> Result<(), KeystreamUsedUp>
    ensures { Turning key.now counter nonce.now bytes.old bytes.new (is_ok result) }
{
    let blocks = blocks_for(bytes.len());
    if !has_blocks(counter, blocks) {
        return Err(KeystreamUsedUp);
    }
    // One or four blocks a step, so what is done is what the steps say, and no range counts it.
    let mut done = 0;
    while done < blocks {
        done += turn_next(
            key,
            counter + done as u32,
            nonce,
            bytes,
            64 * done,
            blocks - done,
        );
    }
    Ok(())
}

// Bytes that are turned twice are what they were.
pub fn turned_twice_is_unchanged()
    ensures { TurnedTwiceUnchanged }
{}

// Different bytes are turned into different bytes.
pub fn turned_apart()
    ensures { TurnedApart }
{}
