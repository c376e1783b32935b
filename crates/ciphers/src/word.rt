// A word of ChaCha20's state, of one block or of four blocks side by side: each lane is a block's word.
ghost use Rattle.std.specs.Prelude.{◌≡◌, ℕ, ◌+◌, ◌^◌, ◌<◌, ◌≤◌, slice_index};
ghost use Rattle.ciphers.specs.ChaCha20.{mixed};
ghost use Rattle.ciphers.specs.Lanes.{EachLane};

use std::simd::prelude::*;

pub(crate) trait Word: Copy {
    // how many blocks, and the word of each
    ghost lanes: { ℕ };

    ghost lane: { ℕ → Self → ℕ };

    fn blocks() -> usize
        ensures { result ≡ lanes };

    // The same word for every block.
    fn same(word: u32) -> Self
        ensures { EachLane lanes (λ n. lane n result ≡ word) };

    // A number for the first block, and for each other the next.
    fn counted(first: u32) -> Self
        requires { first + lanes ≤ 2 ^ 32 }
        ensures { EachLane lanes (λ n. lane n result ≡ first + n) };

    // The word of a block.
    fn of_block(self, n: usize) -> u32
        requires { n < lanes }
        ensures { result ≡ lane n self };

    // One line of a quarter round: a += b; d ^= a; d <<<= k.
    fn mix(k: u32, a: Self, b: Self, d: Self) -> (Self, Self)
        requires { (0 < k) × (k < 32) }
        ensures { EachLane lanes (λ n. (lane n result.0, lane n result.1) ≡ mixed k (lane n a) (lane n b) (lane n d)) };
}

impl Word for u32 {
    ghost lanes = { 1 };

    ghost lane = { λ n w. w };

    fn blocks() -> usize {
        1
    }

    fn same(word: u32) -> u32 {
        word
    }

    fn counted(first: u32) -> u32 {
        first
    }

    fn of_block(self, n: usize) -> u32 {
        self
    }

    fn mix(k: u32, a: u32, b: u32, d: u32) -> (u32, u32) {
        let sum = a.wrapping_add(b);
        (sum, (d ^ sum).rotate_left(k))
    }
}

impl Word for u32x4 {
    ghost lanes = { 4 };

    ghost lane = { λ n w. slice_index w n };

    fn blocks() -> usize {
        4
    }

    fn same(word: u32) -> u32x4 {
        u32x4::splat(word)
    }

    fn counted(first: u32) -> u32x4 {
        u32x4::from_array([first, first + 1, first + 2, first + 3])
    }

    fn of_block(self, n: usize) -> u32 {
        self.to_array()[n]
    }

    fn mix(k: u32, a: u32x4, b: u32x4, d: u32x4) -> (u32x4, u32x4) {
        let sum = a + b;
        let x = d ^ sum;
        (sum, (x << u32x4::splat(k)) | (x >> u32x4::splat(32 - k)))
    }
}
