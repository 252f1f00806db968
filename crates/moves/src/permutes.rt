// Bytes of one vector followed by another that are named by a third, and the patterns that name them.
ghost use Rattle.std.specs.Prelude.{◌≡◌, ◌+◌, ◌≤◌, bit_and, map, slice_index};
ghost use Rattle.moves.specs.Chosen.{permuted, places, pattern_left, pattern_right};

use std::simd::prelude::*;

// The bytes of v that the low four bits of k name.
#[inline(always)]
fn named(v: u8x16, k: u8x16) -> u8x16
    ensures { result ≡ map (λ x. slice_index v (bit_and x 15)) k }
{
    v.swizzle_dyn(k & u8x16::splat(15))
}

pub fn vperm(a: [u8; 16], b: [u8; 16], c: [u8; 16]) -> [u8; 16]
    ensures { result ≡ permuted a b c }
{
    let k = u8x16::from_array(c);
    let x = named(u8x16::from_array(a), k);
    let y = named(u8x16::from_array(b), k);
    let left = (k & u8x16::splat(31)).simd_lt(u8x16::splat(16));
    left.select(x, y).to_array()
}

// A pattern is sixteen of these in a row. A sum of vectors would be written byte by byte.
static NUMBERS: [u8; 32] = [
    0, 1, 2, 3, 4, 5, 6, 7, 8, 9, 10, 11, 12, 13, 14, 15, 16, 17, 18, 19, 20, 21, 22, 23, 24, 25,
    26, 27, 28, 29, 30, 31,
];

// The sixteen numbers from n on.
#[inline(always)]
fn counted(n: usize) -> [u8; 16]
    requires { n ≤ 16 }
    ensures { result ≡ places 16 0 (λ i. n + i) }
{
    u8x16::from_slice(&NUMBERS[n..]).to_array()
}

// For the low four bits s of an address.
pub fn lvsl(s: u8) -> [u8; 16]
    ensures { result ≡ pattern_left s }
{
    counted((s % 16) as usize)
}

pub fn lvsr(s: u8) -> [u8; 16]
    ensures { result ≡ pattern_right s }
{
    counted((16 - s % 16) as usize)
}
