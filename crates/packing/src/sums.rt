// Sums across words: exact in 64 bits, and clipped once.
ghost use Rattle.std.specs.Prelude.{◌≡◌, ◌^◌, ◌<◌};
ghost use Rattle.lanes.specs.Integer.{signed, sat_s};
ghost use Rattle.packing.specs.Summed.{odd_words, sum_of_two, sum_of_all};

use lanes::{Lane, Marked, of_words, words};
use std::simd::prelude::*;

#[inline(always)]
fn signed(word: u32) -> i64
    ensures { result ≡ signed (2 ^ 32) word }
{
    word.cast_signed() as i64
}

// The word that an exact sum becomes, and whether it had to be moved.
#[inline(always)]
fn saturated(z: i64) -> Lane
    ensures { (result ≡ sat_s (2 ^ 32) z) × (result.value < 2 ^ 32) }
{
    let near = z.clamp(-2147483648, 2147483647);
    Lane {
        value: (near as i32).cast_unsigned() as u64,
        clipped: near != z,
    }
}

// The words 1 and 3, and zero in the others.
#[inline(always)]
fn odd_words(p: Lane, q: Lane) -> Marked
    requires { (p.value < 2 ^ 32) × (q.value < 2 ^ 32) }
    ensures { result ≡ odd_words p q }
{
    let bytes = of_words(u32x4::from_array([0, p.value as u32, 0, q.value as u32]));
    let marks = 2 * (p.clipped as u32) + 8 * (q.clipped as u32);
    Marked { bytes, marks }
}

pub fn vsum2sws(a: [u8; 16], b: [u8; 16]) -> Marked
    ensures { result ≡ sum_of_two a b }
{
    let x = words(a).to_array();
    let y = words(b).to_array();
    odd_words(
        saturated(signed(x[0]) + signed(x[1]) + signed(y[1])),
        saturated(signed(x[2]) + signed(x[3]) + signed(y[3])),
    )
}

pub fn vsumsws(a: [u8; 16], b: [u8; 16]) -> Marked
    ensures { result ≡ sum_of_all a b }
{
    let x = words(a).to_array();
    let y = words(b).to_array();
    odd_words(
        saturated(0),
        saturated(signed(x[0]) + signed(x[1]) + signed(x[2]) + signed(x[3]) + signed(y[3])),
    )
}
