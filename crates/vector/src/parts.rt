// What several instructions share: lanes as exact integers, parts of a lane with their sign, and marks.
ghost use Rattle.std.specs.Prelude.{◌≡◌, length, map, ◌%◌, ◌^◌, ◌<◌, ◌+◌, ◌+ℤ◌};
ghost use Rattle.std.specs.Int.Signed.{mag};
ghost use Rattle.std.specs.Simd.Lanes.{Each1, zip2};
ghost use mir.Syntax.{w16, w32};
ghost use mir.Val.{of_z};
ghost use Rattle.lanes.specs.Integer.{signed, sat_s};
ghost use Rattle.lanes.specs.Order.{Bytes};
ghost use Rattle.lanes.specs.Placed.{lanes_of, placed};

use lanes::{Marked, Size, halves, of_halves, of_words, with_marks};
use std::simd::prelude::*;

// The low byte of each half, and of each word, with its sign carried through the lane. As in lib.rt, no type parameter has the operators
// that the three need.
#[inline(always)]
pub fn signed_byte_of_half(x: u16x8) -> u16x8
    ensures { result ≡ map (λ t. of_z w16 (signed (2 ^ 8) (t % 2 ^ 8))) x }
{
    let sign = u16x8::splat(128);
    ((x + sign) & u16x8::splat(255)) - sign
}

#[inline(always)]
pub fn signed_byte(x: u32x4) -> u32x4
    ensures { result ≡ map (λ t. of_z w32 (signed (2 ^ 8) (t % 2 ^ 8))) x }
{
    let sign = u32x4::splat(128);
    ((x + sign) & u32x4::splat(255)) - sign
}

// The low half of each word, likewise.
#[inline(always)]
pub fn signed_half(x: u32x4) -> u32x4
    ensures { result ≡ map (λ t. of_z w32 (signed (2 ^ 16) (t % 2 ^ 16))) x }
{
    let sign = u32x4::splat(32768);
    ((x + sign) & u32x4::splat(65535)) - sign
}

// The halves of v as exact integers in 32 bits.
#[inline(always)]
pub fn signed_halves(v: [u8; 16]) -> i32x8
    ensures { (result ≡ map (signed 65536) (lanes_of Size.Half v)) × Bytes v }
{
    let x = halves(v);
    i16x8::from_le_bytes(x.to_le_bytes()).cast::<i32>()
}

// Exact results, each moved to the nearer end of the signed range.
#[inline(always)]
pub fn saturated_halves(z: i32x8) -> Marked
    requires { (length z ≡ 8) × Each1 (λ t. mag t < 2 ^ 31) z }
    ensures { result ≡ placed Size.Half (map (sat_s 65536) z) }
{
    let near = z.simd_clamp(i32x8::splat(-32768), i32x8::splat(32767));
    let out = z.simd_ne(near);
    let low = u16x8::from_le_bytes(near.cast::<i16>().to_le_bytes());
    with_marks(of_halves(low), out.to_bitmask())
}

// The bits of v.
#[inline(always)]
pub fn as_bits(v: i32x4) -> u32x4
    requires { (length v ≡ 4) × Each1 (λ t. mag t < 2 ^ 31) v }
    ensures { result ≡ map (of_z w32) v }
{
    u32x4::from_le_bytes(v.to_le_bytes())
}

// The sums of words, each moved to the nearer end of the signed range.
#[inline(always)]
pub fn sum_of_words(x: u32x4, y: u32x4) -> Marked
    ensures { result ≡ placed Size.Word (zip2 (λ s t. sat_s (2 ^ 32) (signed (2 ^ 32) s +ℤ signed (2 ^ 32) t)) x y) }
{
    let top = u32x4::splat(2147483648);
    let sum = x + y;
    let minus = y.simd_ge(top);
    let out = (sum + top).simd_lt(x + top) ^ minus;
    let end = minus.select(top, u32x4::splat(2147483647));
    with_marks(of_words(out.select(end, sum)), out.to_bitmask())
}

// (Two impls, for the two types of lanes; the operators are those of each.) A multiply lane takes the exact sum of its products and c reduced to the lane: products and sums of products wrap, and so does c when it is added.
pub trait MultiplyLane: Copy {
    ghost modulo: { Self → Self → Self };

    fn reduced(self, c: Self) -> Self
        ensures { result ≡ modulo self c };
}

impl MultiplyLane for u16x8 {
    ghost modulo = { zip2 (λ s t. (s + t) % 2 ^ 16) };

    #[inline(always)]
    fn reduced(self, c: u16x8) -> u16x8 {
        self + c
    }
}

impl MultiplyLane for u32x4 {
    ghost modulo = { zip2 (λ s t. (s + t) % 2 ^ 32) };

    #[inline(always)]
    fn reduced(self, c: u32x4) -> u32x4 {
        self + c
    }
}
