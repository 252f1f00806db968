// Lanes that become narrower: reduced to the lower half of their bits, or moved between lo and hi first, with a mark for each that moved.
// The functions for bytes and for halves differ in the type of their lanes alone: std::simd has comparisons and casts at each type of lanes, and at no type parameter.
ghost use Rattle.std.specs.Prelude.{◌≡◌, ◌≤◌, ◌%◌, ◌^◌, map};
ghost use Rattle.lanes.specs.Placed.{placed};
ghost use Rattle.packing.specs.Resized.{within};

use lanes::{Marked, Size, of_bytes, of_halves, with_marks};
use std::simd::prelude::*;

// The lower half of each lane.
#[inline(always)]
pub fn low_bytes(v: u16x16) -> u8x16
    ensures { result ≡ map (λ x. x % 2 ^ 8) v }
{
    (v & u16x16::splat(255)).cast::<u8>()
}

#[inline(always)]
pub fn low_halves(v: u32x8) -> u16x8
    ensures { result ≡ map (λ x. x % 2 ^ 16) v }
{
    (v & u32x8::splat(65535)).cast::<u16>()
}

// The lower half of each lane that was moved between lo and hi.
#[inline(always)]
pub fn to_bytes(v: u16x16, lo: u16, hi: u16) -> Marked
    requires { lo ≤ hi }
    ensures { result ≡ placed Size.Byte (map (within (2 ^ 8) lo hi) v) }
{
    let near = v.simd_clamp(u16x16::splat(lo), u16x16::splat(hi));
    with_marks(of_bytes(low_bytes(near)), v.simd_ne(near).to_bitmask())
}

#[inline(always)]
pub fn to_halves(v: u32x8, lo: u32, hi: u32) -> Marked
    requires { lo ≤ hi }
    ensures { result ≡ placed Size.Half (map (within (2 ^ 16) lo hi) v) }
{
    let near = v.simd_clamp(u32x8::splat(lo), u32x8::splat(hi));
    with_marks(of_halves(low_halves(near)), v.simd_ne(near).to_bitmask())
}
