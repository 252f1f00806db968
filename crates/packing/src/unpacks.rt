// Unpacks: the lanes of half a vector, each with its sign extended, which are copies of the sign before its bytes.
ghost use Rattle.std.specs.Prelude.{◌≡◌, cond, ltb, map};
ghost use Rattle.packing.specs.Resized.{unpacked_high, unpacked_low};

use lanes::{Size, bytes};
use std::simd::prelude::*;

// Eight copies of the sign of each byte.
#[inline(always)]
fn signs(v: u8x16) -> u8x16
    ensures { result ≡ map (λ x. cond (ltb x 128) 0 255) v }
{
    v.simd_lt(u8x16::splat(128))
        .select(u8x16::splat(0), u8x16::splat(255))
}

// The four differ in the places of a shuffle, which are constants of each.
pub fn vupkhsb(b: [u8; 16]) -> [u8; 16]
    ensures { result ≡ unpacked_high Size.Byte Size.Half b }
{
    let v = bytes(b);
    let r: u8x16 = signs(v).shuffle(v, [0, 16, 1, 17, 2, 18, 3, 19, 4, 20, 5, 21, 6, 22, 7, 23]);
    r.to_array()
}

pub fn vupkhsh(b: [u8; 16]) -> [u8; 16]
    ensures { result ≡ unpacked_high Size.Half Size.Word b }
{
    let v = bytes(b);
    let r: u8x16 = signs(v).shuffle(v, [0, 0, 16, 17, 2, 2, 18, 19, 4, 4, 20, 21, 6, 6, 22, 23]);
    r.to_array()
}

pub fn vupklsb(b: [u8; 16]) -> [u8; 16]
    ensures { result ≡ unpacked_low Size.Byte Size.Half b }
{
    let v = bytes(b);
    let r: u8x16 = signs(v).shuffle(
        v,
        [8, 24, 9, 25, 10, 26, 11, 27, 12, 28, 13, 29, 14, 30, 15, 31],
    );
    r.to_array()
}

pub fn vupklsh(b: [u8; 16]) -> [u8; 16]
    ensures { result ≡ unpacked_low Size.Half Size.Word b }
{
    let v = bytes(b);
    let r: u8x16 = signs(v).shuffle(
        v,
        [8, 8, 24, 25, 10, 10, 26, 27, 12, 12, 28, 29, 14, 14, 30, 31],
    );
    r.to_array()
}
