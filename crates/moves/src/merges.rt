// Merges and splats: lanes that are chosen and not changed. `shuffle` takes its places as a constant, so each merge has its own list of them.
ghost use Rattle.std.specs.Prelude.{◌≡◌};
ghost use Rattle.moves.specs.Chosen.{merged_high, merged_low, splat};

use lanes::Size;
use std::simd::prelude::*;

pub fn vmrghb(a: [u8; 16], b: [u8; 16]) -> [u8; 16]
    ensures { result ≡ merged_high Size.Byte a b }
{
    let x = u8x16::from_array(a);
    let y = u8x16::from_array(b);
    let v: u8x16 = x.shuffle(y, [0, 16, 1, 17, 2, 18, 3, 19, 4, 20, 5, 21, 6, 22, 7, 23]);
    v.to_array()
}

pub fn vmrghh(a: [u8; 16], b: [u8; 16]) -> [u8; 16]
    ensures { result ≡ merged_high Size.Half a b }
{
    let x = u8x16::from_array(a);
    let y = u8x16::from_array(b);
    let v: u8x16 = x.shuffle(y, [0, 1, 16, 17, 2, 3, 18, 19, 4, 5, 20, 21, 6, 7, 22, 23]);
    v.to_array()
}

pub fn vmrghw(a: [u8; 16], b: [u8; 16]) -> [u8; 16]
    ensures { result ≡ merged_high Size.Word a b }
{
    let x = u8x16::from_array(a);
    let y = u8x16::from_array(b);
    let v: u8x16 = x.shuffle(y, [0, 1, 2, 3, 16, 17, 18, 19, 4, 5, 6, 7, 20, 21, 22, 23]);
    v.to_array()
}

pub fn vmrglb(a: [u8; 16], b: [u8; 16]) -> [u8; 16]
    ensures { result ≡ merged_low Size.Byte a b }
{
    let x = u8x16::from_array(a);
    let y = u8x16::from_array(b);
    let v: u8x16 = x.shuffle(
        y,
        [8, 24, 9, 25, 10, 26, 11, 27, 12, 28, 13, 29, 14, 30, 15, 31],
    );
    v.to_array()
}

pub fn vmrglh(a: [u8; 16], b: [u8; 16]) -> [u8; 16]
    ensures { result ≡ merged_low Size.Half a b }
{
    let x = u8x16::from_array(a);
    let y = u8x16::from_array(b);
    let v: u8x16 = x.shuffle(
        y,
        [8, 9, 24, 25, 10, 11, 26, 27, 12, 13, 28, 29, 14, 15, 30, 31],
    );
    v.to_array()
}

pub fn vmrglw(a: [u8; 16], b: [u8; 16]) -> [u8; 16]
    ensures { result ≡ merged_low Size.Word a b }
{
    let x = u8x16::from_array(a);
    let y = u8x16::from_array(b);
    let v: u8x16 = x.shuffle(
        y,
        [8, 9, 10, 11, 24, 25, 26, 27, 12, 13, 14, 15, 28, 29, 30, 31],
    );
    v.to_array()
}

// Each reads one lane and repeats it; what differs is the lane's size, and the names are the instructions'.
pub fn vspltb(b: [u8; 16], lane: u8) -> [u8; 16]
    ensures { result ≡ splat Size.Byte b lane }
{
    let k = (lane % 16) as usize;
    u8x16::splat(b[k]).to_array()
}

pub fn vsplth(b: [u8; 16], lane: u8) -> [u8; 16]
    ensures { result ≡ splat Size.Half b lane }
{
    let k = (lane % 8 * 2) as usize;
    u16x8::splat(u16::from_le_bytes([b[k], b[k + 1]]))
        .to_le_bytes()
        .to_array()
}

pub fn vspltw(b: [u8; 16], lane: u8) -> [u8; 16]
    ensures { result ≡ splat Size.Word b lane }
{
    let k = (lane % 4 * 4) as usize;
    let (x, y, z, t) = (b[k], b[k + 1], b[k + 2], b[k + 3]);
    let v = u8x16::from_array([x, y, z, t, 0, 0, 0, 0, 0, 0, 0, 0, 0, 0, 0, 0]);
    v.swizzle([0, 1, 2, 3, 0, 1, 2, 3, 0, 1, 2, 3, 0, 1, 2, 3])
        .to_array()
}
