// The instructions that slide one vector into another by whole bytes, on vectors of 16 bytes.
#![tactic(auto)]

ghost use Rattle.std.specs.Prelude.{◌≡◌, ◌%◌, ◌<◌, ◌≤◌};
ghost use Rattle.slides.specs.Slid.{slid, octets, octets_left, octets_right};

use std::simd::prelude::*;

// Sixteen bytes of a followed by b, from byte k on: the two stand side by side, and are read from there.
#[inline(always)]
fn slide(a: [u8; 16], b: [u8; 16], k: usize) -> [u8; 16]
    requires { k ≤ 16 }
    ensures { result ≡ slid a b k }
{
    let mut both = [0u8; 32];
    both[..16].copy_from_slice(&a);
    both[16..].copy_from_slice(&b);
    u8x16::from_slice(&both[k..]).to_array()
}

pub fn vsldoi(a: [u8; 16], b: [u8; 16], count: u8) -> [u8; 16]
    ensures { result ≡ slid a b (count % 16) }
{
    slide(a, b, (count % 16) as usize)
}

// The number of bytes in bits 121-124 of b.
fn octets(b: [u8; 16]) -> usize
    ensures { (result ≡ octets b) × (result < 16) }
{
    (b[15] / 8 % 16) as usize
}

// The two differ in the side on which the zeros stand.
pub fn vslo(a: [u8; 16], b: [u8; 16]) -> [u8; 16]
    ensures { result ≡ octets_left a b }
{
    slide(a, [0; 16], octets(b))
}

pub fn vsro(a: [u8; 16], b: [u8; 16]) -> [u8; 16]
    ensures { result ≡ octets_right a b }
{
    slide([0; 16], a, 16 - octets(b))
}
