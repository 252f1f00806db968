// Shifts of the whole register, as one number of 128 bits, by up to seven bits.
ghost use Rattle.std.specs.Prelude.{◌≡◌, ◌<◌};
ghost use Rattle.moves.specs.Shifted.{bits, bytes_of, shifted_left, shifted_right};

use std::simd::prelude::*;

// The last three bits of b.
fn bits(b: [u8; 16]) -> u32
    ensures { (result ≡ bits b) × (result < 8) }
{
    (b[15] % 8) as u32
}

// The bytes of x, the highest first, in one vector: `to_be_bytes` would write them one by one.
#[inline(always)]
fn bytes_of(x: u128) -> [u8; 16]
    ensures { result ≡ bytes_of x }
{
    let high = (x / 18446744073709551616) as u64;
    let low = (x % 18446744073709551616) as u64;
    u64x2::from_array([low, high])
        .to_le_bytes()
        .reverse()
        .to_array()
}

// The two differ in one operator.
pub fn vsl(a: [u8; 16], b: [u8; 16]) -> [u8; 16]
    ensures { result ≡ shifted_left a b }
{
    bytes_of(u128::from_be_bytes(a) << bits(b))
}

pub fn vsr(a: [u8; 16], b: [u8; 16]) -> [u8; 16]
    ensures { result ≡ shifted_right a b }
{
    bytes_of(u128::from_be_bytes(a) >> bits(b))
}
