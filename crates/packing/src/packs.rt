// Packs: the lanes of two vectors, narrowed.
ghost use Rattle.std.specs.Prelude.{◌≡◌, ◌+◌, ◌++◌, ◌%◌, ◌^◌, ◌≤◌, map};
ghost use Rattle.lanes.specs.Integer.{signed, modulo, sat_u, sat_s};
ghost use Rattle.lanes.specs.Order.{Bytes};
ghost use Rattle.lanes.specs.Placed.{lanes_of, placed};
ghost use Rattle.packing.specs.Resized.{unsigned, packed, within};

use crate::narrowed::{low_bytes, low_halves, to_bytes, to_halves};
use lanes::{Marked, Size, halves, of_bytes, of_halves, words};
use std::simd::prelude::*;

// The halves of a followed by b, and the words. The types of the lanes differ, and a shuffle has its places for one type alone; so there are
// two of this and of what narrows them, and an instruction is one call.
#[inline(always)]
fn halves_of(a: [u8; 16], b: [u8; 16]) -> u16x16
    ensures is { result ≡ lanes_of Size.Half a ++ lanes_of Size.Half b }
    ensures bytes { Bytes a × Bytes b }
{
    halves(a).shuffle(
        halves(b),
        [0, 1, 2, 3, 4, 5, 6, 7, 8, 9, 10, 11, 12, 13, 14, 15],
    )
}

#[inline(always)]
fn words_of(a: [u8; 16], b: [u8; 16]) -> u32x8
    ensures is { result ≡ lanes_of Size.Word a ++ lanes_of Size.Word b }
    ensures bytes { Bytes a × Bytes b }
{
    words(a).shuffle(words(b), [0, 1, 2, 3, 4, 5, 6, 7])
}

pub fn vpkuhum(a: [u8; 16], b: [u8; 16]) -> [u8; 16]
    ensures { result ≡ (packed Size.Half Size.Byte unsigned modulo a b).bytes }
{
    of_bytes(low_bytes(halves_of(a, b)))
}

pub fn vpkuwum(a: [u8; 16], b: [u8; 16]) -> [u8; 16]
    ensures { result ≡ (packed Size.Word Size.Half unsigned modulo a b).bytes }
{
    of_halves(low_halves(words_of(a, b)))
}

// The lanes of both, with a bias that makes them unsigned, between lo and hi, which have the bias too.
#[inline(always)]
fn packed_halves(a: [u8; 16], b: [u8; 16], bias: u16, lo: u16, hi: u16) -> Marked
    requires { lo ≤ hi }
    ensures is { result ≡ placed Size.Byte (map (λ t. within (2 ^ 8) lo hi ((t + bias) % 2 ^ 16)) (lanes_of Size.Half a ++ lanes_of Size.Half b)) }
    ensures bytes { Bytes a × Bytes b }
{
    to_bytes(halves_of(a, b) + u16x16::splat(bias), lo, hi)
}

#[inline(always)]
fn packed_words(a: [u8; 16], b: [u8; 16], bias: u32, lo: u32, hi: u32) -> Marked
    requires { lo ≤ hi }
    ensures is { result ≡ placed Size.Half (map (λ t. within (2 ^ 16) lo hi ((t + bias) % 2 ^ 32)) (lanes_of Size.Word a ++ lanes_of Size.Word b)) }
    ensures bytes { Bytes a × Bytes b }
{
    to_halves(words_of(a, b) + u32x8::splat(bias), lo, hi)
}

pub fn vpkuhus(a: [u8; 16], b: [u8; 16]) -> Marked
    ensures { result ≡ packed Size.Half Size.Byte unsigned sat_u a b }
{
    packed_halves(a, b, 0, 0, 255)
}

pub fn vpkuwus(a: [u8; 16], b: [u8; 16]) -> Marked
    ensures { result ≡ packed Size.Word Size.Half unsigned sat_u a b }
{
    packed_words(a, b, 0, 0, 65535)
}

pub fn vpkshus(a: [u8; 16], b: [u8; 16]) -> Marked
    ensures { result ≡ packed Size.Half Size.Byte signed sat_u a b }
{
    packed_halves(a, b, 32768, 32768, 33023)
}

pub fn vpkswus(a: [u8; 16], b: [u8; 16]) -> Marked
    ensures { result ≡ packed Size.Word Size.Half signed sat_u a b }
{
    packed_words(a, b, 2147483648, 2147483648, 2147549183)
}

pub fn vpkshss(a: [u8; 16], b: [u8; 16]) -> Marked
    ensures { result ≡ packed Size.Half Size.Byte signed sat_s a b }
{
    packed_halves(a, b, 32768, 32640, 32895)
}

pub fn vpkswss(a: [u8; 16], b: [u8; 16]) -> Marked
    ensures { result ≡ packed Size.Word Size.Half signed sat_s a b }
{
    packed_words(a, b, 2147483648, 2147450880, 2147516415)
}
