// What an operation does to a lane of 8, 16 or 32 bits: the definitions, and the lanes of a vector at the width of the register.
#![tactic(auto)]

ghost use Rattle.std.specs.Prelude.{◌≡◌};
ghost use Rattle.lanes.specs.Placed.{Holds, laid, with_marks};
ghost use Rattle.lanes.specs.Summary.{all_true, none_true};

use std::simd::prelude::*;

// The operations of the instructions on lanes, in the order of document 01, "Encodings". U and S: the lanes are unsigned, signed; the sign is part
// of the name, as in the definitions.
#[derive(Clone, Copy)]
pub enum Op {
    AddModulo,
    AddCarry,
    AddSatU,
    AddSatS,
    SubModulo,
    SubCarry,
    SubSatU,
    SubSatS,
    MaxU,
    MaxS,
    MinU,
    MinS,
    AvgU,
    AvgS,
    RotateLeft,
    ShiftLeft,
    ShiftRight,
    ShiftRightAlgebraic,
    And,
    AndNot,
    Or,
    Xor,
    Nor,
    MulOddU,
    MulOddS,
    MulEvenU,
    MulEvenS,
    SumBytesU,
    SumBytesS,
    SumHalvesS,
    SplatImmediate,
    Equal,
    GreaterU,
    GreaterS,
    MulHighAdd,
    MulHighRoundAdd,
    MulLowAdd,
    MulSumBytesU,
    MulSumBytesMixed,
    MulSumHalvesU,
    MulSumHalvesSatU,
    MulSumHalvesS,
    MulSumHalvesSatS,
    Select,
}

// The widths of a lane: 8, 16 and 32 bits.
#[derive(Clone, Copy)]
pub enum Size {
    Byte,
    Half,
    Word,
}

// A lane of a result, and whether the exact result had to be moved to fit. One that was moved has a value too, so the two are no Option.
#[derive(Clone, Copy)]
pub struct Lane {
    pub value: u64,
    pub clipped: bool,
}

// What an operation is given at a lane.
#[derive(Clone, Copy)]
pub struct Operands {
    pub x: u64,
    pub y: u64,
    pub z: u64,
}

// A vector, with a mark for each lane that was clipped: bit i is lane i, and lane 0 is the leftmost. Bytes and marks are both there at once.
#[derive(Clone, Copy)]
pub struct Marked {
    pub bytes: [u8; 16],
    pub marks: u32,
}

// The places of the bytes where those of each half, and of each word, are turned round.
const HALVES_TURNED: [usize; 16] = [1, 0, 3, 2, 5, 4, 7, 6, 9, 8, 11, 10, 13, 12, 15, 14];

const WORDS_TURNED: [usize; 16] = [3, 2, 1, 0, 7, 6, 5, 4, 11, 10, 9, 8, 15, 14, 13, 12];

// The lanes of a vector, each as an unsigned number; the first byte of a lane is its highest. A function for each size, since the type of the
// lanes is its result: as one function over a trait it would be three impls of one line each.
#[inline(always)]
pub fn bytes(v: [u8; 16]) -> u8x16
    ensures { Holds Size.Byte v result }
{
    u8x16::from_array(v)
}

#[inline(always)]
pub fn halves(v: [u8; 16]) -> u16x8
    ensures { Holds Size.Half v result }
{
    u16x8::from_le_bytes(u8x16::from_array(v).swizzle(HALVES_TURNED))
}

#[inline(always)]
pub fn words(v: [u8; 16]) -> u32x4
    ensures { Holds Size.Word v result }
{
    u32x4::from_le_bytes(u8x16::from_array(v).swizzle(WORDS_TURNED))
}

// The vector that has such lanes.
#[inline(always)]
pub fn of_bytes(v: u8x16) -> [u8; 16]
    ensures { result ≡ laid Size.Byte v }
{
    v.to_array()
}

#[inline(always)]
pub fn of_halves(v: u16x8) -> [u8; 16]
    ensures { result ≡ laid Size.Half v }
{
    v.to_le_bytes().swizzle(HALVES_TURNED).to_array()
}

#[inline(always)]
pub fn of_words(v: u32x4) -> [u8; 16]
    ensures { result ≡ laid Size.Word v }
{
    v.to_le_bytes().swizzle(WORDS_TURNED).to_array()
}

// A vector, and the low 32 bits of a mask as its marks, which are all: a mask has a bit for each of sixteen lanes at most.
#[inline(always)]
pub fn with_marks(bytes: [u8; 16], mask: u64) -> Marked
    ensures { result ≡ with_marks bytes mask }
{
    Marked {
        bytes,
        marks: (mask % 4294967296) as u32,
    }
}

// What a comparison says of all its lanes: every word is all ones, or every word is zero. The two differ in one number, and CR6 asks for both by name.
pub fn all_true(v: [u8; 16]) -> bool
    ensures { result ≡ all_true v }
{
    words(v).simd_eq(u32x4::splat(4294967295)).to_bitmask() == 15
}

pub fn none_true(v: [u8; 16]) -> bool
    ensures { result ≡ none_true v }
{
    words(v).simd_eq(u32x4::splat(0)).to_bitmask() == 15
}
