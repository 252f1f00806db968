// The word-wise instructions by name: each lane of the result is the operation at the lanes of the operands.
// An operation that looks at fewer than three operands is given the last one again.
// Each width is a function of its own, though its law is one for all three: the operators on vectors are no impls of `std::ops` that a type
// parameter could ask for, so one generic function would want a trait with a method for each operator, and three impls of it, which is no plainer.
#![tactic(auto)]

ghost use Rattle.std.specs.Prelude.{◌≡◌};
ghost use Rattle.lanes.specs.Operations.{applied};
ghost use Rattle.vector.specs.Copies.{copies};

use lanes::{Marked, Op, Size, bytes, halves, of_bytes, of_halves, of_words, with_marks, words};
use std::simd::prelude::*;

mod parts;

use parts::{
    MultiplyLane, as_bits, saturated_halves, signed_byte, signed_byte_of_half, signed_half,
    signed_halves, sum_of_words,
};

// Add and subtract: `+` and `-` on vectors wrap, as the modulo forms want.
pub fn vaddubm(a: [u8; 16], b: [u8; 16]) -> [u8; 16]
    ensures { result ≡ (applied Size.Byte Op.AddModulo a b b).bytes }
{
    let x = bytes(a);
    let y = bytes(b);
    of_bytes(x + y)
}

pub fn vadduhm(a: [u8; 16], b: [u8; 16]) -> [u8; 16]
    ensures { result ≡ (applied Size.Half Op.AddModulo a b b).bytes }
{
    let x = halves(a);
    let y = halves(b);
    of_halves(x + y)
}

pub fn vadduwm(a: [u8; 16], b: [u8; 16]) -> [u8; 16]
    ensures { result ≡ (applied Size.Word Op.AddModulo a b b).bytes }
{
    let x = words(a);
    let y = words(b);
    of_words(x + y)
}

// A carry out is a sum that came out below its first part.
pub fn vaddcuw(a: [u8; 16], b: [u8; 16]) -> [u8; 16]
    ensures { result ≡ (applied Size.Word Op.AddCarry a b b).bytes }
{
    let x = words(a);
    let y = words(b);
    let carry = (x + y).simd_lt(x);
    of_words(carry.select(u32x4::splat(1), u32x4::splat(0)))
}

pub fn vaddubs(a: [u8; 16], b: [u8; 16]) -> Marked
    ensures { result ≡ applied Size.Byte Op.AddSatU a b b }
{
    let x = bytes(a);
    let y = bytes(b);
    let sum = x.saturating_add(y);
    with_marks(of_bytes(sum), sum.simd_ne(x + y).to_bitmask())
}

pub fn vadduhs(a: [u8; 16], b: [u8; 16]) -> Marked
    ensures { result ≡ applied Size.Half Op.AddSatU a b b }
{
    let x = halves(a);
    let y = halves(b);
    let sum = x.saturating_add(y);
    with_marks(of_halves(sum), sum.simd_ne(x + y).to_bitmask())
}

pub fn vadduws(a: [u8; 16], b: [u8; 16]) -> Marked
    ensures { result ≡ applied Size.Word Op.AddSatU a b b }
{
    let x = words(a);
    let y = words(b);
    let sum = x.saturating_add(y);
    with_marks(of_words(sum), sum.simd_ne(x + y).to_bitmask())
}

// A signed sum is out of range where it compares with x other than the sign of y says; it then moves to the end on the side of y.
// Adding half of the range makes an unsigned comparison a signed one.
pub fn vaddsbs(a: [u8; 16], b: [u8; 16]) -> Marked
    ensures { result ≡ applied Size.Byte Op.AddSatS a b b }
{
    let x = bytes(a);
    let y = bytes(b);
    let top = u8x16::splat(128);
    let sum = x + y;
    let minus = y.simd_ge(top);
    let out = (sum + top).simd_lt(x + top) ^ minus;
    let end = minus.select(top, u8x16::splat(127));
    with_marks(of_bytes(out.select(end, sum)), out.to_bitmask())
}

pub fn vaddshs(a: [u8; 16], b: [u8; 16]) -> Marked
    ensures { result ≡ applied Size.Half Op.AddSatS a b b }
{
    let x = halves(a);
    let y = halves(b);
    let top = u16x8::splat(32768);
    let sum = x + y;
    let minus = y.simd_ge(top);
    let out = (sum + top).simd_lt(x + top) ^ minus;
    let end = minus.select(top, u16x8::splat(32767));
    with_marks(of_halves(out.select(end, sum)), out.to_bitmask())
}

pub fn vaddsws(a: [u8; 16], b: [u8; 16]) -> Marked
    ensures { result ≡ applied Size.Word Op.AddSatS a b b }
{
    sum_of_words(words(a), words(b))
}

pub fn vsububm(a: [u8; 16], b: [u8; 16]) -> [u8; 16]
    ensures { result ≡ (applied Size.Byte Op.SubModulo a b b).bytes }
{
    let x = bytes(a);
    let y = bytes(b);
    of_bytes(x - y)
}

pub fn vsubuhm(a: [u8; 16], b: [u8; 16]) -> [u8; 16]
    ensures { result ≡ (applied Size.Half Op.SubModulo a b b).bytes }
{
    let x = halves(a);
    let y = halves(b);
    of_halves(x - y)
}

pub fn vsubuwm(a: [u8; 16], b: [u8; 16]) -> [u8; 16]
    ensures { result ≡ (applied Size.Word Op.SubModulo a b b).bytes }
{
    let x = words(a);
    let y = words(b);
    of_words(x - y)
}

pub fn vsubcuw(a: [u8; 16], b: [u8; 16]) -> [u8; 16]
    ensures { result ≡ (applied Size.Word Op.SubCarry a b b).bytes }
{
    let x = words(a);
    let y = words(b);
    let whole = x.simd_ge(y);
    of_words(whole.select(u32x4::splat(1), u32x4::splat(0)))
}

pub fn vsububs(a: [u8; 16], b: [u8; 16]) -> Marked
    ensures { result ≡ applied Size.Byte Op.SubSatU a b b }
{
    let x = bytes(a);
    let y = bytes(b);
    let difference = x.saturating_sub(y);
    with_marks(of_bytes(difference), x.simd_lt(y).to_bitmask())
}

pub fn vsubuhs(a: [u8; 16], b: [u8; 16]) -> Marked
    ensures { result ≡ applied Size.Half Op.SubSatU a b b }
{
    let x = halves(a);
    let y = halves(b);
    let difference = x.saturating_sub(y);
    with_marks(of_halves(difference), x.simd_lt(y).to_bitmask())
}

pub fn vsubuws(a: [u8; 16], b: [u8; 16]) -> Marked
    ensures { result ≡ applied Size.Word Op.SubSatU a b b }
{
    let x = words(a);
    let y = words(b);
    let difference = x.saturating_sub(y);
    with_marks(of_words(difference), x.simd_lt(y).to_bitmask())
}

pub fn vsubsbs(a: [u8; 16], b: [u8; 16]) -> Marked
    ensures { result ≡ applied Size.Byte Op.SubSatS a b b }
{
    let x = bytes(a);
    let y = bytes(b);
    let top = u8x16::splat(128);
    let difference = x - y;
    let minus = y.simd_ge(top);
    let out = (x + top).simd_lt(difference + top) ^ minus;
    let end = minus.select(u8x16::splat(127), top);
    with_marks(of_bytes(out.select(end, difference)), out.to_bitmask())
}

pub fn vsubshs(a: [u8; 16], b: [u8; 16]) -> Marked
    ensures { result ≡ applied Size.Half Op.SubSatS a b b }
{
    let x = halves(a);
    let y = halves(b);
    let top = u16x8::splat(32768);
    let difference = x - y;
    let minus = y.simd_ge(top);
    let out = (x + top).simd_lt(difference + top) ^ minus;
    let end = minus.select(u16x8::splat(32767), top);
    with_marks(of_halves(out.select(end, difference)), out.to_bitmask())
}

pub fn vsubsws(a: [u8; 16], b: [u8; 16]) -> Marked
    ensures { result ≡ applied Size.Word Op.SubSatS a b b }
{
    let x = words(a);
    let y = words(b);
    let top = u32x4::splat(2147483648);
    let difference = x - y;
    let minus = y.simd_ge(top);
    let out = (x + top).simd_lt(difference + top) ^ minus;
    let end = minus.select(u32x4::splat(2147483647), top);
    with_marks(of_words(out.select(end, difference)), out.to_bitmask())
}

// Maximum, minimum, average.
pub fn vmaxub(a: [u8; 16], b: [u8; 16]) -> [u8; 16]
    ensures { result ≡ (applied Size.Byte Op.MaxU a b b).bytes }
{
    let x = bytes(a);
    let y = bytes(b);
    of_bytes(x.simd_max(y))
}

pub fn vmaxuh(a: [u8; 16], b: [u8; 16]) -> [u8; 16]
    ensures { result ≡ (applied Size.Half Op.MaxU a b b).bytes }
{
    let x = halves(a);
    let y = halves(b);
    of_halves(x.simd_max(y))
}

pub fn vmaxuw(a: [u8; 16], b: [u8; 16]) -> [u8; 16]
    ensures { result ≡ (applied Size.Word Op.MaxU a b b).bytes }
{
    let x = words(a);
    let y = words(b);
    of_words(x.simd_max(y))
}

pub fn vmaxsb(a: [u8; 16], b: [u8; 16]) -> [u8; 16]
    ensures { result ≡ (applied Size.Byte Op.MaxS a b b).bytes }
{
    let x = bytes(a);
    let y = bytes(b);
    let top = u8x16::splat(128);
    let less = (x + top).simd_lt(y + top);
    of_bytes(less.select(y, x))
}

pub fn vmaxsh(a: [u8; 16], b: [u8; 16]) -> [u8; 16]
    ensures { result ≡ (applied Size.Half Op.MaxS a b b).bytes }
{
    let x = halves(a);
    let y = halves(b);
    let top = u16x8::splat(32768);
    let less = (x + top).simd_lt(y + top);
    of_halves(less.select(y, x))
}

pub fn vmaxsw(a: [u8; 16], b: [u8; 16]) -> [u8; 16]
    ensures { result ≡ (applied Size.Word Op.MaxS a b b).bytes }
{
    let x = words(a);
    let y = words(b);
    let top = u32x4::splat(2147483648);
    let less = (x + top).simd_lt(y + top);
    of_words(less.select(y, x))
}

pub fn vminub(a: [u8; 16], b: [u8; 16]) -> [u8; 16]
    ensures { result ≡ (applied Size.Byte Op.MinU a b b).bytes }
{
    let x = bytes(a);
    let y = bytes(b);
    of_bytes(x.simd_min(y))
}

pub fn vminuh(a: [u8; 16], b: [u8; 16]) -> [u8; 16]
    ensures { result ≡ (applied Size.Half Op.MinU a b b).bytes }
{
    let x = halves(a);
    let y = halves(b);
    of_halves(x.simd_min(y))
}

pub fn vminuw(a: [u8; 16], b: [u8; 16]) -> [u8; 16]
    ensures { result ≡ (applied Size.Word Op.MinU a b b).bytes }
{
    let x = words(a);
    let y = words(b);
    of_words(x.simd_min(y))
}

pub fn vminsb(a: [u8; 16], b: [u8; 16]) -> [u8; 16]
    ensures { result ≡ (applied Size.Byte Op.MinS a b b).bytes }
{
    let x = bytes(a);
    let y = bytes(b);
    let top = u8x16::splat(128);
    let less = (x + top).simd_lt(y + top);
    of_bytes(less.select(x, y))
}

pub fn vminsh(a: [u8; 16], b: [u8; 16]) -> [u8; 16]
    ensures { result ≡ (applied Size.Half Op.MinS a b b).bytes }
{
    let x = halves(a);
    let y = halves(b);
    let top = u16x8::splat(32768);
    let less = (x + top).simd_lt(y + top);
    of_halves(less.select(x, y))
}

pub fn vminsw(a: [u8; 16], b: [u8; 16]) -> [u8; 16]
    ensures { result ≡ (applied Size.Word Op.MinS a b b).bytes }
{
    let x = words(a);
    let y = words(b);
    let top = u32x4::splat(2147483648);
    let less = (x + top).simd_lt(y + top);
    of_words(less.select(x, y))
}

// Half of a sum, rounded up, without the bit that the sum may carry out: what x or y has, less half of what one of them alone has.
pub fn vavgub(a: [u8; 16], b: [u8; 16]) -> [u8; 16]
    ensures { result ≡ (applied Size.Byte Op.AvgU a b b).bytes }
{
    let x = bytes(a);
    let y = bytes(b);
    of_bytes((x | y) - ((x ^ y) >> u8x16::splat(1)))
}

pub fn vavguh(a: [u8; 16], b: [u8; 16]) -> [u8; 16]
    ensures { result ≡ (applied Size.Half Op.AvgU a b b).bytes }
{
    let x = halves(a);
    let y = halves(b);
    of_halves((x | y) - ((x ^ y) >> u16x8::splat(1)))
}

pub fn vavguw(a: [u8; 16], b: [u8; 16]) -> [u8; 16]
    ensures { result ≡ (applied Size.Word Op.AvgU a b b).bytes }
{
    let x = words(a);
    let y = words(b);
    of_words((x | y) - ((x ^ y) >> u32x4::splat(1)))
}

pub fn vavgsb(a: [u8; 16], b: [u8; 16]) -> [u8; 16]
    ensures { result ≡ (applied Size.Byte Op.AvgS a b b).bytes }
{
    let top = u8x16::splat(128);
    let x = bytes(a) + top;
    let y = bytes(b) + top;
    of_bytes((x | y) - ((x ^ y) >> u8x16::splat(1)) - top)
}

pub fn vavgsh(a: [u8; 16], b: [u8; 16]) -> [u8; 16]
    ensures { result ≡ (applied Size.Half Op.AvgS a b b).bytes }
{
    let top = u16x8::splat(32768);
    let x = halves(a) + top;
    let y = halves(b) + top;
    of_halves((x | y) - ((x ^ y) >> u16x8::splat(1)) - top)
}

pub fn vavgsw(a: [u8; 16], b: [u8; 16]) -> [u8; 16]
    ensures { result ≡ (applied Size.Word Op.AvgS a b b).bytes }
{
    let top = u32x4::splat(2147483648);
    let x = words(a) + top;
    let y = words(b) + top;
    of_words((x | y) - ((x ^ y) >> u32x4::splat(1)) - top)
}

// Rotate and shift, by the low bits of y.
pub fn vrlb(a: [u8; 16], b: [u8; 16]) -> [u8; 16]
    ensures { result ≡ (applied Size.Byte Op.RotateLeft a b b).bytes }
{
    let x = bytes(a);
    let y = bytes(b);
    let s = y & u8x16::splat(7);
    let right = (x >> u8x16::splat(1)) >> (u8x16::splat(7) - s);
    of_bytes((x << s) + right)
}

pub fn vrlh(a: [u8; 16], b: [u8; 16]) -> [u8; 16]
    ensures { result ≡ (applied Size.Half Op.RotateLeft a b b).bytes }
{
    let x = halves(a);
    let y = halves(b);
    let s = y & u16x8::splat(15);
    let right = (x >> u16x8::splat(1)) >> (u16x8::splat(15) - s);
    of_halves((x << s) + right)
}

pub fn vrlw(a: [u8; 16], b: [u8; 16]) -> [u8; 16]
    ensures { result ≡ (applied Size.Word Op.RotateLeft a b b).bytes }
{
    let x = words(a);
    let y = words(b);
    let s = y & u32x4::splat(31);
    let right = (x >> u32x4::splat(1)) >> (u32x4::splat(31) - s);
    of_words((x << s) + right)
}

pub fn vslb(a: [u8; 16], b: [u8; 16]) -> [u8; 16]
    ensures { result ≡ (applied Size.Byte Op.ShiftLeft a b b).bytes }
{
    let x = bytes(a);
    let y = bytes(b);
    of_bytes(x << (y & u8x16::splat(7)))
}

pub fn vslh(a: [u8; 16], b: [u8; 16]) -> [u8; 16]
    ensures { result ≡ (applied Size.Half Op.ShiftLeft a b b).bytes }
{
    let x = halves(a);
    let y = halves(b);
    of_halves(x << (y & u16x8::splat(15)))
}

pub fn vslw(a: [u8; 16], b: [u8; 16]) -> [u8; 16]
    ensures { result ≡ (applied Size.Word Op.ShiftLeft a b b).bytes }
{
    let x = words(a);
    let y = words(b);
    of_words(x << (y & u32x4::splat(31)))
}

pub fn vsrb(a: [u8; 16], b: [u8; 16]) -> [u8; 16]
    ensures { result ≡ (applied Size.Byte Op.ShiftRight a b b).bytes }
{
    let x = bytes(a);
    let y = bytes(b);
    of_bytes(x >> (y & u8x16::splat(7)))
}

pub fn vsrh(a: [u8; 16], b: [u8; 16]) -> [u8; 16]
    ensures { result ≡ (applied Size.Half Op.ShiftRight a b b).bytes }
{
    let x = halves(a);
    let y = halves(b);
    of_halves(x >> (y & u16x8::splat(15)))
}

pub fn vsrw(a: [u8; 16], b: [u8; 16]) -> [u8; 16]
    ensures { result ≡ (applied Size.Word Op.ShiftRight a b b).bytes }
{
    let x = words(a);
    let y = words(b);
    of_words(x >> (y & u32x4::splat(31)))
}

// The bits of a negative lane are inverted, shifted, and inverted again, so that ones come in from the left.
pub fn vsrab(a: [u8; 16], b: [u8; 16]) -> [u8; 16]
    ensures { result ≡ (applied Size.Byte Op.ShiftRightAlgebraic a b b).bytes }
{
    let x = bytes(a);
    let y = bytes(b);
    let minus = x.simd_ge(u8x16::splat(128));
    let moved = minus.select(!x, x) >> (y & u8x16::splat(7));
    of_bytes(minus.select(!moved, moved))
}

pub fn vsrah(a: [u8; 16], b: [u8; 16]) -> [u8; 16]
    ensures { result ≡ (applied Size.Half Op.ShiftRightAlgebraic a b b).bytes }
{
    let x = halves(a);
    let y = halves(b);
    let minus = x.simd_ge(u16x8::splat(32768));
    let moved = minus.select(!x, x) >> (y & u16x8::splat(15));
    of_halves(minus.select(!moved, moved))
}

pub fn vsraw(a: [u8; 16], b: [u8; 16]) -> [u8; 16]
    ensures { result ≡ (applied Size.Word Op.ShiftRightAlgebraic a b b).bytes }
{
    let x = words(a);
    let y = words(b);
    let minus = x.simd_ge(u32x4::splat(2147483648));
    let moved = minus.select(!x, x) >> (y & u32x4::splat(31));
    of_words(minus.select(!moved, moved))
}

// Bit by bit.
pub fn vand(a: [u8; 16], b: [u8; 16]) -> [u8; 16]
    ensures { result ≡ (applied Size.Byte Op.And a b b).bytes }
{
    let x = bytes(a);
    let y = bytes(b);
    of_bytes(x & y)
}

pub fn vandc(a: [u8; 16], b: [u8; 16]) -> [u8; 16]
    ensures { result ≡ (applied Size.Byte Op.AndNot a b b).bytes }
{
    let x = bytes(a);
    let y = bytes(b);
    of_bytes(x & !y)
}

pub fn vor(a: [u8; 16], b: [u8; 16]) -> [u8; 16]
    ensures { result ≡ (applied Size.Byte Op.Or a b b).bytes }
{
    let x = bytes(a);
    let y = bytes(b);
    of_bytes(x | y)
}

pub fn vxor(a: [u8; 16], b: [u8; 16]) -> [u8; 16]
    ensures { result ≡ (applied Size.Byte Op.Xor a b b).bytes }
{
    let x = bytes(a);
    let y = bytes(b);
    of_bytes(x ^ y)
}

pub fn vnor(a: [u8; 16], b: [u8; 16]) -> [u8; 16]
    ensures { result ≡ (applied Size.Byte Op.Nor a b b).bytes }
{
    let x = bytes(a);
    let y = bytes(b);
    of_bytes(!(x | y))
}

// Products of the odd and of the even parts.
pub fn vmuloub(a: [u8; 16], b: [u8; 16]) -> [u8; 16]
    ensures { result ≡ (applied Size.Half Op.MulOddU a b b).bytes }
{
    let x = halves(a);
    let y = halves(b);
    let low = u16x8::splat(255);
    of_halves((x & low) * (y & low))
}

pub fn vmulouh(a: [u8; 16], b: [u8; 16]) -> [u8; 16]
    ensures { result ≡ (applied Size.Word Op.MulOddU a b b).bytes }
{
    let x = words(a);
    let y = words(b);
    let low = u32x4::splat(65535);
    of_words((x & low) * (y & low))
}

pub fn vmulosb(a: [u8; 16], b: [u8; 16]) -> [u8; 16]
    ensures { result ≡ (applied Size.Half Op.MulOddS a b b).bytes }
{
    let x = halves(a);
    let y = halves(b);
    of_halves(signed_byte_of_half(x) * signed_byte_of_half(y))
}

pub fn vmulosh(a: [u8; 16], b: [u8; 16]) -> [u8; 16]
    ensures { result ≡ (applied Size.Word Op.MulOddS a b b).bytes }
{
    let x = words(a);
    let y = words(b);
    of_words(signed_half(x) * signed_half(y))
}

pub fn vmuleub(a: [u8; 16], b: [u8; 16]) -> [u8; 16]
    ensures { result ≡ (applied Size.Half Op.MulEvenU a b b).bytes }
{
    let x = halves(a);
    let y = halves(b);
    let s = u16x8::splat(8);
    of_halves((x >> s) * (y >> s))
}

pub fn vmuleuh(a: [u8; 16], b: [u8; 16]) -> [u8; 16]
    ensures { result ≡ (applied Size.Word Op.MulEvenU a b b).bytes }
{
    let x = words(a);
    let y = words(b);
    let s = u32x4::splat(16);
    of_words((x >> s) * (y >> s))
}

pub fn vmulesb(a: [u8; 16], b: [u8; 16]) -> [u8; 16]
    ensures { result ≡ (applied Size.Half Op.MulEvenS a b b).bytes }
{
    let x = halves(a);
    let y = halves(b);
    let s = u16x8::splat(8);
    of_halves(signed_byte_of_half(x >> s) * signed_byte_of_half(y >> s))
}

pub fn vmulesh(a: [u8; 16], b: [u8; 16]) -> [u8; 16]
    ensures { result ≡ (applied Size.Word Op.MulEvenS a b b).bytes }
{
    let x = words(a);
    let y = words(b);
    let s = u32x4::splat(16);
    of_words(signed_half(x >> s) * signed_half(y >> s))
}

// Sums of the parts of a word.
pub fn vsum4ubs(a: [u8; 16], b: [u8; 16]) -> Marked
    ensures { result ≡ applied Size.Word Op.SumBytesU a b b }
{
    let x = words(a);
    let y = words(b);
    let low = u32x4::splat(255);
    let parts = (x >> u32x4::splat(24))
        + ((x >> u32x4::splat(16)) & low)
        + ((x >> u32x4::splat(8)) & low)
        + (x & low);
    let sum = parts.saturating_add(y);
    with_marks(of_words(sum), sum.simd_ne(parts + y).to_bitmask())
}

pub fn vsum4sbs(a: [u8; 16], b: [u8; 16]) -> Marked
    ensures { result ≡ applied Size.Word Op.SumBytesS a b b }
{
    let x = words(a);
    let y = words(b);
    let parts = signed_byte(x >> u32x4::splat(24))
        + signed_byte(x >> u32x4::splat(16))
        + signed_byte(x >> u32x4::splat(8))
        + signed_byte(x);
    sum_of_words(parts, y)
}

pub fn vsum4shs(a: [u8; 16], b: [u8; 16]) -> Marked
    ensures { result ≡ applied Size.Word Op.SumHalvesS a b b }
{
    let x = words(a);
    let y = words(b);
    let parts = signed_half(x >> u32x4::splat(16)) + signed_half(x);
    sum_of_words(parts, y)
}

// The low five bits of i, with their sign, in every lane.
pub fn vspltisb(i: u8) -> [u8; 16]
    ensures { result ≡ (applied Size.Byte Op.SplatImmediate (copies i) (copies i) (copies i)).bytes }
{
    let x = bytes([i; 16]);
    let sign = u8x16::splat(16);
    of_bytes(((x + sign) & u8x16::splat(31)) - sign)
}

pub fn vspltish(i: u8) -> [u8; 16]
    ensures { result ≡ (applied Size.Half Op.SplatImmediate (copies i) (copies i) (copies i)).bytes }
{
    let x = halves([i; 16]);
    let sign = u16x8::splat(16);
    of_halves(((x + sign) & u16x8::splat(31)) - sign)
}

pub fn vspltisw(i: u8) -> [u8; 16]
    ensures { result ≡ (applied Size.Word Op.SplatImmediate (copies i) (copies i) (copies i)).bytes }
{
    let x = words([i; 16]);
    let sign = u32x4::splat(16);
    of_words(((x + sign) & u32x4::splat(31)) - sign)
}

// Compare: all ones or all zeros.
pub fn vcmpequb(a: [u8; 16], b: [u8; 16]) -> [u8; 16]
    ensures { result ≡ (applied Size.Byte Op.Equal a b b).bytes }
{
    let x = bytes(a);
    let y = bytes(b);
    of_bytes(x.simd_eq(y).select(u8x16::splat(255), u8x16::splat(0)))
}

pub fn vcmpequh(a: [u8; 16], b: [u8; 16]) -> [u8; 16]
    ensures { result ≡ (applied Size.Half Op.Equal a b b).bytes }
{
    let x = halves(a);
    let y = halves(b);
    of_halves(x.simd_eq(y).select(u16x8::splat(65535), u16x8::splat(0)))
}

pub fn vcmpequw(a: [u8; 16], b: [u8; 16]) -> [u8; 16]
    ensures { result ≡ (applied Size.Word Op.Equal a b b).bytes }
{
    let x = words(a);
    let y = words(b);
    of_words(
        x.simd_eq(y)
            .select(u32x4::splat(4294967295), u32x4::splat(0)),
    )
}

pub fn vcmpgtub(a: [u8; 16], b: [u8; 16]) -> [u8; 16]
    ensures { result ≡ (applied Size.Byte Op.GreaterU a b b).bytes }
{
    let x = bytes(a);
    let y = bytes(b);
    of_bytes(y.simd_lt(x).select(u8x16::splat(255), u8x16::splat(0)))
}

pub fn vcmpgtuh(a: [u8; 16], b: [u8; 16]) -> [u8; 16]
    ensures { result ≡ (applied Size.Half Op.GreaterU a b b).bytes }
{
    let x = halves(a);
    let y = halves(b);
    of_halves(y.simd_lt(x).select(u16x8::splat(65535), u16x8::splat(0)))
}

pub fn vcmpgtuw(a: [u8; 16], b: [u8; 16]) -> [u8; 16]
    ensures { result ≡ (applied Size.Word Op.GreaterU a b b).bytes }
{
    let x = words(a);
    let y = words(b);
    of_words(
        y.simd_lt(x)
            .select(u32x4::splat(4294967295), u32x4::splat(0)),
    )
}

pub fn vcmpgtsb(a: [u8; 16], b: [u8; 16]) -> [u8; 16]
    ensures { result ≡ (applied Size.Byte Op.GreaterS a b b).bytes }
{
    let x = bytes(a);
    let y = bytes(b);
    let top = u8x16::splat(128);
    let less = (y + top).simd_lt(x + top);
    of_bytes(less.select(u8x16::splat(255), u8x16::splat(0)))
}

pub fn vcmpgtsh(a: [u8; 16], b: [u8; 16]) -> [u8; 16]
    ensures { result ≡ (applied Size.Half Op.GreaterS a b b).bytes }
{
    let x = halves(a);
    let y = halves(b);
    let top = u16x8::splat(32768);
    let less = (y + top).simd_lt(x + top);
    of_halves(less.select(u16x8::splat(65535), u16x8::splat(0)))
}

pub fn vcmpgtsw(a: [u8; 16], b: [u8; 16]) -> [u8; 16]
    ensures { result ≡ (applied Size.Word Op.GreaterS a b b).bytes }
{
    let x = words(a);
    let y = words(b);
    let top = u32x4::splat(2147483648);
    let less = (y + top).simd_lt(x + top);
    of_words(less.select(u32x4::splat(4294967295), u32x4::splat(0)))
}

// Three operands: the high halves of products and a sum.
pub fn vmhaddshs(a: [u8; 16], b: [u8; 16], c: [u8; 16]) -> Marked
    ensures { result ≡ applied Size.Half Op.MulHighAdd a b c }
{
    let x = signed_halves(a);
    let y = signed_halves(b);
    let z = signed_halves(c);
    let high = (x * y) >> i32x8::splat(15);
    saturated_halves(high + z)
}

pub fn vmhraddshs(a: [u8; 16], b: [u8; 16], c: [u8; 16]) -> Marked
    ensures { result ≡ applied Size.Half Op.MulHighRoundAdd a b c }
{
    let x = signed_halves(a);
    let y = signed_halves(b);
    let z = signed_halves(c);
    let high = (x * y + i32x8::splat(16384)) >> i32x8::splat(15);
    saturated_halves(high + z)
}

// The multiply lanes that are reduced to the lane.
pub fn vmladduhm(a: [u8; 16], b: [u8; 16], c: [u8; 16]) -> [u8; 16]
    ensures { result ≡ (applied Size.Half Op.MulLowAdd a b c).bytes }
{
    let x = halves(a);
    let y = halves(b);
    let z = halves(c);
    of_halves((x * y).reduced(z))
}

pub fn vmsumubm(a: [u8; 16], b: [u8; 16], c: [u8; 16]) -> [u8; 16]
    ensures { result ≡ (applied Size.Word Op.MulSumBytesU a b c).bytes }
{
    let x = words(a);
    let y = words(b);
    let z = words(c);
    let low = u32x4::splat(255);
    let p0 = (x >> u32x4::splat(24)) * (y >> u32x4::splat(24));
    let p1 = ((x >> u32x4::splat(16)) & low) * ((y >> u32x4::splat(16)) & low);
    let p2 = ((x >> u32x4::splat(8)) & low) * ((y >> u32x4::splat(8)) & low);
    let p3 = (x & low) * (y & low);
    of_words((p0 + p1 + p2 + p3).reduced(z))
}

pub fn vmsummbm(a: [u8; 16], b: [u8; 16], c: [u8; 16]) -> [u8; 16]
    ensures { result ≡ (applied Size.Word Op.MulSumBytesMixed a b c).bytes }
{
    let x = words(a);
    let y = words(b);
    let z = words(c);
    let low = u32x4::splat(255);
    let p0 = signed_byte(x >> u32x4::splat(24)) * (y >> u32x4::splat(24));
    let p1 = signed_byte(x >> u32x4::splat(16)) * ((y >> u32x4::splat(16)) & low);
    let p2 = signed_byte(x >> u32x4::splat(8)) * ((y >> u32x4::splat(8)) & low);
    let p3 = signed_byte(x) * (y & low);
    of_words((p0 + p1 + p2 + p3).reduced(z))
}

pub fn vmsumuhm(a: [u8; 16], b: [u8; 16], c: [u8; 16]) -> [u8; 16]
    ensures { result ≡ (applied Size.Word Op.MulSumHalvesU a b c).bytes }
{
    let x = words(a);
    let y = words(b);
    let z = words(c);
    let low = u32x4::splat(65535);
    let p0 = (x >> u32x4::splat(16)) * (y >> u32x4::splat(16));
    let p1 = (x & low) * (y & low);
    of_words((p0 + p1).reduced(z))
}

pub fn vmsumuhs(a: [u8; 16], b: [u8; 16], c: [u8; 16]) -> Marked
    ensures { result ≡ applied Size.Word Op.MulSumHalvesSatU a b c }
{
    let x = words(a);
    let y = words(b);
    let z = words(c);
    let low = u32x4::splat(65535);
    let p0 = (x >> u32x4::splat(16)) * (y >> u32x4::splat(16));
    let p1 = (x & low) * (y & low);
    let both = p0 + p1;
    let sum = both + z;
    let out = both.simd_lt(p0) | sum.simd_lt(z);
    with_marks(
        of_words(out.select(u32x4::splat(4294967295), sum)),
        out.to_bitmask(),
    )
}

pub fn vmsumshm(a: [u8; 16], b: [u8; 16], c: [u8; 16]) -> [u8; 16]
    ensures { result ≡ (applied Size.Word Op.MulSumHalvesS a b c).bytes }
{
    let x = words(a);
    let y = words(b);
    let z = words(c);
    let p0 = signed_half(x >> u32x4::splat(16)) * signed_half(y >> u32x4::splat(16));
    let p1 = signed_half(x) * signed_half(y);
    of_words((p0 + p1).reduced(z))
}

// The sum q of two products fits a word but where both are 2 ^ 30, and then its bits are those of the least number, which no other sum has.
pub fn vmsumshs(a: [u8; 16], b: [u8; 16], c: [u8; 16]) -> Marked
    ensures { result ≡ applied Size.Word Op.MulSumHalvesSatS a b c }
{
    let z = words(c);
    let p = signed_halves(a) * signed_halves(b);
    let even: i32x4 = p.swizzle([0, 2, 4, 6]);
    let odd: i32x4 = p.swizzle([1, 3, 5, 7]);
    let q = as_bits(even + odd);
    let top = u32x4::splat(2147483648);
    let minus = q.simd_gt(top);
    let sum = z + q;
    let out = (sum + top).simd_lt(z + top) ^ minus;
    let end = minus.select(top, u32x4::splat(2147483647));
    with_marks(of_words(out.select(end, sum)), out.to_bitmask())
}

pub fn vsel(a: [u8; 16], b: [u8; 16], c: [u8; 16]) -> [u8; 16]
    ensures { result ≡ (applied Size.Byte Op.Select a b c).bytes }
{
    let x = bytes(a);
    let y = bytes(b);
    let z = bytes(c);
    of_bytes((x & !z) | (y & z))
}
