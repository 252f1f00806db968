// The choice of a vector instruction by its operation, width and sign; it is carried out on the registers.
#![tactic(auto)]

ghost use Rattle.std.specs.Prelude.{◌≡◌, ◌<◌, ◌%◌};
ghost use Rattle.moves.specs.Chosen.{splat};
ghost use Rattle.slides.specs.Slid.{slid};
ghost use Rattle.registers.specs.Registers.{at, Leaves};
ghost use Rattle.compute.specs.Computed.{computed, computed_in};

use encodings::ops::{Op, Sign};
use lanes::Size;
use registers::{Outcome, copy, on_one, on_three, on_two};

// The instruction that op is. Where none has the width and the sign, the first operand as it is: no word carries such an operation.
// A closure holds the field that it takes (`move`): one that refers to it has it stored at the head, for every word.
#[tactic(auto, using(crate::proofs::Carried::carried), unfolding(crate::specs::Computed::computed))]
fn chosen(v: &mut [u8; 512], d: usize, a: usize, b: usize, c: usize, n: u8, op: Op) -> u32
    requires { (d < 32) × (a < 32) × (b < 32) × (c < 32) }
    ensures { Leaves (computed op (at v.old a) (at v.old b) (at v.old c) a n) d v.old v.new result }
{
    match op {
        Op::AddMod(w) => match w {
            Size::Byte => on_two(v, d, a, b, vector::vaddubm),
            Size::Half => on_two(v, d, a, b, vector::vadduhm),
            Size::Word => on_two(v, d, a, b, vector::vadduwm),
        },
        Op::AddCarry => on_two(v, d, a, b, vector::vaddcuw),
        Op::AddSat(w, s) => match w {
            Size::Byte => match s {
                Sign::Unsigned => on_two(v, d, a, b, vector::vaddubs),
                Sign::Signed => on_two(v, d, a, b, vector::vaddsbs),
            },
            Size::Half => match s {
                Sign::Unsigned => on_two(v, d, a, b, vector::vadduhs),
                Sign::Signed => on_two(v, d, a, b, vector::vaddshs),
            },
            Size::Word => match s {
                Sign::Unsigned => on_two(v, d, a, b, vector::vadduws),
                Sign::Signed => on_two(v, d, a, b, vector::vaddsws),
            },
        },
        Op::SubMod(w) => match w {
            Size::Byte => on_two(v, d, a, b, vector::vsububm),
            Size::Half => on_two(v, d, a, b, vector::vsubuhm),
            Size::Word => on_two(v, d, a, b, vector::vsubuwm),
        },
        Op::SubCarry => on_two(v, d, a, b, vector::vsubcuw),
        Op::SubSat(w, s) => match w {
            Size::Byte => match s {
                Sign::Unsigned => on_two(v, d, a, b, vector::vsububs),
                Sign::Signed => on_two(v, d, a, b, vector::vsubsbs),
            },
            Size::Half => match s {
                Sign::Unsigned => on_two(v, d, a, b, vector::vsubuhs),
                Sign::Signed => on_two(v, d, a, b, vector::vsubshs),
            },
            Size::Word => match s {
                Sign::Unsigned => on_two(v, d, a, b, vector::vsubuws),
                Sign::Signed => on_two(v, d, a, b, vector::vsubsws),
            },
        },
        Op::Max(w, s) => match w {
            Size::Byte => match s {
                Sign::Unsigned => on_two(v, d, a, b, vector::vmaxub),
                Sign::Signed => on_two(v, d, a, b, vector::vmaxsb),
            },
            Size::Half => match s {
                Sign::Unsigned => on_two(v, d, a, b, vector::vmaxuh),
                Sign::Signed => on_two(v, d, a, b, vector::vmaxsh),
            },
            Size::Word => match s {
                Sign::Unsigned => on_two(v, d, a, b, vector::vmaxuw),
                Sign::Signed => on_two(v, d, a, b, vector::vmaxsw),
            },
        },
        Op::Min(w, s) => match w {
            Size::Byte => match s {
                Sign::Unsigned => on_two(v, d, a, b, vector::vminub),
                Sign::Signed => on_two(v, d, a, b, vector::vminsb),
            },
            Size::Half => match s {
                Sign::Unsigned => on_two(v, d, a, b, vector::vminuh),
                Sign::Signed => on_two(v, d, a, b, vector::vminsh),
            },
            Size::Word => match s {
                Sign::Unsigned => on_two(v, d, a, b, vector::vminuw),
                Sign::Signed => on_two(v, d, a, b, vector::vminsw),
            },
        },
        Op::Average(w, s) => match w {
            Size::Byte => match s {
                Sign::Unsigned => on_two(v, d, a, b, vector::vavgub),
                Sign::Signed => on_two(v, d, a, b, vector::vavgsb),
            },
            Size::Half => match s {
                Sign::Unsigned => on_two(v, d, a, b, vector::vavguh),
                Sign::Signed => on_two(v, d, a, b, vector::vavgsh),
            },
            Size::Word => match s {
                Sign::Unsigned => on_two(v, d, a, b, vector::vavguw),
                Sign::Signed => on_two(v, d, a, b, vector::vavgsw),
            },
        },
        Op::Rotate(w) => match w {
            Size::Byte => on_two(v, d, a, b, vector::vrlb),
            Size::Half => on_two(v, d, a, b, vector::vrlh),
            Size::Word => on_two(v, d, a, b, vector::vrlw),
        },
        Op::ShiftLeft(w) => match w {
            Size::Byte => on_two(v, d, a, b, vector::vslb),
            Size::Half => on_two(v, d, a, b, vector::vslh),
            Size::Word => on_two(v, d, a, b, vector::vslw),
        },
        Op::ShiftRight(w) => match w {
            Size::Byte => on_two(v, d, a, b, vector::vsrb),
            Size::Half => on_two(v, d, a, b, vector::vsrh),
            Size::Word => on_two(v, d, a, b, vector::vsrw),
        },
        Op::ShiftAlgebraic(w) => match w {
            Size::Byte => on_two(v, d, a, b, vector::vsrab),
            Size::Half => on_two(v, d, a, b, vector::vsrah),
            Size::Word => on_two(v, d, a, b, vector::vsraw),
        },
        Op::ShiftWholeLeft => on_two(v, d, a, b, moves::vsl),
        Op::ShiftWholeRight => on_two(v, d, a, b, moves::vsr),
        Op::ShiftBytesLeft => on_two(v, d, a, b, slides::vslo),
        Op::ShiftBytesRight => on_two(v, d, a, b, slides::vsro),
        Op::And => on_two(v, d, a, b, vector::vand),
        Op::AndNot => on_two(v, d, a, b, vector::vandc),
        Op::Or => on_two(v, d, a, b, vector::vor),
        Op::Xor => on_two(v, d, a, b, vector::vxor),
        Op::Nor => on_two(v, d, a, b, vector::vnor),
        Op::FromStatus => copy(v, d, a),
        Op::ToStatus => copy(v, d, a),
        Op::MulOdd(w, s) => match w {
            Size::Byte => match s {
                Sign::Unsigned => on_two(v, d, a, b, vector::vmuloub),
                Sign::Signed => on_two(v, d, a, b, vector::vmulosb),
            },
            Size::Half => match s {
                Sign::Unsigned => on_two(v, d, a, b, vector::vmulouh),
                Sign::Signed => on_two(v, d, a, b, vector::vmulosh),
            },
            Size::Word => copy(v, d, a),
        },
        Op::MulEven(w, s) => match w {
            Size::Byte => match s {
                Sign::Unsigned => on_two(v, d, a, b, vector::vmuleub),
                Sign::Signed => on_two(v, d, a, b, vector::vmulesb),
            },
            Size::Half => match s {
                Sign::Unsigned => on_two(v, d, a, b, vector::vmuleuh),
                Sign::Signed => on_two(v, d, a, b, vector::vmulesh),
            },
            Size::Word => copy(v, d, a),
        },
        Op::SumQuarter(w, s) => match w {
            Size::Byte => match s {
                Sign::Unsigned => on_two(v, d, a, b, vector::vsum4ubs),
                Sign::Signed => on_two(v, d, a, b, vector::vsum4sbs),
            },
            Size::Half => match s {
                Sign::Unsigned => copy(v, d, a),
                Sign::Signed => on_two(v, d, a, b, vector::vsum4shs),
            },
            Size::Word => copy(v, d, a),
        },
        Op::SumHalf => on_two(v, d, a, b, packing::vsum2sws),
        Op::SumAll => on_two(v, d, a, b, packing::vsumsws),
        Op::MergeHigh(w) => match w {
            Size::Byte => on_two(v, d, a, b, moves::vmrghb),
            Size::Half => on_two(v, d, a, b, moves::vmrghh),
            Size::Word => on_two(v, d, a, b, moves::vmrghw),
        },
        Op::MergeLow(w) => match w {
            Size::Byte => on_two(v, d, a, b, moves::vmrglb),
            Size::Half => on_two(v, d, a, b, moves::vmrglh),
            Size::Word => on_two(v, d, a, b, moves::vmrglw),
        },
        Op::Splat(w) => {
            let i = a as u8;
            match w {
                Size::Byte => on_one(
                    v,
                    d,
                    b,
                    move |y: [u8; 16]| -> [u8; 16]
                        ensures { result ≡ splat Size.Byte y i }
                    { moves::vspltb(y, i) },
                ),
                Size::Half => on_one(
                    v,
                    d,
                    b,
                    move |y: [u8; 16]| -> [u8; 16]
                        ensures { result ≡ splat Size.Half y i }
                    { moves::vsplth(y, i) },
                ),
                Size::Word => on_one(
                    v,
                    d,
                    b,
                    move |y: [u8; 16]| -> [u8; 16]
                        ensures { result ≡ splat Size.Word y i }
                    { moves::vspltw(y, i) },
                ),
            }
        }
        Op::SplatImmediate(w) => match w {
            Size::Byte => vector::vspltisb(a as u8).put(v, d),
            Size::Half => vector::vspltish(a as u8).put(v, d),
            Size::Word => vector::vspltisw(a as u8).put(v, d),
        },
        Op::PackMod(w) => match w {
            Size::Byte => copy(v, d, a),
            Size::Half => on_two(v, d, a, b, packing::vpkuhum),
            Size::Word => on_two(v, d, a, b, packing::vpkuwum),
        },
        Op::PackSat(w, s, t) => match w {
            Size::Byte => copy(v, d, a),
            Size::Half => match s {
                Sign::Unsigned => match t {
                    Sign::Unsigned => on_two(v, d, a, b, packing::vpkuhus),
                    Sign::Signed => copy(v, d, a),
                },
                Sign::Signed => match t {
                    Sign::Unsigned => on_two(v, d, a, b, packing::vpkshus),
                    Sign::Signed => on_two(v, d, a, b, packing::vpkshss),
                },
            },
            Size::Word => match s {
                Sign::Unsigned => match t {
                    Sign::Unsigned => on_two(v, d, a, b, packing::vpkuwus),
                    Sign::Signed => copy(v, d, a),
                },
                Sign::Signed => match t {
                    Sign::Unsigned => on_two(v, d, a, b, packing::vpkswus),
                    Sign::Signed => on_two(v, d, a, b, packing::vpkswss),
                },
            },
        },
        Op::UnpackHigh(w) => match w {
            Size::Byte => on_one(v, d, b, packing::vupkhsb),
            Size::Half => on_one(v, d, b, packing::vupkhsh),
            Size::Word => copy(v, d, b),
        },
        Op::UnpackLow(w) => match w {
            Size::Byte => on_one(v, d, b, packing::vupklsb),
            Size::Half => on_one(v, d, b, packing::vupklsh),
            Size::Word => copy(v, d, b),
        },
        Op::CompareEqual(w) => match w {
            Size::Byte => on_two(v, d, a, b, vector::vcmpequb),
            Size::Half => on_two(v, d, a, b, vector::vcmpequh),
            Size::Word => on_two(v, d, a, b, vector::vcmpequw),
        },
        Op::CompareGreater(w, s) => match w {
            Size::Byte => match s {
                Sign::Unsigned => on_two(v, d, a, b, vector::vcmpgtub),
                Sign::Signed => on_two(v, d, a, b, vector::vcmpgtsb),
            },
            Size::Half => match s {
                Sign::Unsigned => on_two(v, d, a, b, vector::vcmpgtuh),
                Sign::Signed => on_two(v, d, a, b, vector::vcmpgtsh),
            },
            Size::Word => match s {
                Sign::Unsigned => on_two(v, d, a, b, vector::vcmpgtuw),
                Sign::Signed => on_two(v, d, a, b, vector::vcmpgtsw),
            },
        },
        Op::MulHighAdd => on_three(v, d, a, b, c, vector::vmhaddshs),
        Op::MulHighRoundAdd => on_three(v, d, a, b, c, vector::vmhraddshs),
        Op::MulLowAdd => on_three(v, d, a, b, c, vector::vmladduhm),
        Op::MulSum(w, s) => match w {
            Size::Byte => match s {
                Sign::Unsigned => on_three(v, d, a, b, c, vector::vmsumubm),
                Sign::Signed => copy(v, d, a),
            },
            Size::Half => match s {
                Sign::Unsigned => on_three(v, d, a, b, c, vector::vmsumuhm),
                Sign::Signed => on_three(v, d, a, b, c, vector::vmsumshm),
            },
            Size::Word => copy(v, d, a),
        },
        Op::MulSumMixed => on_three(v, d, a, b, c, vector::vmsummbm),
        Op::MulSumSat(s) => match s {
            Sign::Unsigned => on_three(v, d, a, b, c, vector::vmsumuhs),
            Sign::Signed => on_three(v, d, a, b, c, vector::vmsumshs),
        },
        Op::Select => on_three(v, d, a, b, c, vector::vsel),
        Op::Permute => on_three(v, d, a, b, c, moves::vperm),
        Op::ShiftPair => on_two(
            v,
            d,
            a,
            b,
            move |x: [u8; 16], y: [u8; 16]| -> [u8; 16]
                ensures { result ≡ slid x y (n % 16) }
            { slides::vsldoi(x, y, n) },
        ),
        Op::LoadShiftLeft => copy(v, d, a),
        Op::LoadShiftRight => copy(v, d, a),
        Op::LoadElement(_) => copy(v, d, a),
        Op::LoadLine => copy(v, d, a),
        Op::StoreElement(_) => copy(v, d, a),
        Op::StoreLine => copy(v, d, a),
        Op::AddImmediate => copy(v, d, a),
    }
}

// What op computes of the registers a, b and c, of its A field a and of its byte count n goes into register d; the marks.
// Where there is no instruction, the first operand as it is.
// The operation stands last, so that an instruction finds its registers where they are; the numbers stand apart, since the contract speaks of
// each, and a struct of them would be made for this call alone.
pub fn compute(
    v: &mut [u8; 512],
    d: usize,
    a: usize,
    b: usize,
    c: usize,
    n: u8,
    op: Option<Op>,
) -> u32
    requires { (d < 32) × (a < 32) × (b < 32) × (c < 32) }
    ensures { Leaves (computed_in op (at v.old a) (at v.old b) (at v.old c) a n) d v.old v.new result }
{
    match op {
        Some(op) => chosen(v, d, a, b, c, n, op),
        None => copy(v, d, a),
    }
}
