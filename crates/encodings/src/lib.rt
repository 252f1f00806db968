// Which instruction a word carries: document 01, "Encodings".
#![tactic(auto)]

pub mod ops;

ghost use Rattle.std.specs.Prelude.{◌≡◌, ◌*◌, ◌%◌, ◌<◌};
ghost use Rattle.encodings.specs.Encodings.{op_of, op_at};

use lanes::Size;
use ops::{Op, Sign};

// Low six bits 0: add and subtract.
fn sums(code: u32) -> Option<Op>
    requires { (code < 2048) × (code % 64 ≡ 0) }
    ensures { result ≡ op_at 4 code }
{
    match code {
        0 => Some(Op::AddMod(Size::Byte)), // vaddubm
        64 => Some(Op::AddMod(Size::Half)), // vadduhm
        128 => Some(Op::AddMod(Size::Word)), // vadduwm
        384 => Some(Op::AddCarry), // vaddcuw
        512 => Some(Op::AddSat(Size::Byte, Sign::Unsigned)), // vaddubs
        576 => Some(Op::AddSat(Size::Half, Sign::Unsigned)), // vadduhs
        640 => Some(Op::AddSat(Size::Word, Sign::Unsigned)), // vadduws
        768 => Some(Op::AddSat(Size::Byte, Sign::Signed)), // vaddsbs
        832 => Some(Op::AddSat(Size::Half, Sign::Signed)), // vaddshs
        896 => Some(Op::AddSat(Size::Word, Sign::Signed)), // vaddsws
        1024 => Some(Op::SubMod(Size::Byte)), // vsububm
        1088 => Some(Op::SubMod(Size::Half)), // vsubuhm
        1152 => Some(Op::SubMod(Size::Word)), // vsubuwm
        1408 => Some(Op::SubCarry), // vsubcuw
        1536 => Some(Op::SubSat(Size::Byte, Sign::Unsigned)), // vsububs
        1600 => Some(Op::SubSat(Size::Half, Sign::Unsigned)), // vsubuhs
        1664 => Some(Op::SubSat(Size::Word, Sign::Unsigned)), // vsubuws
        1792 => Some(Op::SubSat(Size::Byte, Sign::Signed)), // vsubsbs
        1856 => Some(Op::SubSat(Size::Half, Sign::Signed)), // vsubshs
        1920 => Some(Op::SubSat(Size::Word, Sign::Signed)), // vsubsws
        _ => None,
    }
}

// Low six bits 2: max, min and average.
fn extremes(code: u32) -> Option<Op>
    requires { (code < 2048) × (code % 64 ≡ 2) }
    ensures { result ≡ op_at 4 code }
{
    match code {
        2 => Some(Op::Max(Size::Byte, Sign::Unsigned)), // vmaxub
        66 => Some(Op::Max(Size::Half, Sign::Unsigned)), // vmaxuh
        130 => Some(Op::Max(Size::Word, Sign::Unsigned)), // vmaxuw
        258 => Some(Op::Max(Size::Byte, Sign::Signed)), // vmaxsb
        322 => Some(Op::Max(Size::Half, Sign::Signed)), // vmaxsh
        386 => Some(Op::Max(Size::Word, Sign::Signed)), // vmaxsw
        514 => Some(Op::Min(Size::Byte, Sign::Unsigned)), // vminub
        578 => Some(Op::Min(Size::Half, Sign::Unsigned)), // vminuh
        642 => Some(Op::Min(Size::Word, Sign::Unsigned)), // vminuw
        770 => Some(Op::Min(Size::Byte, Sign::Signed)), // vminsb
        834 => Some(Op::Min(Size::Half, Sign::Signed)), // vminsh
        898 => Some(Op::Min(Size::Word, Sign::Signed)), // vminsw
        1026 => Some(Op::Average(Size::Byte, Sign::Unsigned)), // vavgub
        1090 => Some(Op::Average(Size::Half, Sign::Unsigned)), // vavguh
        1154 => Some(Op::Average(Size::Word, Sign::Unsigned)), // vavguw
        1282 => Some(Op::Average(Size::Byte, Sign::Signed)), // vavgsb
        1346 => Some(Op::Average(Size::Half, Sign::Signed)), // vavgsh
        1410 => Some(Op::Average(Size::Word, Sign::Signed)), // vavgsw
        _ => None,
    }
}

// Low six bits 4: rotates, shifts, logic and the status word.
fn shifts(code: u32) -> Option<Op>
    requires { (code < 2048) × (code % 64 ≡ 4) }
    ensures { result ≡ op_at 4 code }
{
    match code {
        4 => Some(Op::Rotate(Size::Byte)), // vrlb
        68 => Some(Op::Rotate(Size::Half)), // vrlh
        132 => Some(Op::Rotate(Size::Word)), // vrlw
        260 => Some(Op::ShiftLeft(Size::Byte)), // vslb
        324 => Some(Op::ShiftLeft(Size::Half)), // vslh
        388 => Some(Op::ShiftLeft(Size::Word)), // vslw
        516 => Some(Op::ShiftRight(Size::Byte)), // vsrb
        580 => Some(Op::ShiftRight(Size::Half)), // vsrh
        644 => Some(Op::ShiftRight(Size::Word)), // vsrw
        772 => Some(Op::ShiftAlgebraic(Size::Byte)), // vsrab
        836 => Some(Op::ShiftAlgebraic(Size::Half)), // vsrah
        900 => Some(Op::ShiftAlgebraic(Size::Word)), // vsraw
        452 => Some(Op::ShiftWholeLeft), // vsl
        708 => Some(Op::ShiftWholeRight), // vsr
        1028 => Some(Op::And), // vand
        1092 => Some(Op::AndNot), // vandc
        1156 => Some(Op::Or), // vor
        1220 => Some(Op::Xor), // vxor
        1284 => Some(Op::Nor), // vnor
        1540 => Some(Op::FromStatus), // mfvscr
        1604 => Some(Op::ToStatus), // mtvscr
        _ => None,
    }
}

// Low six bits 6, without Rc: compares.
fn compares(code: u32) -> Option<Op>
    requires { (code < 1024) × (code % 64 ≡ 6) }
    ensures { result ≡ op_at 4 code }
{
    match code {
        6 => Some(Op::CompareEqual(Size::Byte)), // vcmpequb
        70 => Some(Op::CompareEqual(Size::Half)), // vcmpequh
        134 => Some(Op::CompareEqual(Size::Word)), // vcmpequw
        518 => Some(Op::CompareGreater(Size::Byte, Sign::Unsigned)), // vcmpgtub
        582 => Some(Op::CompareGreater(Size::Half, Sign::Unsigned)), // vcmpgtuh
        646 => Some(Op::CompareGreater(Size::Word, Sign::Unsigned)), // vcmpgtuw
        774 => Some(Op::CompareGreater(Size::Byte, Sign::Signed)), // vcmpgtsb
        838 => Some(Op::CompareGreater(Size::Half, Sign::Signed)), // vcmpgtsh
        902 => Some(Op::CompareGreater(Size::Word, Sign::Signed)), // vcmpgtsw
        _ => None,
    }
}

// Low six bits 8: multiply, and sums across.
fn products(code: u32) -> Option<Op>
    requires { (code < 2048) × (code % 64 ≡ 8) }
    ensures { result ≡ op_at 4 code }
{
    match code {
        8 => Some(Op::MulOdd(Size::Byte, Sign::Unsigned)), // vmuloub
        72 => Some(Op::MulOdd(Size::Half, Sign::Unsigned)), // vmulouh
        264 => Some(Op::MulOdd(Size::Byte, Sign::Signed)), // vmulosb
        328 => Some(Op::MulOdd(Size::Half, Sign::Signed)), // vmulosh
        520 => Some(Op::MulEven(Size::Byte, Sign::Unsigned)), // vmuleub
        584 => Some(Op::MulEven(Size::Half, Sign::Unsigned)), // vmuleuh
        776 => Some(Op::MulEven(Size::Byte, Sign::Signed)), // vmulesb
        840 => Some(Op::MulEven(Size::Half, Sign::Signed)), // vmulesh
        1544 => Some(Op::SumQuarter(Size::Byte, Sign::Unsigned)), // vsum4ubs
        1800 => Some(Op::SumQuarter(Size::Byte, Sign::Signed)), // vsum4sbs
        1608 => Some(Op::SumQuarter(Size::Half, Sign::Signed)), // vsum4shs
        1672 => Some(Op::SumHalf), // vsum2sws
        1928 => Some(Op::SumAll), // vsumsws
        _ => None,
    }
}

// Low six bits 12: merges, splats and shifts by bytes.
fn merges(code: u32) -> Option<Op>
    requires { (code < 2048) × (code % 64 ≡ 12) }
    ensures { result ≡ op_at 4 code }
{
    match code {
        1036 => Some(Op::ShiftBytesLeft), // vslo
        1100 => Some(Op::ShiftBytesRight), // vsro
        12 => Some(Op::MergeHigh(Size::Byte)), // vmrghb
        76 => Some(Op::MergeHigh(Size::Half)), // vmrghh
        140 => Some(Op::MergeHigh(Size::Word)), // vmrghw
        268 => Some(Op::MergeLow(Size::Byte)), // vmrglb
        332 => Some(Op::MergeLow(Size::Half)), // vmrglh
        396 => Some(Op::MergeLow(Size::Word)), // vmrglw
        524 => Some(Op::Splat(Size::Byte)), // vspltb
        588 => Some(Op::Splat(Size::Half)), // vsplth
        652 => Some(Op::Splat(Size::Word)), // vspltw
        780 => Some(Op::SplatImmediate(Size::Byte)), // vspltisb
        844 => Some(Op::SplatImmediate(Size::Half)), // vspltish
        908 => Some(Op::SplatImmediate(Size::Word)), // vspltisw
        _ => None,
    }
}

// Low six bits 14: packs and unpacks.
fn packs(code: u32) -> Option<Op>
    requires { (code < 2048) × (code % 64 ≡ 14) }
    ensures { result ≡ op_at 4 code }
{
    match code {
        14 => Some(Op::PackMod(Size::Half)), // vpkuhum
        78 => Some(Op::PackMod(Size::Word)), // vpkuwum
        142 => Some(Op::PackSat(Size::Half, Sign::Unsigned, Sign::Unsigned)), // vpkuhus
        206 => Some(Op::PackSat(Size::Word, Sign::Unsigned, Sign::Unsigned)), // vpkuwus
        270 => Some(Op::PackSat(Size::Half, Sign::Signed, Sign::Unsigned)), // vpkshus
        334 => Some(Op::PackSat(Size::Word, Sign::Signed, Sign::Unsigned)), // vpkswus
        398 => Some(Op::PackSat(Size::Half, Sign::Signed, Sign::Signed)), // vpkshss
        462 => Some(Op::PackSat(Size::Word, Sign::Signed, Sign::Signed)), // vpkswss
        526 => Some(Op::UnpackHigh(Size::Byte)), // vupkhsb
        590 => Some(Op::UnpackHigh(Size::Half)), // vupkhsh
        654 => Some(Op::UnpackLow(Size::Byte)), // vupklsb
        718 => Some(Op::UnpackLow(Size::Half)), // vupklsh
        _ => None,
    }
}

// Primary 4 by the low eleven bits. The low six tell the forms with four operands, whatever stands before them, and of a compare bit 21 is Rc;
// else all eleven tell.
fn four(code: u32) -> Option<Op>
    requires { code < 2048 }
    ensures { result ≡ op_at 4 code }
{
    let low = code % 64;
    match low {
        0 => sums(code),
        2 => extremes(code),
        4 => shifts(code),
        6 => compares(code % 1024),
        8 => products(code),
        12 => merges(code),
        14 => packs(code),
        32 => Some(Op::MulHighAdd), // vmhaddshs
        33 => Some(Op::MulHighRoundAdd), // vmhraddshs
        34 => Some(Op::MulLowAdd), // vmladduhm
        36 => Some(Op::MulSum(Size::Byte, Sign::Unsigned)), // vmsumubm
        37 => Some(Op::MulSumMixed), // vmsummbm
        38 => Some(Op::MulSum(Size::Half, Sign::Unsigned)), // vmsumuhm
        39 => Some(Op::MulSumSat(Sign::Unsigned)), // vmsumuhs
        40 => Some(Op::MulSum(Size::Half, Sign::Signed)), // vmsumshm
        41 => Some(Op::MulSumSat(Sign::Signed)), // vmsumshs
        42 => Some(Op::Select), // vsel
        43 => Some(Op::Permute), // vperm
        44 => Some(Op::ShiftPair), // vsldoi
        _ => None,
    }
}

// Primary 31 by bits 21 to 30.
fn indexed(code: u32) -> Option<Op>
    requires { code < 1024 }
    ensures { result ≡ op_at 31 (2 * code) }
{
    match code {
        6 => Some(Op::LoadShiftLeft), // lvsl
        38 => Some(Op::LoadShiftRight), // lvsr
        7 => Some(Op::LoadElement(Size::Byte)), // lvebx
        39 => Some(Op::LoadElement(Size::Half)), // lvehx
        71 => Some(Op::LoadElement(Size::Word)), // lvewx
        103 => Some(Op::LoadLine), // lvx
        359 => Some(Op::LoadLine), // lvxl
        135 => Some(Op::StoreElement(Size::Byte)), // stvebx
        167 => Some(Op::StoreElement(Size::Half)), // stvehx
        199 => Some(Op::StoreElement(Size::Word)), // stvewx
        231 => Some(Op::StoreLine), // stvx
        487 => Some(Op::StoreLine), // stvxl
        _ => None,
    }
}

// The operation of a word; none where it carries no instruction.
pub fn operation(word: u32) -> Option<Op>
    ensures { result ≡ op_of word }
{
    let primary = word / 67108864 % 64;
    match primary {
        4 => four(word % 2048),
        31 => indexed(word / 2 % 1024),
        14 => Some(Op::AddImmediate), // addi
        _ => None,
    }
}
