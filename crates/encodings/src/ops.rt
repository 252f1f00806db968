// The instructions of document 01 by families; where a family has several widths or signs, its variant holds them.
use lanes::Size;

// How a lane is read.
#[derive(Clone, Copy)]
pub enum Sign {
    Unsigned,
    Signed,
}

#[derive(Clone, Copy)]
pub enum Op {
    // vaddubm, vadduhm, vadduwm
    AddMod(Size),
    // vaddcuw
    AddCarry,
    // vaddubs, vadduhs, vadduws, vaddsbs, vaddshs, vaddsws
    AddSat(Size, Sign),
    // vsububm, vsubuhm, vsubuwm
    SubMod(Size),
    // vsubcuw
    SubCarry,
    // vsububs, vsubuhs, vsubuws, vsubsbs, vsubshs, vsubsws
    SubSat(Size, Sign),
    // vmaxub, vmaxuh, vmaxuw, vmaxsb, vmaxsh, vmaxsw
    Max(Size, Sign),
    // vminub, vminuh, vminuw, vminsb, vminsh, vminsw
    Min(Size, Sign),
    // vavgub, vavguh, vavguw, vavgsb, vavgsh, vavgsw
    Average(Size, Sign),
    // vrlb, vrlh, vrlw
    Rotate(Size),
    // vslb, vslh, vslw
    ShiftLeft(Size),
    // vsrb, vsrh, vsrw
    ShiftRight(Size),
    // vsrab, vsrah, vsraw
    ShiftAlgebraic(Size),
    // vsl: the whole register, by bits
    ShiftWholeLeft,
    // vsr: the whole register, by bits
    ShiftWholeRight,
    // vslo: the whole register, by bytes
    ShiftBytesLeft,
    // vsro: the whole register, by bytes
    ShiftBytesRight,
    // vand
    And,
    // vandc
    AndNot,
    // vor
    Or,
    // vxor
    Xor,
    // vnor
    Nor,
    // mfvscr
    FromStatus,
    // mtvscr
    ToStatus,
    // vmuloub, vmulouh, vmulosb, vmulosh: the width and sign of the factors
    MulOdd(Size, Sign),
    // vmuleub, vmuleuh, vmulesb, vmulesh: the width and sign of the factors
    MulEven(Size, Sign),
    // vsum4ubs, vsum4sbs, vsum4shs: within each word
    SumQuarter(Size, Sign),
    // vsum2sws: within each doubleword
    SumHalf,
    // vsumsws: across the register
    SumAll,
    // vmrghb, vmrghh, vmrghw
    MergeHigh(Size),
    // vmrglb, vmrglh, vmrglw
    MergeLow(Size),
    // vspltb, vsplth, vspltw
    Splat(Size),
    // vspltisb, vspltish, vspltisw
    SplatImmediate(Size),
    // vpkuhum, vpkuwum: the width of what is packed
    PackMod(Size),
    // vpkuhus, vpkuwus, vpkshus, vpkswus, vpkshss, vpkswss: the width and sign of what is packed, and the sign of the result
    PackSat(Size, Sign, Sign),
    // vupkhsb, vupkhsh: the width of what is unpacked
    UnpackHigh(Size),
    // vupklsb, vupklsh: the width of what is unpacked
    UnpackLow(Size),
    // vcmpequb, vcmpequh, vcmpequw
    CompareEqual(Size),
    // vcmpgtub, vcmpgtuh, vcmpgtuw, vcmpgtsb, vcmpgtsh, vcmpgtsw
    CompareGreater(Size, Sign),
    // vmhaddshs
    MulHighAdd,
    // vmhraddshs
    MulHighRoundAdd,
    // vmladduhm
    MulLowAdd,
    // vmsumubm, vmsumuhm, vmsumshm: the width and sign of the factors
    MulSum(Size, Sign),
    // vmsummbm: A signed, B unsigned
    MulSumMixed,
    // vmsumuhs, vmsumshs: of halves, the sign of the factors
    MulSumSat(Sign),
    // vsel
    Select,
    // vperm
    Permute,
    // vsldoi
    ShiftPair,
    // lvsl
    LoadShiftLeft,
    // lvsr
    LoadShiftRight,
    // lvebx, lvehx, lvewx
    LoadElement(Size),
    // lvx, lvxl: sixteen bytes; the two act alike
    LoadLine,
    // stvebx, stvehx, stvewx
    StoreElement(Size),
    // stvx, stvxl: sixteen bytes; the two act alike
    StoreLine,
    // addi
    AddImmediate,
}
