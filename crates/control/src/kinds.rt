// How control treats each operation.
ghost use Rattle.std.specs.Prelude.{◌≡◌};
ghost use Rattle.control.specs.Kinds.{kind_of};

use encodings::ops::Op;
use lanes::Size;

#[derive(Clone, Copy)]
pub enum Kind {
    // It works on vectors alone.
    Vector,
    // mfvscr
    GetStatus,
    // mtvscr
    PutStatus,
    // lvsl
    LeftPattern,
    // lvsr
    RightPattern,
    // lvebx, lvehx, lvewx
    GetElement(Size),
    // lvx, lvxl
    GetLine,
    // stvebx, stvehx, stvewx
    PutElement(Size),
    // stvx, stvxl
    PutLine,
    // addi
    AddScalar,
}

// A row for each operation, as in the definition, so that a new operation is given its kind on purpose.
pub fn kind_of(op: Op) -> Kind
    ensures { result ≡ kind_of op }
{
    match op {
        Op::AddMod(_) => Kind::Vector,
        Op::AddCarry => Kind::Vector,
        Op::AddSat(_, _) => Kind::Vector,
        Op::SubMod(_) => Kind::Vector,
        Op::SubCarry => Kind::Vector,
        Op::SubSat(_, _) => Kind::Vector,
        Op::Max(_, _) => Kind::Vector,
        Op::Min(_, _) => Kind::Vector,
        Op::Average(_, _) => Kind::Vector,
        Op::Rotate(_) => Kind::Vector,
        Op::ShiftLeft(_) => Kind::Vector,
        Op::ShiftRight(_) => Kind::Vector,
        Op::ShiftAlgebraic(_) => Kind::Vector,
        Op::ShiftWholeLeft => Kind::Vector,
        Op::ShiftWholeRight => Kind::Vector,
        Op::ShiftBytesLeft => Kind::Vector,
        Op::ShiftBytesRight => Kind::Vector,
        Op::And => Kind::Vector,
        Op::AndNot => Kind::Vector,
        Op::Or => Kind::Vector,
        Op::Xor => Kind::Vector,
        Op::Nor => Kind::Vector,
        Op::FromStatus => Kind::GetStatus,
        Op::ToStatus => Kind::PutStatus,
        Op::MulOdd(_, _) => Kind::Vector,
        Op::MulEven(_, _) => Kind::Vector,
        Op::SumQuarter(_, _) => Kind::Vector,
        Op::SumHalf => Kind::Vector,
        Op::SumAll => Kind::Vector,
        Op::MergeHigh(_) => Kind::Vector,
        Op::MergeLow(_) => Kind::Vector,
        Op::Splat(_) => Kind::Vector,
        Op::SplatImmediate(_) => Kind::Vector,
        Op::PackMod(_) => Kind::Vector,
        Op::PackSat(_, _, _) => Kind::Vector,
        Op::UnpackHigh(_) => Kind::Vector,
        Op::UnpackLow(_) => Kind::Vector,
        Op::CompareEqual(_) => Kind::Vector,
        Op::CompareGreater(_, _) => Kind::Vector,
        Op::MulHighAdd => Kind::Vector,
        Op::MulHighRoundAdd => Kind::Vector,
        Op::MulLowAdd => Kind::Vector,
        Op::MulSum(_, _) => Kind::Vector,
        Op::MulSumMixed => Kind::Vector,
        Op::MulSumSat(_) => Kind::Vector,
        Op::Select => Kind::Vector,
        Op::Permute => Kind::Vector,
        Op::ShiftPair => Kind::Vector,
        Op::LoadShiftLeft => Kind::LeftPattern,
        Op::LoadShiftRight => Kind::RightPattern,
        Op::LoadElement(width) => Kind::GetElement(width),
        Op::LoadLine => Kind::GetLine,
        Op::StoreElement(width) => Kind::PutElement(width),
        Op::StoreLine => Kind::PutLine,
        Op::AddImmediate => Kind::AddScalar,
    }
}
