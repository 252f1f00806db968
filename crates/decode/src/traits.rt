// What holds of an operation: the vectors that it reads and writes, whether it can clip, whether it is position-bound, its reserved bits.
// Each is asked of what a word carries: where that is no instruction, no vector is read or written, it does not clip, it is not
// position-bound, and no bit is reserved.
ghost use Rattle.std.specs.Prelude.{◌≡◌, false};
ghost use Rattle.std.specs.Option.{option_map_or};
ghost use Rattle.decode.specs.Decode.{run_in};
ghost use Rattle.decode.specs.Traits.{traits_of, row_of, before_lane, reads_a, reads_b, reads_c, reads_d, writes_d, can_clip, position_bound};

use crate::reserved::Run;
use encodings::ops::Op;
use lanes::Size;

// A row of the table stands in one line, as in the definition and in the paper; with named fields it would take five.

// Whether the vectors A, B, C and D are read, and whether D is written.
#[derive(Clone, Copy)]
struct Vectors(bool, bool, bool, bool, bool);

// No vector.
const NONE: Vectors = Vectors(false, false, false, false, false);
// A and B give D.
const TWO: Vectors = Vectors(true, true, false, false, true);
// A, B and C give D.
const THREE: Vectors = Vectors(true, true, true, false, true);
// B gives D.
const ONE: Vectors = Vectors(false, true, false, false, true);
// D from no vector.
const TARGET: Vectors = Vectors(false, false, false, false, true);
// B alone.
const SOURCE: Vectors = Vectors(false, true, false, false, false);
// D alone, read.
const STORED: Vectors = Vectors(false, false, false, true, false);

// It can set SAT by clipping.
const CLIPS: bool = true;
// It cannot.
const EXACT: bool = false;

// It is position-bound.
const BOUND: bool = true;
// It is not.
const FREE: bool = false;

// The vectors, whether it can set SAT by clipping, whether it is position-bound, its reserved bits.
#[derive(Clone, Copy)]
struct Traits(Vectors, bool, bool, Run);

// No instruction.
const NOTHING: Traits = Traits(NONE, EXACT, FREE, Run::Empty);

// The bits of A before a splat's lane number.
fn before_lane(width: Size) -> Run
    ensures { result ≡ before_lane width }
{
    match width {
        Size::Byte => Run::BeforeByteLane,
        Size::Half => Run::BeforeHalfLane,
        Size::Word => Run::BeforeWordLane,
    }
}

fn traits_of(op: Op) -> Traits
    ensures { result ≡ traits_of op }
{
    match op {
        Op::AddMod(_) => Traits(TWO, EXACT, FREE, Run::Empty),
        Op::AddCarry => Traits(TWO, EXACT, FREE, Run::Empty),
        Op::AddSat(_, _) => Traits(TWO, CLIPS, FREE, Run::Empty),
        Op::SubMod(_) => Traits(TWO, EXACT, FREE, Run::Empty),
        Op::SubCarry => Traits(TWO, EXACT, FREE, Run::Empty),
        Op::SubSat(_, _) => Traits(TWO, CLIPS, FREE, Run::Empty),
        Op::Max(_, _) => Traits(TWO, EXACT, FREE, Run::Empty),
        Op::Min(_, _) => Traits(TWO, EXACT, FREE, Run::Empty),
        Op::Average(_, _) => Traits(TWO, EXACT, FREE, Run::Empty),
        Op::Rotate(_) => Traits(TWO, EXACT, FREE, Run::Empty),
        Op::ShiftLeft(_) => Traits(TWO, EXACT, FREE, Run::Empty),
        Op::ShiftRight(_) => Traits(TWO, EXACT, FREE, Run::Empty),
        Op::ShiftAlgebraic(_) => Traits(TWO, EXACT, FREE, Run::Empty),
        Op::ShiftWholeLeft => Traits(TWO, EXACT, BOUND, Run::Empty),
        Op::ShiftWholeRight => Traits(TWO, EXACT, BOUND, Run::Empty),
        Op::ShiftBytesLeft => Traits(TWO, EXACT, BOUND, Run::Empty),
        Op::ShiftBytesRight => Traits(TWO, EXACT, BOUND, Run::Empty),
        Op::And => Traits(TWO, EXACT, FREE, Run::Empty),
        Op::AndNot => Traits(TWO, EXACT, FREE, Run::Empty),
        Op::Or => Traits(TWO, EXACT, FREE, Run::Empty),
        Op::Xor => Traits(TWO, EXACT, FREE, Run::Empty),
        Op::Nor => Traits(TWO, EXACT, FREE, Run::Empty),
        Op::FromStatus => Traits(TARGET, EXACT, BOUND, Run::AB),
        Op::ToStatus => Traits(SOURCE, EXACT, BOUND, Run::DA),
        Op::MulOdd(_, _) => Traits(TWO, EXACT, FREE, Run::Empty),
        Op::MulEven(_, _) => Traits(TWO, EXACT, FREE, Run::Empty),
        Op::SumQuarter(_, _) => Traits(TWO, CLIPS, FREE, Run::Empty),
        Op::SumHalf => Traits(TWO, CLIPS, BOUND, Run::Empty),
        Op::SumAll => Traits(TWO, CLIPS, BOUND, Run::Empty),
        Op::MergeHigh(_) => Traits(TWO, EXACT, BOUND, Run::Empty),
        Op::MergeLow(_) => Traits(TWO, EXACT, BOUND, Run::Empty),
        Op::Splat(width) => Traits(ONE, EXACT, BOUND, before_lane(width)),
        Op::SplatImmediate(_) => Traits(TARGET, EXACT, FREE, Run::B),
        Op::PackMod(_) => Traits(TWO, EXACT, BOUND, Run::Empty),
        Op::PackSat(_, _, _) => Traits(TWO, CLIPS, BOUND, Run::Empty),
        Op::UnpackHigh(_) => Traits(ONE, EXACT, BOUND, Run::A),
        Op::UnpackLow(_) => Traits(ONE, EXACT, BOUND, Run::A),
        Op::CompareEqual(_) => Traits(TWO, EXACT, FREE, Run::Empty),
        Op::CompareGreater(_, _) => Traits(TWO, EXACT, FREE, Run::Empty),
        Op::MulHighAdd => Traits(THREE, CLIPS, FREE, Run::Empty),
        Op::MulHighRoundAdd => Traits(THREE, CLIPS, FREE, Run::Empty),
        Op::MulLowAdd => Traits(THREE, EXACT, FREE, Run::Empty),
        Op::MulSum(_, _) => Traits(THREE, EXACT, FREE, Run::Empty),
        Op::MulSumMixed => Traits(THREE, EXACT, FREE, Run::Empty),
        Op::MulSumSat(_) => Traits(THREE, CLIPS, FREE, Run::Empty),
        Op::Select => Traits(THREE, EXACT, FREE, Run::Empty),
        Op::Permute => Traits(THREE, EXACT, BOUND, Run::Empty),
        Op::ShiftPair => Traits(TWO, EXACT, BOUND, Run::BeforeCount),
        Op::LoadShiftLeft => Traits(TARGET, EXACT, BOUND, Run::Last),
        Op::LoadShiftRight => Traits(TARGET, EXACT, BOUND, Run::Last),
        Op::LoadElement(_) => Traits(TARGET, EXACT, BOUND, Run::Last),
        Op::LoadLine => Traits(TARGET, EXACT, FREE, Run::Last),
        Op::StoreElement(_) => Traits(STORED, EXACT, BOUND, Run::Last),
        Op::StoreLine => Traits(STORED, EXACT, FREE, Run::Last),
        Op::AddImmediate => Traits(NONE, EXACT, FREE, Run::Empty),
    }
}

// The row of what a word carries.
fn row(op: Option<Op>) -> Traits
    ensures { result ≡ row_of op }
{
    op.map_or(NOTHING, traits_of)
}

// Whether it reads A as a vector.
pub fn reads_a(op: Option<Op>) -> bool
    ensures { result ≡ option_map_or reads_a op false }
{
    row(op).0.0
}

// Whether it reads B as a vector.
pub fn reads_b(op: Option<Op>) -> bool
    ensures { result ≡ option_map_or reads_b op false }
{
    row(op).0.1
}

// Whether it reads C as a vector.
pub fn reads_c(op: Option<Op>) -> bool
    ensures { result ≡ option_map_or reads_c op false }
{
    row(op).0.2
}

// Whether it reads D as a vector: the stores. This and the next differ in the field of the row; a parameter for it would be no plainer.
pub fn reads_d(op: Option<Op>) -> bool
    ensures { result ≡ option_map_or reads_d op false }
{
    row(op).0.3
}

// Whether it writes D as a vector.
pub fn writes_d(op: Option<Op>) -> bool
    ensures { result ≡ option_map_or writes_d op false }
{
    row(op).0.4
}

// Whether it can set SAT by clipping.
pub fn can_clip(op: Option<Op>) -> bool
    ensures { result ≡ option_map_or can_clip op false }
{
    row(op).1
}

// Whether it is position-bound.
pub fn position_bound(op: Option<Op>) -> bool
    ensures { result ≡ option_map_or position_bound op false }
{
    row(op).2
}

// Its reserved bits.
pub fn reserved(op: Option<Op>) -> Run
    ensures { result ≡ run_in op }
{
    row(op).3
}
