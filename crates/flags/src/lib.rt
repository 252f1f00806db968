// NJ, SAT and CR6: document 01, "Lane rules".
#![tactic(auto)]

ghost use Rattle.std.specs.Prelude.{◌≡◌, true, false, ◌&&◌};
ghost use Rattle.std.specs.Option.{option_map_or};
ghost use Rattle.flags.specs.Flags.{compares, status_of, from_status, marked_of, summary_of, recorded_of};

use encodings::ops::Op;
use lanes::{all_true, none_true};

// The bits that an instruction can leave beside a vector. CR6 is a number of four bits.
#[derive(Clone, Copy)]
pub struct Flags {
    pub nj: bool,
    pub sat: bool,
    pub cr6: u8,
}

// mfvscr: twelve zero bytes and the status word, NJ in its bit 15, SAT in bit 31.
#[tactic(auto, unfolding(crate::specs::Flags::status_of))]
pub fn status(f: Flags) -> [u8; 16]
    ensures { result ≡ status_of f }
{
    let nj = u8::from(f.nj);
    let sat = u8::from(f.sat);
    [0, 0, 0, 0, 0, 0, 0, 0, 0, 0, 0, 0, 0, nj, 0, sat]
}

// mtvscr: bits 111 and 127 of the vector.
#[tactic(auto, unfolding(crate::specs::Flags::from_status))]
pub fn from_status(x: [u8; 16], f: Flags) -> Flags
    ensures { result ≡ from_status x f }
{
    Flags {
        nj: x[13] % 2 == 1,
        sat: x[15] % 2 == 1,
        ..f
    }
}

// SAT stays on, and goes on where a lane was clipped.
#[tactic(auto, unfolding(crate::specs::Flags::marked_of))]
pub fn marked(f: Flags, marks: u32) -> Flags
    ensures { result ≡ marked_of f marks }
{
    Flags {
        sat: f.sat || 0 < marks,
        ..f
    }
}

// All true, 0, none true, 0.
#[tactic(auto, unfolding(crate::specs::Flags::summary_of))]
fn summary(x: [u8; 16]) -> u8
    ensures { result ≡ summary_of x }
{
    if all_true(x) {
        8
    } else if none_true(x) {
        2
    } else {
        0
    }
}

// CR6 after a compare with Rc.
#[tactic(auto, unfolding(crate::specs::Flags::recorded_of))]
pub fn recorded(f: Flags, x: [u8; 16]) -> Flags
    ensures { result ≡ recorded_of f true x }
{
    Flags {
        cr6: summary(x),
        ..f
    }
}

// The compares.
fn is_compare(op: Op) -> bool
    ensures { result ≡ compares op }
{
    matches!(op, Op::CompareEqual(_) | Op::CompareGreater(_, _))
}

// Whether a word with this operation and this bit 21 sets CR6; one that carries no instruction does not.
pub fn records(op: Option<Op>, rc: bool) -> bool
    ensures { result ≡ (rc && option_map_or compares op false) }
{
    rc && op.is_some_and(is_compare)
}
