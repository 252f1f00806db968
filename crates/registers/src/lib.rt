// Any instruction by value, on the registers of the machine's vectors, which are lent: all sources are read before register D is written.
// Vector n is bytes 16 n to 16 n + 15 of v. What is returned are the marks.
#![tactic(auto)]

ghost use Rattle.std.specs.Prelude.{◌<◌, ◌*◌};
ghost use Rattle.lanes.specs.declared.Marked.{Marked};
ghost use Rattle.registers.specs.Registers.{at, bare, Leaves};

use lanes::Marked;
use lines::{set_vector, vector};

// A register is a number below 32, which each clause says: as a type with an invariant it would have to be opened where it is used, here and
// in the loop, and the clauses of the decoded word would stay.

// What an instruction gives: bytes with marks, or bytes with none.
pub trait Outcome: Copy {
    ghost marked: { Self → Marked };

    // Register d becomes its bytes; its marks.
    fn put(self, v: &mut [u8; 512], d: usize) -> u32
        requires { d < 32 }
        ensures { Leaves (marked self) d v.old v.new result };
}

impl Outcome for Marked {
    ghost marked = { λ r. r };

    fn put(self, v: &mut [u8; 512], d: usize) -> u32 {
        let x = self.bytes;
        set_vector(v, d, x);
        self.marks
    }
}

impl Outcome for [u8; 16] {
    ghost marked = { λ r. bare r };

    fn put(self, v: &mut [u8; 512], d: usize) -> u32 {
        set_vector(v, d, self);
        0
    }
}

// The instruction f of register a goes into register d. One function for each number of operands: a parameter that is a list of operands would
// have to be checked against the instruction.
pub fn on_one<R: Outcome, F: Fn([u8; 16]) -> R>(v: &mut [u8; 512], d: usize, a: usize, f: F) -> u32
    requires inside { (d < 32) × (a < 32) }
    requires can { F.pre f (at v.old a) }
    ensures { (r : R) × F.post f (at v.old a) r × Leaves (R.marked r) d v.old v.new result }
{
    let r = f(vector(v, a));
    r.put(v, d)
}

// The same of two registers.
pub fn on_two<R: Outcome, F: Fn([u8; 16], [u8; 16]) -> R>(
    v: &mut [u8; 512],
    d: usize,
    a: usize,
    b: usize,
    f: F,
) -> u32
    requires inside { (d < 32) × (a < 32) × (b < 32) }
    requires can { F.pre f (at v.old a) (at v.old b) }
    ensures { (r : R) × F.post f (at v.old a) (at v.old b) r × Leaves (R.marked r) d v.old v.new result }
{
    let r = f(vector(v, a), vector(v, b));
    r.put(v, d)
}

// The same of three.
pub fn on_three<R: Outcome, F: Fn([u8; 16], [u8; 16], [u8; 16]) -> R>(
    v: &mut [u8; 512],
    d: usize,
    a: usize,
    b: usize,
    c: usize,
    f: F,
) -> u32
    requires inside { (d < 32) × (a < 32) × (b < 32) × (c < 32) }
    requires can { F.pre f (at v.old a) (at v.old b) (at v.old c) }
    ensures { (r : R) × F.post f (at v.old a) (at v.old b) (at v.old c) r × Leaves (R.marked r) d v.old v.new result }
{
    let r = f(vector(v, a), vector(v, b), vector(v, c));
    r.put(v, d)
}

// A register as it is.
pub fn copy(v: &mut [u8; 512], d: usize, a: usize) -> u32
    requires { (d < 32) × (a < 32) }
    ensures { Leaves (bare (at v.old a)) d v.old v.new result }
{
    vector(v, a).put(v, d)
}
