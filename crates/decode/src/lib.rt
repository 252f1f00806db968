// The decoder: of every 32-bit word the instruction that it carries, its fields, and whether a reserved bit is set.
#![tactic(auto)]

pub mod reserved;
pub mod traits;

ghost use Rattle.std.specs.Prelude.{◌≡◌};
ghost use Rattle.decode.specs.Decode.{decode_of, cleared_of};

use encodings::operation;
use encodings::ops::Op;
use reserved::{any, clear};
use traits::reserved;

// A word taken apart. That its fields have their sizes is a clause of who takes it (`InFields`) and no type of its own: a struct with an
// invariant is not copied when it is passed by value and used again, as the loop of a run does with this one.
#[derive(Clone, Copy)]
pub struct Decoded {
    // The operation; none where the word carries no instruction, which is answer 5.
    pub op: Option<Op>,
    // Whether a reserved bit is set: answer 6.
    pub stray: bool,
    pub d: usize,
    // Also a splat's lane number or its immediate, not yet extended.
    pub a: usize,
    pub b: usize,
    pub c: usize,
    // Bit 21: a compare also sets CR6.
    pub rc: bool,
    // vsldoi's byte count.
    pub count: usize,
    // addi's immediate, not yet extended.
    pub imm: u32,
}

pub fn decode(word: u32) -> Decoded
    ensures { result ≡ decode_of word }
{
    let op = operation(word);
    let stray = any(reserved(op), word);
    let d = word / 2097152 % 32;
    let a = word / 65536 % 32;
    let b = word / 2048 % 32;
    let c = word / 64 % 32;
    let count = word / 64 % 16;
    Decoded {
        op,
        stray,
        d: d as usize,
        a: a as usize,
        b: b as usize,
        c: c as usize,
        rc: word / 1024 % 2 != 0,
        count: count as usize,
        imm: word % 65536,
    }
}

// The word with its reserved bits cleared; one that carries no instruction has none.
pub fn cleared(word: u32) -> u32
    ensures { result ≡ cleared_of word }
{
    clear(reserved(operation(word)), word)
}
