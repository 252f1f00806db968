// Prints a list of words, decoded: a line a word, with its mnemonic, its fields, its traits and the word with its reserved bits cleared.
// The stored list has each of the 132 instructions with its fields, each reserved bit alone, codes beside a carried one that are not carried,
// and some words with all other bits set.
#![tactic(auto)]

use encodings::ops::{Op, Sign};
use lanes::Size;
use std::fmt;
use std::io::Read;

fn size(w: Size) -> &'static str {
    match w {
        Size::Byte => "b",
        Size::Half => "h",
        Size::Word => "w",
    }
}

fn sign(s: Sign) -> &'static str {
    match s {
        Sign::Unsigned => "u",
        Sign::Signed => "s",
    }
}

// The mnemonic; lvxl and stvxl have the operation and the name of lvx and stvx.
#[derive(Clone, Copy)]
struct Mnemonic(Op);

impl fmt::Display for Mnemonic {
    fn fmt<W: fmt::Write>(&self, f: &mut fmt::Formatter<W>) -> fmt::Result {
        match self.0 {
            Op::AddMod(w) => write!(f, "vaddu{}m", size(w)),
            Op::AddCarry => f.write_str("vaddcuw"),
            Op::AddSat(w, s) => write!(f, "vadd{}{}s", sign(s), size(w)),
            Op::SubMod(w) => write!(f, "vsubu{}m", size(w)),
            Op::SubCarry => f.write_str("vsubcuw"),
            Op::SubSat(w, s) => write!(f, "vsub{}{}s", sign(s), size(w)),
            Op::Max(w, s) => write!(f, "vmax{}{}", sign(s), size(w)),
            Op::Min(w, s) => write!(f, "vmin{}{}", sign(s), size(w)),
            Op::Average(w, s) => write!(f, "vavg{}{}", sign(s), size(w)),
            Op::Rotate(w) => write!(f, "vrl{}", size(w)),
            Op::ShiftLeft(w) => write!(f, "vsl{}", size(w)),
            Op::ShiftRight(w) => write!(f, "vsr{}", size(w)),
            Op::ShiftAlgebraic(w) => write!(f, "vsra{}", size(w)),
            Op::ShiftWholeLeft => f.write_str("vsl"),
            Op::ShiftWholeRight => f.write_str("vsr"),
            Op::ShiftBytesLeft => f.write_str("vslo"),
            Op::ShiftBytesRight => f.write_str("vsro"),
            Op::And => f.write_str("vand"),
            Op::AndNot => f.write_str("vandc"),
            Op::Or => f.write_str("vor"),
            Op::Xor => f.write_str("vxor"),
            Op::Nor => f.write_str("vnor"),
            Op::FromStatus => f.write_str("mfvscr"),
            Op::ToStatus => f.write_str("mtvscr"),
            Op::MulOdd(w, s) => write!(f, "vmulo{}{}", sign(s), size(w)),
            Op::MulEven(w, s) => write!(f, "vmule{}{}", sign(s), size(w)),
            Op::SumQuarter(w, s) => write!(f, "vsum4{}{}s", sign(s), size(w)),
            Op::SumHalf => f.write_str("vsum2sws"),
            Op::SumAll => f.write_str("vsumsws"),
            Op::MergeHigh(w) => write!(f, "vmrgh{}", size(w)),
            Op::MergeLow(w) => write!(f, "vmrgl{}", size(w)),
            Op::Splat(w) => write!(f, "vsplt{}", size(w)),
            Op::SplatImmediate(w) => write!(f, "vspltis{}", size(w)),
            Op::PackMod(w) => write!(f, "vpku{}um", size(w)),
            Op::PackSat(w, s, r) => write!(f, "vpk{}{}{}s", sign(s), size(w), sign(r)),
            Op::UnpackHigh(w) => write!(f, "vupkhs{}", size(w)),
            Op::UnpackLow(w) => write!(f, "vupkls{}", size(w)),
            Op::CompareEqual(w) => write!(f, "vcmpequ{}", size(w)),
            Op::CompareGreater(w, s) => write!(f, "vcmpgt{}{}", sign(s), size(w)),
            Op::MulHighAdd => f.write_str("vmhaddshs"),
            Op::MulHighRoundAdd => f.write_str("vmhraddshs"),
            Op::MulLowAdd => f.write_str("vmladduhm"),
            Op::MulSum(w, s) => write!(f, "vmsum{}{}m", sign(s), size(w)),
            Op::MulSumMixed => f.write_str("vmsummbm"),
            Op::MulSumSat(s) => write!(f, "vmsum{}hs", sign(s)),
            Op::Select => f.write_str("vsel"),
            Op::Permute => f.write_str("vperm"),
            Op::ShiftPair => f.write_str("vsldoi"),
            Op::LoadShiftLeft => f.write_str("lvsl"),
            Op::LoadShiftRight => f.write_str("lvsr"),
            Op::LoadElement(w) => write!(f, "lve{}x", size(w)),
            Op::LoadLine => f.write_str("lvx"),
            Op::StoreElement(w) => write!(f, "stve{}x", size(w)),
            Op::StoreLine => f.write_str("stvx"),
            Op::AddImmediate => f.write_str("addi"),
        }
    }
}

// Words that are said where they are so.
#[derive(Clone, Copy)]
struct Flag(&'static str, bool);

impl fmt::Display for Flag {
    fn fmt<W: fmt::Write>(&self, f: &mut fmt::Formatter<W>) -> fmt::Result {
        if self.1 { f.write_str(self.0) } else { Ok(()) }
    }
}

fn traits(rt: &impl Print, op: Option<Op>) {
    let flags = [
        Flag(" reads a", decode::traits::reads_a(op)),
        Flag(" reads b", decode::traits::reads_b(op)),
        Flag(" reads c", decode::traits::reads_c(op)),
        Flag(" reads d", decode::traits::reads_d(op)),
        Flag(" writes d", decode::traits::writes_d(op)),
        Flag(" clips", decode::traits::can_clip(op)),
        Flag(" bound", decode::traits::position_bound(op)),
    ];
    for flag in flags {
        let _ = rt.print(flag);
    }
}

fn line(rt: &impl Print, word: u32) {
    let got = decode::decode(word);
    let _ = print!(rt; "{word:08x} ");
    let _ = match got.op {
        Some(op) => rt.print(Mnemonic(op)),
        None => rt.print("-"),
    };
    let _ = print!(rt; " d{} a{} b{} c{}", got.d, got.a, got.b, got.c);
    let _ = print!(rt; " count{} imm{}", got.count, got.imm);
    let _ = print!(rt; "{}{}", Flag(" rc", got.rc), Flag(" stray", got.stray));
    traits(rt, got.op);
    let _ = println!(rt; " cleared {:08x}", decode::cleared(word));
}

fn main(rt: HostRuntime) {
    let mut input = rt.stdin();
    for _ in 0..1024usize {
        let mut bytes = [0u8; 4];
        if input.read_exact(&mut bytes).is_err() {
            return;
        }
        line(&rt, u32::from_be_bytes(bytes));
    }
}
