// Document 01's address examples and their neighbours: the order for a word, and general register D after it.
#![tactic(auto)]

ghost use Rattle.control.specs.Orders.{InFields};

use control::Region;
use control::answers::Answer;
use control::orders::Order;
use decode::Decoded;
use std::fmt;

// An order in words, or the answer that refuses the word.
#[derive(Clone, Copy)]
struct Told(Result<Order, Answer>);

impl fmt::Display for Told {
    fn fmt<W: fmt::Write>(&self, f: &mut fmt::Formatter<W>) -> fmt::Result {
        match self.0 {
            Err(answer) => write!(f, "answer {}", u32::from(answer)),
            Ok(Order::SetGeneral(_)) => f.write_str("sets"),
            Ok(Order::Compute(_)) => f.write_str("computes"),
            Ok(Order::ReadStatus) => f.write_str("reads status"),
            Ok(Order::WriteStatus) => f.write_str("writes status"),
            Ok(Order::PatternLeft(s)) => write!(f, "left {s}"),
            Ok(Order::PatternRight(s)) => write!(f, "right {s}"),
            Ok(Order::ReadLine(at)) => write!(f, "reads line {at}"),
            Ok(Order::WriteLine(at)) => write!(f, "writes line {at}"),
            Ok(Order::ReadElement(e)) => {
                write!(f, "reads {} of line {} at {}", e.bytes, e.at, e.place)
            }
            Ok(Order::WriteElement(e)) => {
                write!(f, "writes {} of line {} at {}", e.bytes, e.at, e.place)
            }
        }
    }
}

fn fields(word: u32) -> Decoded
    ensures { InFields result }
{
    decode::decode(word)
}

fn show(rt: &impl Print, name: &str, word: u32, g: &mut [u32; 32], base: u32, length: usize) {
    let w = fields(word);
    let o = control::control(w, g, Region { base, length });
    let _ = println!(rt; "{name}: {}; r{} {}", Told(o), w.d, g[w.d]);
}

// Whole lines.
fn whole_lines(rt: &impl Print, g: &mut [u32; 32]) {
    show(rt, "lvx at 0x100F", 0x7C2018CE, g, 0x1000, 16);
    show(rt, "lvx at 0x1010", 0x7C2020CE, g, 0x1000, 16);
    show(rt, "lvx at 0x0FFF", 0x7C2028CE, g, 0x1000, 16);
    show(rt, "lvx at 0x1002 + 0xFFFFFFFF", 0x7C2110CE, g, 0x1000, 16);
    show(rt, "lvxl at 0x1020", 0x7C404ACE, g, 0x1000, 64);
    show(rt, "stvx at 0x1010", 0x7C6021CE, g, 0x1000, 64);
    show(rt, "stvxl at 0x100F", 0x7C601BCE, g, 0x1000, 64);
    show(rt, "lvx at 0xFFFFFFF5", 0x7C8030CE, g, 0xFFFFFFF0, 16);
    show(
        rt,
        "stvx past the end of all addresses",
        0x7C8649CE,
        g,
        0xFFFFFFF0,
        16,
    );
    show(rt, "lvx with A 0 and B 0", 0x7CA000CE, g, 0x1000, 16);
    show(
        rt,
        "lvx with A 0 and an address too low",
        0x7CA040CE,
        g,
        0x1000,
        16,
    );
    show(rt, "lvx without memory", 0x7CA018CE, g, 0x0, 0);
    show(
        rt,
        "lvx with bit 31 and a bad address",
        0x7C2020CF,
        g,
        0x1000,
        16,
    );
}

// Elements.
fn elements(rt: &impl Print, g: &mut [u32; 32]) {
    show(rt, "lvebx at 0x100F", 0x7CC0180E, g, 0x1000, 16);
    show(rt, "lvehx at 0x100F", 0x7CC0184E, g, 0x1000, 16);
    show(rt, "lvewx at 0x100F", 0x7CC0188E, g, 0x1000, 16);
    show(rt, "lvebx at 0x1010", 0x7CC0200E, g, 0x1000, 16);
    show(rt, "lvehx at 0x0FFF", 0x7CC0284E, g, 0x1000, 16);
    show(rt, "lvewx in a second line", 0x7CC7008E, g, 0x1000, 64);
    show(rt, "stvebx in a second line", 0x7CE9390E, g, 0x1000, 80);
    show(rt, "stvehx in a second line", 0x7CE9394E, g, 0x1000, 80);
    show(rt, "stvewx in a second line", 0x7CE9398E, g, 0x1000, 80);
    show(rt, "stvewx with bit 31", 0x7CE9398F, g, 0x1000, 80);
}

// Patterns, the status word and vector instructions.
fn others(rt: &impl Print, g: &mut [u32; 32]) {
    show(rt, "lvsl outside memory", 0x7D00380C, g, 0x0, 0);
    show(rt, "lvsr outside memory", 0x7D00384C, g, 0x0, 0);
    show(rt, "lvsr with low bits 0", 0x7D00484C, g, 0x0, 0);
    show(rt, "lvsl with bit 31", 0x7D00380D, g, 0x0, 0);
    show(rt, "mfvscr", 0x11200604, g, 0x0, 0);
    show(rt, "mfvscr with a field set", 0x11200E04, g, 0x0, 0);
    show(rt, "mtvscr", 0x10004E44, g, 0x0, 0);
    show(rt, "mtvscr with a field set", 0x10204E44, g, 0x0, 0);
    show(rt, "vaddubm", 0x114B6000, g, 0x0, 0);
    show(rt, "vxor", 0x114B64C4, g, 0x0, 0);
    show(rt, "vcmpequb.", 0x114B6406, g, 0x0, 0);
    show(rt, "no vector instruction", 0x114B6001, g, 0x0, 0);
    show(rt, "no primary", 0x00000000, g, 0x0, 0);
    show(rt, "no indexed instruction", 0x7C000010, g, 0x0, 0);
}

// Addi.
fn sums(rt: &impl Print, g: &mut [u32; 32]) {
    show(rt, "addi with A 0", 0x39400007, g, 0x0, 0);
    show(rt, "addi 5", 0x39680005, g, 0x0, 0);
    show(rt, "addi -2", 0x3988FFFE, g, 0x0, 0);
    show(rt, "addi wraps", 0x39A20001, g, 0x0, 0);
    show(rt, "addi of the lowest immediate", 0x39C08000, g, 0x0, 0);
    show(rt, "addi to register 0", 0x3801FFFF, g, 0x0, 0);
    show(rt, "lvx with B 0 after it", 0x7CA000CE, g, 0x1000, 16);
}

fn main(rt: HostRuntime) {
    let mut g = [0u32; 32];
    g[0] = 0x1004;
    g[1] = 0x1002;
    g[2] = 0xFFFFFFFF;
    g[3] = 0x100F;
    g[4] = 0x1010;
    g[5] = 0xFFF;
    g[6] = 0xFFFFFFF5;
    g[7] = 0x2B;
    g[8] = 0x1;
    g[9] = 0x1020;
    whole_lines(&rt, &mut g);
    elements(&rt, &mut g);
    others(&rt, &mut g);
    sums(&rt, &mut g);
}
