// The machine as bytes of a file, and back.
#![tactic(auto)]

ghost use Rattle.std.specs.Prelude.{◌+◌, ◌*◌, ◌/◌, ◌%◌, ◌≤◌, ◌≡◌, ◌++◌, length};
ghost use Rattle.lines.specs.Lines.{part};
ghost use Rattle.reading.specs.Words.{words_of};
ghost use Rattle.texts.specs.Texts.{word_bytes};
ghost use Rattle.states.specs.States.{state_of, from_state, at_rest, loaded_of};

use flags::{Flags, from_status, status};
use lines::load;
use machine::Machine;
use reading::words;
use texts::put_words;

// All registers and bits zero.
#[tactic(auto, unfolding(crate::specs::States::at_rest))]
pub fn at_rest() -> Machine
    ensures { result ≡ at_rest }
{
    Machine {
        v: [0; 512],
        g: [0; 32],
        nj: false,
        sat: false,
        cr6: 0,
    }
}

#[tactic(auto, unfolding(lines::specs::Lines::part))]
fn vectors(bytes: &[u8]) -> [u8; 512]
    requires { 512 ≤ length bytes.now }
    ensures { result ≡ part bytes.now 0 512 }
{
    let mut v = [0u8; 512];
    v.copy_from_slice(&bytes[..512]);
    v
}

fn generals(bytes: &[u8]) -> [u32; 32]
    requires { 656 ≤ length bytes.now }
    ensures { result ≡ words_of (part bytes.now 528 128) }
{
    let mut g = [0u32; 32];
    words(&bytes[528..656], &mut g);
    g
}

#[tactic(auto, unfolding(crate::specs::States::from_state))]
fn taken(bytes: &[u8]) -> Machine
    requires { 660 ≤ length bytes.now }
    ensures { result ≡ from_state bytes.now }
{
    let x = load(bytes, 512);
    let v = vectors(bytes);
    let g = generals(bytes);
    let rest = Flags {
        nj: false,
        sat: false,
        cr6: bytes[659] / 16,
    };
    let f = from_status(x, rest);
    Machine {
        v,
        g,
        nj: f.nj,
        sat: f.sat,
        cr6: f.cr6,
    }
}

// NJ, SAT and CR6 go field by field, as in the crate `machine`.

// The machine of 660 bytes; any other number of them is refused. Bits that stand for nothing are not looked at.
#[tactic(auto, unfolding(crate::specs::States::loaded_of))]
pub fn machine_of(bytes: &[u8]) -> Option<Machine>
    ensures { result ≡ loaded_of bytes.now }
{
    if bytes.len() == 660 {
        Some(taken(bytes))
    } else {
        None
    }
}

fn join(v: [u8; 512], x: [u8; 16], g: [u32; 32], condition: [u8; 4], out: &mut [u8; 660])
    ensures { out.new ≡ v ++ x ++ word_bytes g ++ condition }
{
    out[..512].copy_from_slice(&v);
    out[512..528].copy_from_slice(&x);
    put_words(&g, &mut out[528..656]);
    out[656..].copy_from_slice(&condition);
}

// The 660 bytes of a machine.
#[tactic(auto, unfolding(crate::specs::States::state_of))]
pub fn state_of(m: Machine, out: &mut [u8; 660])
    ensures { out.new ≡ state_of m }
{
    let Machine { v, g, nj, sat, cr6 } = m;
    let x = status(Flags { nj, sat, cr6 });
    join(v, x, g, [0, 0, 0, cr6 % 16 * 16], out);
}
