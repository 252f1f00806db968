// DATA: what an order does to the vectors, the flags and the memory. It sees no general register and no address.
#![tactic(auto)]

ghost use Rattle.std.specs.Prelude.{◌≡◌, ◌*◌, length};
ghost use Rattle.lines.specs.Lines.{put};
ghost use Rattle.control.specs.Orders.{InFields, Reaches, Reaching};
ghost use Rattle.effects.specs.Effects.{computed_of, flags_after, held_of, effect_of, effect_after};

use compute::compute;
use control::answers::Answer;
use control::orders::Order;
use decode::Decoded;
use encodings::ops::Op;
use flags::{Flags, from_status, marked, recorded, records, status};
use lines::{load, load_element, set_vector, store, store_element, vector};
use moves::{lvsl, lvsr};

// A vector instruction. A compare that sets CR6 is a call of its own: a compare has no register C, and is given B again. Were the two calls the same, the
// compiler would make one of them, and take all instructions into the loop of the run.
fn computed(op: Op, w: Decoded, v: &mut [u8; 512], flags: Flags) -> Flags
    requires { InFields w }
    ensures { (v.new ≡ put v.old (16 * w.d) (computed_of op w v.old).bytes) × (result ≡ flags_after op w (computed_of op w v.old) flags) }
{
    if records(Some(op), w.rc) {
        let marks = compute(v, w.d, w.a, w.b, w.b, w.count as u8, Some(op));
        return recorded(marked(flags, marks), vector(v, w.d));
    }
    let marks = compute(v, w.d, w.a, w.b, w.c, w.count as u8, Some(op));
    marked(flags, marks)
}

// What an order for the decoded word w does. The general registers are control's.
fn effect_of(o: Order, w: Decoded, v: &mut [u8; 512], flags: Flags, mem: &mut [u8]) -> Flags
    requires { InFields w × Reaches o (length mem.old) }
    ensures { held_of v.new result mem.new ≡ effect_of o w (held_of v.old flags mem.old) }
{
    match o {
        Order::SetGeneral(_) => flags,
        Order::Compute(op) => computed(op, w, v, flags),
        Order::ReadStatus => {
            set_vector(v, w.d, status(flags));
            flags
        }
        Order::WriteStatus => from_status(vector(v, w.b), flags),
        Order::PatternLeft(s) => {
            set_vector(v, w.d, lvsl(s as u8));
            flags
        }
        Order::PatternRight(s) => {
            set_vector(v, w.d, lvsr(s as u8));
            flags
        }
        Order::ReadLine(at) => {
            let x = load(mem, at);
            set_vector(v, w.d, x);
            flags
        }
        Order::WriteLine(at) => {
            let x = vector(v, w.d);
            store(mem, at, x);
            flags
        }
        Order::ReadElement(e) => {
            let x = load_element(mem, e.at, e.place, e.bytes);
            set_vector(v, w.d, x);
            flags
        }
        Order::WriteElement(e) => {
            let x = vector(v, w.d);
            store_element(mem, e.at, e.place, e.bytes, x);
            flags
        }
    }
}

// What is done for the decoded word w: what it orders, and nothing where control refused it.
pub fn effect(
    o: Result<Order, Answer>,
    w: Decoded,
    v: &mut [u8; 512],
    flags: Flags,
    mem: &mut [u8],
) -> Flags
    requires { InFields w × Reaching o (length mem.old) }
    ensures { held_of v.new result mem.new ≡ effect_after o w (held_of v.old flags mem.old) }
{
    match o {
        Ok(order) => effect_of(order, w, v, flags, mem),
        Err(_) => flags,
    }
}
