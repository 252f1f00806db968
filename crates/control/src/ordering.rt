// The order for a word, and what it does to the general registers.
ghost use Rattle.std.specs.Prelude.{◌≡◌, ◌<◌, ok_or, option_map};
ghost use Rattle.control.specs.Addresses.{address_of, sum_of, aligned, item_of};
ghost use Rattle.lanes.specs.Numbers.{bytes_in};
ghost use Rattle.control.specs.Kinds.{kind_of};
ghost use Rattle.control.specs.Orders.{element, order_in, order_of, general_of, InFields};

use crate::addresses::{Region, address, bytes, element, find, sum};
use crate::answers::Answer;
use crate::kinds::{Kind, kind_of};
use crate::orders::{Element, Order};
use decode::Decoded;
use encodings::ops::Op;
use lanes::Size;

// The line with the byte at address x, or answer 7.
fn line_at(x: u32, memory: Region) -> Result<usize, Answer>
    ensures { result ≡ ok_or (item_of (aligned 16 x) memory.base memory.length) Answer.Outside }
{
    find(x / 16 * 16, memory).ok_or(Answer::Outside)
}

// The element of that width with the byte at address x, or answer 7.
fn element_at(x: u32, width: Size, memory: Region) -> Result<Element, Answer>
    ensures { result ≡ ok_or (option_map (element (aligned (bytes_in width) x) (bytes_in width)) (item_of (aligned (bytes_in width) x) memory.base memory.length)) Answer.Outside }
{
    let e = element(x, width);
    let k = find(e, memory).ok_or(Answer::Outside)?;
    Ok(Element {
        at: k / 16 * 16,
        place: (e % 16) as usize,
        bytes: bytes(width),
    })
}

// What the kind of an operation orders, or answer 7 where its item is outside the memory. A load and a store differ in the order alone, which
// stands once for each, as in the definition.
fn order_in(op: Op, w: Decoded, g: &[u32; 32], memory: Region) -> Result<Order, Answer>
    requires { InFields w }
    ensures { result ≡ order_in (kind_of op) op (address_of g.now w.a w.b) (sum_of g.now w.a w.imm) memory.base memory.length }
{
    match kind_of(op) {
        Kind::Vector => Ok(Order::Compute(op)),
        Kind::GetStatus => Ok(Order::ReadStatus),
        Kind::PutStatus => Ok(Order::WriteStatus),
        Kind::LeftPattern => Ok(Order::PatternLeft((address(g, w.a, w.b) % 16) as usize)),
        Kind::RightPattern => Ok(Order::PatternRight((address(g, w.a, w.b) % 16) as usize)),
        Kind::GetElement(width) => {
            let e = element_at(address(g, w.a, w.b), width, memory)?;
            Ok(Order::ReadElement(e))
        }
        Kind::GetLine => {
            let k = line_at(address(g, w.a, w.b), memory)?;
            Ok(Order::ReadLine(k))
        }
        Kind::PutElement(width) => {
            let e = element_at(address(g, w.a, w.b), width, memory)?;
            Ok(Order::WriteElement(e))
        }
        Kind::PutLine => {
            let k = line_at(address(g, w.a, w.b), memory)?;
            Ok(Order::WriteLine(k))
        }
        Kind::AddScalar => Ok(Order::SetGeneral(sum(g, w.a, w.imm))),
    }
}

// The order for a word: answer 5, then 6, then 7.
#[tactic(auto, unfolding(crate::specs::Orders::order_of))]
pub fn order_for(w: Decoded, g: &[u32; 32], memory: Region) -> Result<Order, Answer>
    requires { InFields w }
    ensures { result ≡ order_of w g.now memory.base memory.length }
{
    let op = w.op.ok_or(Answer::NoInstruction)?;
    if w.stray {
        return Err(Answer::Reserved);
    }
    order_in(op, w, g, memory)
}

// The general registers after an order, D being d.
pub fn set_general(o: Order, d: usize, g: &mut [u32; 32])
    requires { d < 32 }
    ensures { g.new ≡ general_of o d g.old }
{
    match o {
        Order::SetGeneral(value) => g[d] = value,
        _ => {}
    }
}
