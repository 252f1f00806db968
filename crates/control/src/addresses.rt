// Document 01, "Addresses": of the general registers, what addi gives and which item of the memory is meant.
ghost use Rattle.std.specs.Prelude.{◌≡◌, ◌<◌};
ghost use Rattle.control.specs.Addresses.{or_zero, address_of, extended, sum_of, aligned, item_of};
ghost use Rattle.lanes.specs.Numbers.{bytes_in};

use lanes::Size;

// Where the memory lies: the address of its first byte, and how many bytes it has.
#[derive(Clone, Copy)]
pub struct Region {
    pub base: u32,
    pub length: usize,
}

// rA, or the number 0 where the field is 0.
#[tactic(auto, unfolding(crate::specs::Addresses::or_zero))]
fn or_zero(g: &[u32; 32], a: usize) -> u32
    requires { a < 32 }
    ensures { result ≡ or_zero g.now a }
{
    if a == 0 { 0 } else { g[a] }
}

// Addresses and addi wrap on purpose.
#[tactic(auto, unfolding(crate::specs::Addresses::address_of))]
pub fn address(g: &[u32; 32], a: usize, b: usize) -> u32
    requires { (a < 32) × (b < 32) }
    ensures { result ≡ address_of g.now a b }
{
    or_zero(g, a).wrapping_add(g[b])
}

// An immediate of sixteen bits, sign-extended.
#[tactic(auto, unfolding(crate::specs::Addresses::extended))]
fn extend(n: u32) -> u32
    requires { n < 65536 }
    ensures { result ≡ extended n }
{
    if n < 32768 { n } else { n + 4294901760 }
}

// addi
#[tactic(auto, unfolding(crate::specs::Addresses::sum_of))]
pub fn sum(g: &[u32; 32], a: usize, n: u32) -> u32
    requires { (a < 32) × (n < 65536) }
    ensures { result ≡ sum_of g.now a n }
{
    or_zero(g, a).wrapping_add(extend(n))
}

// How many bytes an element has.
pub fn bytes(width: Size) -> usize
    ensures { result ≡ bytes_in width }
{
    match width {
        Size::Byte => 1,
        Size::Half => 2,
        Size::Word => 4,
    }
}

// The address of an element: the low bits are cleared.
pub fn element(x: u32, width: Size) -> u32
    ensures { result ≡ aligned (bytes_in width) x }
{
    match width {
        Size::Byte => x,
        Size::Half => x / 2 * 2,
        Size::Word => x / 4 * 4,
    }
}

// Where the item at address e starts, counted from the memory's first byte; none where it is outside.
#[tactic(auto, unfolding(crate::specs::Addresses::item_of))]
pub fn find(e: u32, memory: Region) -> Option<usize>
    ensures { result ≡ item_of e memory.base memory.length }
{
    let k = e.checked_sub(memory.base)? as usize;
    if k < memory.length { Some(k) } else { None }
}
