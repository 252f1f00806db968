// CONTROL: what is to be done for a decoded word, from the general registers and where the memory lies.
// It sees no vector, no byte of the memory, and neither SAT, NJ nor CR6.
#![tactic(auto)]

mod addresses;
pub mod answers;
mod kinds;
mod ordering;
pub mod orders;

ghost use Rattle.std.specs.Prelude.{◌≡◌};
ghost use Rattle.control.specs.Addresses.{well_placed};
ghost use Rattle.control.specs.Orders.{InFields, Controls};

pub use addresses::Region;
use answers::Answer;
use decode::Decoded;
use ordering::{order_for, set_general};
use orders::Order;

// The order for a word, or the answer that refuses it; of an addi, the general register is set.
pub fn control(w: Decoded, g: &mut [u32; 32], memory: Region) -> Result<Order, Answer>
    requires { InFields w }
    ensures { Controls w g.old memory.base memory.length result g.new }
{
    let order = order_for(w, g, memory)?;
    set_general(order, w.d, g);
    Ok(order)
}

// Whether the memory is well placed.
#[tactic(auto, unfolding(crate::specs::Addresses::well_placed))]
pub fn well_placed(memory: Region) -> bool
    ensures { result ≡ well_placed memory.base memory.length }
{
    let Region { base, length } = memory;
    base % 16 == 0 && length % 16 == 0 && length <= 65536 && base as usize + length <= 4294967296
}
