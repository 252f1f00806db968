// The instructions that make new lanes across words, on vectors of 16 bytes: packs, unpacks, and the two sums across words.
#![tactic(auto)]

mod narrowed;
pub mod packs;
pub mod sums;
pub mod unpacks;

pub use packs::{vpkshss, vpkshus, vpkswss, vpkswus, vpkuhum, vpkuhus, vpkuwum, vpkuwus};
pub use sums::{vsum2sws, vsumsws};
pub use unpacks::{vupkhsb, vupkhsh, vupklsb, vupklsh};
