// The instructions that choose bytes or bits of registers, on vectors of 16 bytes.
#![tactic(auto)]

pub mod merges;
pub mod permutes;
pub mod shifts;

pub use merges::{vmrghb, vmrghh, vmrghw, vmrglb, vmrglh, vmrglw, vspltb, vsplth, vspltw};
pub use permutes::{lvsl, lvsr, vperm};
pub use shifts::{vsl, vsr};
