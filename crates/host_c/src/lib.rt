// The archive for hosts in C and Rust: what the crate host gives them, under the names of include/card.h.
// A slice crosses as its address and its length.
#![tactic(auto)]

ghost use Rattle.std.specs.Prelude.{◌≡◌};
ghost use Rattle.machine.specs.Runs.{run_of};
ghost use Rattle.states.specs.States.{at_rest};
ghost use Rattle.host.specs.Reports.{Reports};

use host::CardReport;
use machine::Machine;

// A machine with all registers and bits zero.
#[unsafe(no_mangle)]
pub extern "C" fn card_new() -> Machine
    ensures { result ≡ at_rest }
{
    host::card_new()
}

// The words from a place on, as far as the allowance goes, over a memory whose first byte stands at base.
#[unsafe(no_mangle)]
pub extern "C" fn card_run(
    m: &mut Machine,
    code: &[u32],
    mem: &mut [u8],
    base: u32,
    place: u32,
    allowance: u32,
) -> CardReport
    ensures { Reports (run_of code.now mem.old base place allowance m.old) result m.new mem.new }
{
    host::card_run(m, code, mem, base, place, allowance)
}

// A step is a run with allowance 1.
#[unsafe(no_mangle)]
pub extern "C" fn card_step(
    m: &mut Machine,
    code: &[u32],
    mem: &mut [u8],
    base: u32,
    place: u32,
) -> CardReport
    ensures { Reports (run_of code.now mem.old base place 1 m.old) result m.new mem.new }
{
    host::card_step(m, code, mem, base, place)
}
