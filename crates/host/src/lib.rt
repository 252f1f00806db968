// What hosts in C and Rust call: a machine to begin with, and the run and the step on a machine that the host keeps.
// include/card.h says it in C, and the crate host_c gives it to C in an archive.
#![tactic(auto)]

ghost use Rattle.std.specs.Prelude.{◌≡◌};
ghost use Rattle.machine.specs.Runs.{run_of};
ghost use Rattle.states.specs.States.{at_rest};
ghost use Rattle.host.specs.Reports.{report_of, Reports};

use machine::{Machine, Report};
use states::at_rest;

// How a run ended, by the number of its answer, as C has it; the words completed; the place of the next word.
#[repr(C)]
#[derive(Clone, Copy)]
pub struct CardReport {
    pub answer: u32,
    pub count: u32,
    pub place: u32,
}

impl From<Report> for CardReport {
    ghost from_gives = { λ r c. c ≡ report_of r };

    fn from(r: Report) -> CardReport {
        CardReport {
            answer: u32::from(r.answer),
            count: r.count,
            place: r.place,
        }
    }
}

// A machine with all registers and bits zero.
#[tactic(auto, unfolding(states::specs::States::at_rest))]
#[unsafe(no_mangle)]
pub extern "C" fn card_new() -> Machine
    ensures { result ≡ at_rest }
{
    at_rest()
}

// The words from a place on, as far as the allowance goes, over a memory whose first byte stands at base; what is run stands apart, as in C.
#[unsafe(no_mangle)]
pub extern "C" fn card_run(
    m: &mut Machine,
    code: &[u32],
    mem: &mut [u8],
    base: u32,
    place: u32,
    allowance: u32,
) -> CardReport
    ensures { Reports (run_of code.now mem.old base place allowance m.old) result m.new mem.new }
{
    let r = m.run(code, mem, base, place, allowance);
    *m = r.m;
    CardReport::from(r.report)
}

// A step is a run with allowance 1.
#[unsafe(no_mangle)]
pub extern "C" fn card_step(
    m: &mut Machine,
    code: &[u32],
    mem: &mut [u8],
    base: u32,
    place: u32,
) -> CardReport
    ensures { Reports (run_of code.now mem.old base place 1 m.old) result m.new mem.new }
{
    card_run(m, code, mem, base, place, 1)
}
