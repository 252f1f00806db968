// The machine: 32 vectors, 32 general registers, NJ, SAT and CR6; the run, the step, and the step in place.
#![tactic(auto)]

mod walk;

ghost use Rattle.std.specs.Prelude.{◌≡◌};
ghost use Rattle.machine.specs.Runs.{run_of, Gives};

pub use control::answers::Answer;
use control::{Region, well_placed};
use flags::Flags;
pub use walk::Report;
use walk::steps;

// Vector n is bytes 16 n to 16 n + 15 of v. CR6 is a number of four bits. The layout is C's, so that hosts can keep one; the header and the
// definitions name nj, sat and cr6 as the machine's own, so they go to `Flags` and back field by field.
#[repr(C)]
#[derive(Clone, Copy)]
pub struct Machine {
    pub v: [u8; 512],
    pub g: [u32; 32],
    pub nj: bool,
    pub sat: bool,
    pub cr6: u8,
}

// What a run hands back: how it ended, and the machine.
#[derive(Clone, Copy)]
pub struct Ran {
    pub report: Report,
    pub m: Machine,
}

impl Machine {
    // A run that does nothing.
    fn kept(self, answer: Answer, place: u32) -> Ran
        ensures { (result.report.answer ≡ answer) × (result.report.count ≡ 0) × (result.report.place ≡ place) × (result.m ≡ self) }
    {
        let report = Report {
            answer,
            count: 0,
            place,
        };
        Ran { report, m: self }
    }

    // The words from a place on, as far as the allowance goes, over a memory whose first byte stands at base. What is run stands apart here and in
    // `step`, as in the calls that C has.
    pub fn run(self, code: &[u32], mem: &mut [u8], base: u32, place: u32, allowance: u32) -> Ran
        ensures { Gives (run_of code.now mem.old base place allowance self) result.report result.m mem.new }
    {
        let memory = Region {
            base,
            length: mem.len(),
        };
        if !well_placed(memory) {
            return self.kept(Answer::Misplaced, place);
        }
        if 16384 < code.len() {
            return self.kept(Answer::LongCode, place);
        }
        if code.len() < place as usize {
            return self.kept(Answer::BadStart, place);
        }
        let mut v = self.v;
        let mut g = self.g;
        let flags = Flags {
            nj: self.nj,
            sat: self.sat,
            cr6: self.cr6,
        };
        let r = steps(&mut v, &mut g, flags, code, mem, base, place, allowance);
        let report = r.report;
        let f = r.flags;
        let m = Machine {
            v,
            g,
            nj: f.nj,
            sat: f.sat,
            cr6: f.cr6,
        };
        Ran { report, m }
    }

    // A step is a run with allowance 1.
    pub fn step(self, code: &[u32], mem: &mut [u8], base: u32, place: u32) -> Ran
        ensures { Gives (run_of code.now mem.old base place 1 self) result.report result.m mem.new }
    {
        self.run(code, mem, base, place, 1)
    }

    // The same step, on a machine that is lent.
    pub fn step_in_place(&mut self, code: &[u32], mem: &mut [u8], base: u32, place: u32) -> Report
        ensures { Gives (run_of code.now mem.old base place 1 self.old) result self.new mem.new }
    {
        let r = (*self).step(code, mem, base, place);
        *self = r.m;
        r.report
    }
}
