// The loop of a run. The machine is lent in parts, so that no word copies it; where the memory lies is said anew for each word, of the memory
// as it is lent.
ghost use Rattle.std.specs.Prelude.{true, ◌≡◌, ◌≤◌, length};
ghost use Rattle.control.specs.Addresses.{well_placed};
ghost use Rattle.machine.specs.Runs.{machine_of, walked_of, starts, runs, Gives};

use control::answers::Answer;
use control::{Region, control};
use decode::decode;
use effects::effect;
use flags::Flags;

// How a run ended, the words completed, and the place of the next word.
#[derive(Clone, Copy)]
pub struct Report {
    pub answer: Answer,
    pub count: u32,
    pub place: u32,
}

#[derive(Clone, Copy)]
pub struct Walked {
    pub report: Report,
    pub flags: Flags,
}

fn stopped(answer: Answer, count: u32, place: u32, flags: Flags) -> Walked
    ensures { result ≡ walked_of answer count place flags }
{
    let report = Report {
        answer,
        count,
        place,
    };
    Walked { report, flags }
}

pub fn steps(
    v: &mut [u8; 512],
    g: &mut [u32; 32],
    flags: Flags,
    code: &[u32],
    mem: &mut [u8],
    base: u32,
    place: u32,
    allowance: u32,
) -> Walked
    requires { (well_placed base (length mem.old) ≡ true) × (length code.now ≤ 16384) × (place ≤ length code.now) }
    ensures { Gives (runs code.now base allowance (starts place (machine_of v.old g.old flags) mem.old)) result.report (machine_of v.new g.new result.flags) mem.new }
{
    let mut f = flags;
    let n = code.len();
    for count in 0..allowance {
        let at = place + count;
        let k = at as usize;
        if k == n {
            return stopped(Answer::Done, count, at, f);
        }
        let w = decode(code[k]);
        let memory = Region {
            base,
            length: mem.len(),
        };
        let order = control(w, g, memory);
        if let Err(answer) = order {
            return stopped(answer, count, at, f);
        }
        f = effect(order, w, v, f, mem);
    }
    let at = place + allowance;
    if at as usize == n {
        return stopped(Answer::Done, allowance, at, f);
    }
    stopped(Answer::Spent, allowance, at, f)
}
