// What a run left, on standard output: the lines of document 01, and one for each general register.
#![tactic(auto)]

use files::{Reason, complain_of};
use lanes::none_true;
use machine::{Machine, Report};
use texts::{GeneralLine, ReportLine, VectorLine};

// Output and errors are the two handles that a program has. They stand apart, since a struct of both would be generic in each and be taken apart
// at every call.

// A line that cannot be written is told on standard error.
fn print(rt: &impl Print, err: &impl Print, line: &[u8]) {
    if let Err(error) = rt.write_all(line) {
        complain_of(err, b"standard output", &Reason(&error));
    }
}

// How the run ended, with SAT, NJ and CR6.
pub fn report(rt: &impl Print, err: &impl Print, r: Report, m: Machine) {
    let Report {
        answer,
        count,
        place,
    } = r;
    let report = ReportLine {
        number: u32::from(answer),
        count,
        place,
        sat: m.sat,
        nj: m.nj,
        cr6: m.cr6,
    };
    let mut line = [0u8; 80];
    let k = report.put(&mut line);
    print(rt, err, &line[..k]);
}

// Each vector that is not zero.
pub fn vectors(rt: &impl Print, err: &impl Print, v: [u8; 512]) {
    let mut line = [0u8; 80];
    for n in 0..32u32 {
        let x = lines::vector(&v, n as usize);
        if !none_true(x) {
            let k = VectorLine { n, x }.put(&mut line);
            print(rt, err, &line[..k]);
        }
    }
}

// Each general register that is not zero.
pub fn generals(rt: &impl Print, err: &impl Print, g: [u32; 32]) {
    let mut line = [0u8; 80];
    for (n, x) in (0..32u32).zip(g) {
        if x != 0 {
            let k = GeneralLine { n, x }.put(&mut line);
            print(rt, err, &line[..k]);
        }
    }
}
