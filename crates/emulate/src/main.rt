// Document 01's printing program: code from standard input, a run from a machine of zeros with no memory, and the lines that it leaves.
#![tactic(auto)]

use files::{Reason, complain_of, read_all, say};
use std::alloc::Global;
use std::io;

// The most words that a run takes. They stand in an array that is lent as a slice: a Vec of words would be filled by the same call.
const MOST_WORDS: usize = 16384;

// Standard input, with a byte more than the most that is taken, so that a longer input shows.
fn input(rt: &HostRuntime, alloc: Global) -> io::Result<Vec<u8>> {
    read_all(&mut rt.stdin(), 4 * MOST_WORDS + 1, alloc)
}

fn run(rt: &impl Print, err: &impl Print, code: &[u32]) {
    let mut memory: [u8; 0] = [];
    let outcome = states::at_rest().run(code, &mut memory, 0, 0, 65536);
    let after = outcome.m;
    printing::report(rt, err, outcome.report, after);
    printing::vectors(rt, err, after.v);
}

fn main(rt: HostRuntime) {
    let err = rt.stderr();
    let bytes = match input(&rt, rt.alloc()) {
        Ok(bytes) => bytes,
        Err(error) => {
            complain_of(&err, b"standard input", &Reason(&error));
            return;
        }
    };
    let mut code = [0u32; MOST_WORDS];
    match reading::words(&bytes, &mut code) {
        Some(count) => run(&rt, &err, &code[..count]),
        None => say(&rt, b"bad input\n"),
    }
}
