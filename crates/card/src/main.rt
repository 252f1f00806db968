// Runs a kernel file over a memory and a machine from files, prints what the run left, and writes it to files.
#![tactic(auto)]

mod given;
mod help;
mod loading;
mod refusal;

use files::{Reason, complain_of};
use given::{Given, args};
use refusal::{Fault, Refusal};
use std::alloc::Global;

// The most words of a kernel: one more than a run takes, so that the run itself refuses it. They stand in an array that is lent as a slice:
// a Vec of words would be filled by the same call.
const MOST_WORDS: usize = 16385;

// Reads all that the run needs, runs, writes what it left to the files that are named, and prints it.
fn perform<'a>(
    rt: &HostRuntime,
    err: &impl Print,
    path: &'a [u8],
    given: Given<'a>,
    alloc: Global,
) -> Result<(), Refusal<'a>> {
    given.two_outputs()?;
    let numbers = given.numbers()?;
    given.text_outputs()?;
    let raw = loading::kernel(rt, path, alloc)?;
    let mut code = [0u32; MOST_WORDS];
    let Some(count) = reading::words(&raw, &mut code) else {
        return Err(Refusal::Of(path, Fault::UnevenKernel));
    };
    let mut memory = loading::memory(rt, given.memory, alloc)?;
    let m = loading::start(rt, given.state, alloc)?;
    let outcome = m.run(
        &code[..count],
        &mut memory,
        numbers.base,
        numbers.place,
        numbers.allowance,
    );
    let after = outcome.m;
    loading::save(rt, given.memory_out, &memory, alloc)?;
    let mut state = [0u8; 660];
    states::state_of(after, &mut state);
    loading::save(rt, given.state_out, &state, alloc)?;
    printing::report(rt, err, outcome.report, after);
    printing::vectors(rt, err, after.v);
    printing::generals(rt, err, after.g);
    Ok(())
}

// A kernel's path that is too long to be taken stands for no name.
fn card<'a>(
    rt: &HostRuntime,
    err: &impl Print,
    args: &'a [Option<Vec<u8>>],
    alloc: Global,
) -> Result<(), Refusal<'a>> {
    let given = Given::of(args)?;
    let path: &[u8] = match args.get(1) {
        Some(Some(path)) => path,
        _ => b"",
    };
    perform(rt, err, path, given, alloc)
}

fn main(rt: HostRuntime) {
    let alloc = rt.alloc();
    let err = rt.stderr();
    let args = match args(&rt, alloc) {
        Ok(args) => args,
        Err(error) => {
            complain_of(&err, b"arguments", &Reason(&error));
            return;
        }
    };
    if help::is_asked(&args) {
        help::print(&rt);
        return;
    }
    if let Err(refusal) = card(&rt, &err, &args, alloc) {
        refusal.tell(&err);
    }
}
