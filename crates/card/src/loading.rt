// The files that arguments name.
use crate::given::Named;
use crate::refusal::{Fault, Refusal};
use files::{read_file, write_whole};
use machine::Machine;
use std::alloc::Global;
use std::random::RandomSource;
use std::rt::Files;

// The most bytes of a kernel: a word more than a run takes, so that the run itself refuses it.
const MOST_CODE: usize = 65540;

// The most bytes of a memory: a line more than a run takes.
const MOST_MEMORY: usize = 65552;

const STATE: usize = 660;

fn file<'a, R: Files>(
    rt: &R,
    path: &'a [u8],
    most: usize,
    alloc: Global,
) -> Result<Vec<u8>, Refusal<'a>> {
    read_file(rt, path, most, alloc).map_err(|error| Refusal::Of(path, Fault::File(error)))
}

pub fn kernel<'a, R: Files>(rt: &R, path: &'a [u8], alloc: Global) -> Result<Vec<u8>, Refusal<'a>> {
    file(rt, path, MOST_CODE, alloc)
}

// Nothing where no memory is given.
pub fn memory<'a, R: Files>(
    rt: &R,
    named: Option<Named<'a>>,
    alloc: Global,
) -> Result<Vec<u8>, Refusal<'a>> {
    match named {
        Some(named) => file(rt, named.value, MOST_MEMORY, alloc),
        None => Ok(Vec::new(alloc)),
    }
}

// The machine at the start: all zero where no state is given.
pub fn start<'a, R: Files>(
    rt: &R,
    named: Option<Named<'a>>,
    alloc: Global,
) -> Result<Machine, Refusal<'a>> {
    let Some(named) = named else {
        return Ok(states::at_rest());
    };
    let bytes = file(rt, named.value, STATE, alloc)?;
    states::machine_of(&bytes).ok_or(Refusal::Of(named.arg, Fault::NotAState))
}

// Bytes to the file that an argument names, and nowhere where it is not given.
pub fn save<'a, R: Files + RandomSource>(
    rt: &R,
    named: Option<Named<'a>>,
    bytes: &[u8],
    alloc: Global,
) -> Result<(), Refusal<'a>> {
    let Some(named) = named else {
        return Ok(());
    };
    write_whole(rt, named.value, bytes, alloc).map_err(|error| Refusal::Of(
        named.value,
        Fault::File(error),
    ))
}
