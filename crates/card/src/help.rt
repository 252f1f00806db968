// How card is used.
use files::say;

// Whether there are no arguments, or `help` alone; the first of args is the program's own name.
pub fn is_asked(args: &[Option<Vec<u8>>]) -> bool {
    match args {
        [_, Some(word)] => word.as_slice() == b"help".as_slice(),
        _ => args.len() < 2,
    }
}

const USAGE: &[u8] = b"usage: card KERNEL [name=value ..]
Runs a kernel file, raw big-endian words, and prints what it left.

  memory=FILE      the bytes of memory (default: none)
  base=N           the address of the first of them (default: 0)
  place=N          the word to begin with (default: 0)
  allowance=N      the most words to run (default: 4294967295)
  state=FILE       the machine at the start, 660 bytes (default: all zero)
  memory-out=FILE  where to write memory after the run
  state-out=FILE   where to write the machine after the run

Numbers are decimal, or hex after 0x. A state is 32 vectors, the quad word of
the status, 32 general registers and the condition register, big-endian.
The files of the two last names are written whole or not at all, and whatever
the run's answer is: they say what it left. Where an argument or a file is
wrong, a line says which and why, and nothing is run or written.

example: card correction.bin memory=correction.mem memory-out=corrected.mem
";

pub fn print(rt: &impl Print) {
    say(rt, USAGE);
}
