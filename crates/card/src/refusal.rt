// Why card refuses, and how it is told.
use files::{FileError, complain_of};
use reading::numbers::NumberError;
use std::fmt;
use std::fmt::Display;

// What is wrong with an argument, or with what it names.
#[derive(Debug, Clone, Copy)]
pub enum Fault {
    NotNamed,
    UnknownName,
    GivenTwice,
    SameFile,
    Number(NumberError),
    UnevenKernel,
    NotAState,
    File(FileError),
}

impl Display for Fault {
    fn fmt<W: fmt::Write>(&self, f: &mut fmt::Formatter<W>) -> fmt::Result {
        match self {
            Fault::NotNamed => f.write_str("not of the form name=value"),
            Fault::UnknownName => f.write_str("no such name; card help lists them"),
            Fault::GivenTwice => f.write_str("given twice"),
            Fault::SameFile => f.write_str("memory-out names the same file"),
            Fault::Number(error) => write!(f, "{error}"),
            Fault::UnevenKernel => f.write_str("the length is no multiple of 4"),
            Fault::NotAState => f.write_str("not 660 bytes long"),
            Fault::File(error) => write!(f, "{error}"),
        }
    }
}

#[derive(Debug, Clone, Copy)]
pub enum Refusal<'a> {
    // The argument at this place is longer than any that is taken.
    LongArgument(usize),
    // What is refused, in its own bytes, and why.
    Of(&'a [u8], Fault),
}

impl Refusal<'_> {
    pub fn tell(&self, err: &impl Print) {
        match self {
            Refusal::LongArgument(place) => {
                let _ = println!(err; "argument {place}: too long");
            }
            Refusal::Of(what, fault) => complain_of(err, what, fault),
        }
    }
}
