// The arguments: which name is given, and the numbers among the values.
use crate::refusal::{Fault, Refusal};
use files::name_of;
use reading::numbers::read;
use std::alloc::Global;
use std::env::FillError;
use std::io;
use std::rt::Env;

// The longest argument that is taken; std fills a buffer that it is lent.
const LONGEST: usize = 4096;

// The most arguments that are looked at: the program's own name, the kernel, and eight more. There are seven names, so one of eight is refused,
// and those behind it change nothing.
const MOST: usize = 10;

// The arguments in their order, the program's own name first, and no more than MOST; None for one that is too long.
pub type Args = Vec<Option<Vec<u8>>>;

pub fn args(rt: &impl Env, alloc: Global) -> io::Result<Args> {
    let mut args = Vec::new(alloc);
    let mut buf = [0u8; LONGEST];
    for i in 0..MOST {
        match rt.arg(i, &mut buf) {
            Ok(n) => args.push(Some(buf[..n].to_vec(alloc)?))?,
            Err(FillError::NotPresent) => break,
            Err(_) => args.push(None)?,
        }
    }
    Ok(args)
}

// An argument of the form name=value, and its value.
#[derive(Clone, Copy)]
pub struct Named<'a> {
    pub arg: &'a [u8],
    pub value: &'a [u8],
}

// What is given after the kernel.
#[derive(Clone, Copy)]
pub struct Given<'a> {
    pub memory: Option<Named<'a>>,
    pub state: Option<Named<'a>>,
    pub memory_out: Option<Named<'a>>,
    pub state_out: Option<Named<'a>>,
    base: Option<Named<'a>>,
    place: Option<Named<'a>>,
    allowance: Option<Named<'a>>,
}

const NOTHING: Given<'static> = Given {
    memory: None,
    state: None,
    memory_out: None,
    state_out: None,
    base: None,
    place: None,
    allowance: None,
};

#[derive(Clone, Copy)]
pub struct Numbers {
    pub base: u32,
    pub place: u32,
    pub allowance: u32,
}

// The number of an argument, or another where it is not given.
fn number_or(named: Option<Named<'_>>, other: u32) -> Result<u32, Refusal<'_>> {
    let Some(named) = named else {
        return Ok(other);
    };
    read(named.value).map_err(|error| Refusal::Of(named.arg, Fault::Number(error)))
}

// An output is refused before the run where its name is none that std takes.
fn text(named: Option<Named<'_>>) -> Result<(), Refusal<'_>> {
    let Some(named) = named else {
        return Ok(());
    };
    match name_of(named.value) {
        Ok(_) => Ok(()),
        Err(error) => Err(Refusal::Of(named.value, Fault::File(error.into()))),
    }
}

impl<'a> Given<'a> {
    pub fn of(args: &'a [Option<Vec<u8>>]) -> Result<Given<'a>, Refusal<'a>> {
        let mut given = NOTHING;
        for (i, arg) in args.iter().enumerate().skip(2) {
            match arg {
                Some(arg) => given.add(arg)?,
                None => return Err(Refusal::LongArgument(i)),
            }
        }
        Ok(given)
    }

    // One argument more.
    fn add(&mut self, arg: &'a [u8]) -> Result<(), Refusal<'a>> {
        let Some(end) = arg.iter().position(|&c| c == b'=') else {
            return Err(Refusal::Of(arg, Fault::NotNamed));
        };
        let name = &arg[..end];
        let slot = match name {
            b"memory" => &mut self.memory,
            b"state" => &mut self.state,
            b"memory-out" => &mut self.memory_out,
            b"state-out" => &mut self.state_out,
            b"base" => &mut self.base,
            b"place" => &mut self.place,
            b"allowance" => &mut self.allowance,
            _ => return Err(Refusal::Of(name, Fault::UnknownName)),
        };
        if slot.is_some() {
            return Err(Refusal::Of(name, Fault::GivenTwice));
        }
        *slot = Some(Named {
            arg,
            value: &arg[end + 1..],
        });
        Ok(())
    }

    // What is left must go to two files: two paths that are the same would lose the memory.
    pub fn two_outputs(self) -> Result<(), Refusal<'a>> {
        match (self.memory_out, self.state_out) {
            (Some(one), Some(other)) if one.value == other.value => {
                Err(Refusal::Of(other.arg, Fault::SameFile))
            }
            _ => Ok(()),
        }
    }

    // The first that is wrong is told.
    pub fn numbers(self) -> Result<Numbers, Refusal<'a>> {
        Ok(Numbers {
            base: number_or(self.base, 0)?,
            place: number_or(self.place, 0)?,
            allowance: number_or(self.allowance, u32::MAX)?,
        })
    }

    // It is asked before the run, so that nothing is run or written where a name is wrong.
    pub fn text_outputs(self) -> Result<(), Refusal<'a>> {
        text(self.memory_out)?;
        text(self.state_out)
    }
}
