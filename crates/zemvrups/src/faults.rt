// What can go wrong in a run, and what is said of it.
use crate::MOST_CAPACITY;
use calls_file::CutOff;
use lines::LineError;
use std::alloc::AllocError;
use std::{fmt, io};

#[derive(Debug, Drop)]
pub enum Fault {
    Usage,
    Arguments(io::Error),
    Capacity(String),
    Unreadable(String, io::Error),
    CutOff(String, CutOff),
    Memory,
    NoAnswer,
    Output(io::Error),
}

impl fmt::Display for Fault {
    fn fmt<W: fmt::Write>(&self, f: &mut fmt::Formatter<W>) -> fmt::Result {
        match self {
            Fault::Usage => f.write_str("usage: zemvrups CAPACITY FILE"),
            Fault::Arguments(error) => write!(f, "can't read the arguments: {error}"),
            Fault::Capacity(text) => write!(
                f,
                "the capacity is a number from 1 to {MOST_CAPACITY}, and not '{text}'"
            ),
            Fault::Unreadable(file, error) => write!(f, "can't read {file}: {error}"),
            Fault::CutOff(file, cut) => write!(f, "{file} {cut}"),
            Fault::Memory => f.write_str("out of memory"),
            Fault::NoAnswer => f.write_str("the engine's bytes are no answer"),
            Fault::Output(error) => write!(f, "can't write the answers: {error}"),
        }
    }
}

impl From<AllocError> for Fault {
    fn from(_e: AllocError) -> Fault {
        Fault::Memory
    }
}

impl From<LineError> for Fault {
    fn from(e: LineError) -> Fault {
        match e {
            LineError::OutOfMemory => Fault::Memory,
            LineError::NotAnAnswer => Fault::NoAnswer,
        }
    }
}

impl From<io::Error> for Fault {
    fn from(e: io::Error) -> Fault {
        Fault::Output(e)
    }
}
