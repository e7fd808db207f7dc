// Why there is no line.
ghost use Rattle.std.specs.Prelude.{◌≡◌, Some, codes};
ghost use Rattle.lines.specs.Failures.{failure_text};
ghost use Rattle.lines.specs.declared.failures.LineError.TheVariants.{OutOfMemory, NotAnAnswer};

use answers::UnknownNumber;
use std::alloc::AllocError;
use std::error::Error;
use std::fmt;

#[derive(Clone, Copy, Debug, PartialEq, Eq)]
pub enum LineError {
    OutOfMemory,
    NotAnAnswer,
}

impl From<AllocError> for LineError {
    ghost from_gives = { λ _ r. r ≡ OutOfMemory };

    fn from(_e: AllocError) -> LineError {
        LineError::OutOfMemory
    }
}

impl From<UnknownNumber> for LineError {
    ghost from_gives = { λ _ r. r ≡ NotAnAnswer };

    fn from(_e: UnknownNumber) -> LineError {
        LineError::NotAnAnswer
    }
}

impl fmt::Display for LineError {
    ghost output = { λ failure. Some (failure_text failure) };

    fn fmt<W: fmt::Write>(&self, f: &mut fmt::Formatter<W>) -> fmt::Result {
        f.write_str(match self {
            LineError::OutOfMemory => "out of memory",
            LineError::NotAnAnswer => "the bytes are no answer",
        })
    }
}

impl Error for LineError {}
