// The errors that an evaluation can end with.
ghost use Rattle.std.specs.Prelude.{Some};
ghost use Rattle.operators.specs.Messages.{error_text};

use std::error::Error;
use std::fmt;

// By the numbers that docs/NUMBERS.md has for them.
#[derive(Clone, Copy, Debug, PartialEq, Eq)]
pub enum EvalError {
    EntityDoesNotExist = 1,
    AttrDoesNotExist,
    TagDoesNotExist,
    TypeError,
    ArithBoundsError,
}

impl fmt::Display for EvalError {
    ghost output = { λ e. Some (error_text e) };

    fn fmt<W: fmt::Write>(&self, f: &mut fmt::Formatter<W>) -> fmt::Result {
        f.write_str(match self {
            EvalError::EntityDoesNotExist => "there is no such entity",
            EvalError::AttrDoesNotExist => "there is no such attribute",
            EvalError::TagDoesNotExist => "there is no such tag",
            EvalError::TypeError => "a value has the wrong type",
            EvalError::ArithBoundsError => "an integer leaves 64 bits",
        })
    }
}

impl Error for EvalError {}
