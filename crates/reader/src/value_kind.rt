// The kinds of values; types have the same.
ghost use Rattle.std.specs.Prelude.{Some, codes};
ghost use Rattle.reader.specs.Kinds.{Tells};

use std::error::Error;
use std::fmt;

#[derive(Clone, Copy, Debug, PartialEq, Eq)]
pub enum ValueKind {
    Bool,
    Int,
    String,
    Entity,
    Set,
    Record,
}

// A byte that no value begins with.
#[derive(Clone, Copy, Debug, PartialEq, Eq)]
pub struct NoValue;

impl fmt::Display for NoValue {
    ghost output = { λ _. Some (codes "no value begins with the byte") };

    fn fmt<W: fmt::Write>(&self, f: &mut fmt::Formatter<W>) -> fmt::Result {
        f.write_str("no value begins with the byte")
    }
}

impl Error for NoValue {}

impl TryFrom<u8> for ValueKind {
    type Error = NoValue;

    ghost try_from_gives = { Tells };

    fn try_from(byte: u8) -> Result<Self, NoValue> {
        match byte {
            0 => Ok(ValueKind::Bool),
            1 => Ok(ValueKind::Int),
            2 => Ok(ValueKind::String),
            3 => Ok(ValueKind::Entity),
            4 => Ok(ValueKind::Set),
            5 => Ok(ValueKind::Record),
            _ => Err(NoValue),
        }
    }
}
