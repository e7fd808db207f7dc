// What an answer says by a number: which answer it is, a refusal, why a policy does not check, and a decision.
ghost use Rattle.std.specs.Prelude.{◌≡◌, ◌++◌, Some, codes, decimal};
ghost use Rattle.spec.specs.Validate.{validation_error_number};
ghost use Rattle.spec.specs.Calls.{refusal_number};
ghost use Rattle.spec.specs.Bytes.{decision_number};
ghost use Rattle.answers.specs.Code.{refusal_of, why_of, decision_of, why_text, kind_number, IsKind, IsWhy, IsDecision};

use std::error::Error;
use std::fmt;

// Which answer it is, by its first byte.
#[derive(Clone, Copy, Debug, PartialEq, Eq)]
pub enum Kind {
    Refused = 0,
    Done = 1,
    AllValid = 2,
    NotValid = 3,
    Authorized = 4,
}

#[derive(Clone, Copy, Debug, PartialEq, Eq)]
pub enum Refusal {
    NotACall = 1,
    Inadmissible = 2,
    SchemaNotWellFormed = 3,
    NotFound = 4,
    OverCapacity = 5,
}

#[derive(Clone, Copy, Debug, PartialEq, Eq)]
pub enum Why {
    IncompatibleTypes = 1,
    UnexpectedType = 2,
    AttributeNotFound = 3,
    TagNotFound = 4,
    UnknownEntity = 5,
    EmptySet = 6,
    NeverTrue = 7,
}

#[derive(Clone, Copy, Debug, PartialEq, Eq)]
pub enum Decision {
    Deny = 0,
    Allow = 1,
}

// A number that none of them has.
#[derive(Clone, Copy, Debug, PartialEq, Eq)]
pub struct UnknownNumber(pub u8);

impl fmt::Display for UnknownNumber {
    ghost output = { λ unknown. Some (codes "unknown number " ++ decimal unknown.0) };

    fn fmt<W: fmt::Write>(&self, f: &mut fmt::Formatter<W>) -> fmt::Result {
        write!(f, "unknown number {}", self.0)
    }
}

impl Error for UnknownNumber {}

impl From<Kind> for u8 {
    ghost from_gives = { λ kind number. number ≡ kind_number kind };

    fn from(kind: Kind) -> u8 {
        kind as u8
    }
}

impl From<Refusal> for u8 {
    ghost from_gives = { λ refusal number. number ≡ refusal_number (refusal_of refusal) };

    fn from(refusal: Refusal) -> u8 {
        refusal as u8
    }
}

impl From<Why> for u8 {
    ghost from_gives = { λ why number. number ≡ validation_error_number (why_of why) };

    fn from(why: Why) -> u8 {
        why as u8
    }
}

impl From<Decision> for u8 {
    ghost from_gives = { λ decision number. number ≡ decision_number (decision_of decision) };

    fn from(decision: Decision) -> u8 {
        decision as u8
    }
}

impl TryFrom<u8> for Kind {
    type Error = UnknownNumber;

    ghost try_from_gives = { IsKind };

    fn try_from(number: u8) -> Result<Kind, UnknownNumber> {
        match number {
            0 => Ok(Kind::Refused),
            1 => Ok(Kind::Done),
            2 => Ok(Kind::AllValid),
            3 => Ok(Kind::NotValid),
            4 => Ok(Kind::Authorized),
            _ => Err(UnknownNumber(number)),
        }
    }
}

impl TryFrom<u8> for Why {
    type Error = UnknownNumber;

    ghost try_from_gives = { IsWhy };

    fn try_from(number: u8) -> Result<Why, UnknownNumber> {
        match number {
            1 => Ok(Why::IncompatibleTypes),
            2 => Ok(Why::UnexpectedType),
            3 => Ok(Why::AttributeNotFound),
            4 => Ok(Why::TagNotFound),
            5 => Ok(Why::UnknownEntity),
            6 => Ok(Why::EmptySet),
            7 => Ok(Why::NeverTrue),
            _ => Err(UnknownNumber(number)),
        }
    }
}

impl TryFrom<u8> for Decision {
    type Error = UnknownNumber;

    ghost try_from_gives = { IsDecision };

    fn try_from(number: u8) -> Result<Decision, UnknownNumber> {
        match number {
            0 => Ok(Decision::Deny),
            1 => Ok(Decision::Allow),
            _ => Err(UnknownNumber(number)),
        }
    }
}

impl fmt::Display for Why {
    ghost output = { λ why. Some (why_text (why_of why)) };

    fn fmt<W: fmt::Write>(&self, f: &mut fmt::Formatter<W>) -> fmt::Result {
        f.write_str(match self {
            Why::IncompatibleTypes => "incompatible types",
            Why::UnexpectedType => "unexpected type",
            Why::AttributeNotFound => "attribute not found",
            Why::TagNotFound => "tag not found",
            Why::UnknownEntity => "unknown entity or type",
            Why::EmptySet => "empty set",
            Why::NeverTrue => "never true",
        })
    }
}
