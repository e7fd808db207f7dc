// The lists of ids of an answer, appended to its line.
ghost use Rattle.std.specs.Prelude.{string_bytes};
ghost use Rattle.lines.specs.Quotes.{quotes, quotes_or};
ghost use Rattle.lines.specs.Results.{Lists};

use crate::failures::LineError;
use crate::parts::text;
use crate::quotes::{put, quoted};

// Appends each id of the list, behind a blank, and gives what is left behind the list.
fn ids<'a>(line: &mut String, answer: &'a [u8]) -> Result<&'a [u8], LineError>
    ensures { Lists quotes answer.entry.now (string_bytes line.old) (string_bytes line.new) result }
{
    let mut left = answer;
    while let Some((mark, rest)) = left.split_first() {
        match mark {
            0 => return Ok(rest),
            1 => {
                let (id, rest) = text(rest)?;
                put(line, b' ')?;
                quoted(line, id)?;
                left = rest;
            }
            _ => return Err(LineError::NotAnAnswer),
        }
    }
    Err(LineError::NotAnAnswer)
}

// The same, behind `before`; for an empty list just `none`.
pub(crate) fn ids_or<'a>(
    line: &mut String,
    answer: &'a [u8],
    none: &str,
    before: &str,
) -> Result<&'a [u8], LineError>
    ensures { Lists (quotes_or none.now before.now) answer.entry.now (string_bytes line.old) (string_bytes line.new) result }
{
    let (mark, rest) = answer.split_first().ok_or(LineError::NotAnAnswer)?;
    if *mark == 0 {
        line.push_str(none)?;
        return Ok(rest);
    }
    line.push_str(before)?;
    ids(line, answer)
}
