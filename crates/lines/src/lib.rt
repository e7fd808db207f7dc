// The line that is printed for an answer.
#![tactic(auto)]

ghost use Rattle.std.specs.Prelude.{◌≡◌, ℕ, ◌^◌, ◌<◌, [], ◌∷◌, string_bytes};
ghost use Rattle.spec.specs.Basics.{Text};
ghost use Rattle.spec.specs.Validate.{ValidationError};
ghost use Rattle.spec.specs.Calls.{Refusal, Answer, refused as any_refused, not_valid as any_not_valid};
ghost use Rattle.spec.specs.Bytes.{encode_answer};
ghost use Rattle.lines.specs.Answers.{Fit, line_of};
ghost use Rattle.lines.specs.Results.{OkOr};

mod decisions;
mod failures;
mod ids;
mod parts;
mod quotes;
#[cfg(test)]
mod tests;

use answers::{Kind, Why};
use decisions::decided;
pub use failures::LineError;
use parts::text;
pub use quotes::quoted;
use std::alloc::Global;
use words::word;

// The line of the answer that these bytes are, without an end of line.
pub fn line_of(heap: Global, answer: &[u8]) -> Result<String, LineError>
    ensures { (a : Answer) → Fit a → answer.now ≡ encode_answer a → OkOr result (λ line. string_bytes line ≡ line_of a) }
{
    let (kind, rest) = answer.split_first().ok_or(LineError::NotAnAnswer)?;
    match Kind::try_from(*kind)? {
        Kind::Refused => refused(heap, rest),
        Kind::Done => whole(heap, rest, "done"),
        Kind::AllValid => whole(heap, rest, "all policies checked"),
        Kind::NotValid => invalid(heap, rest),
        Kind::Authorized => decided(heap, rest),
    }
}

// What stands behind the kind of each answer.

// Nothing.
fn whole(heap: Global, answer: &[u8], text: &str) -> Result<String, LineError>
    ensures { answer.now ≡ [] → OkOr result (λ line. string_bytes line ≡ text.now) }
{
    if !answer.is_empty() {
        return Err(LineError::NotAnAnswer);
    }
    Ok(String::from_str(heap, text)?)
}

// The number of the refusal, which the line shows as it is, and the place.
fn refused(heap: Global, answer: &[u8]) -> Result<String, LineError>
    ensures { (refusal : Refusal) (place : ℕ) → place < 2 ^ 64 → 0 ∷ answer.now ≡ encode_answer (any_refused refusal place) → OkOr result (λ line. string_bytes line ≡ line_of (any_refused refusal place)) }
{
    let (refusal, place) = answer.split_first().ok_or(LineError::NotAnAnswer)?;
    if place.len() != 8 {
        return Err(LineError::NotAnAnswer);
    }
    let place = word(place, 0);
    Ok(format!(in heap; "refused {refusal} at {place}")?)
}

// The policy that does not check, and why.
fn invalid(heap: Global, answer: &[u8]) -> Result<String, LineError>
    ensures { (id : Text) (why : ValidationError) → 3 ∷ answer.now ≡ encode_answer (any_not_valid id why) → OkOr result (λ line. string_bytes line ≡ line_of (any_not_valid id why)) }
{
    let (id, left) = text(answer)?;
    let [number] = left else {
        return Err(LineError::NotAnAnswer);
    };
    let why = Why::try_from(*number)?;
    let mut line = String::from_str(heap, "policy ")?;
    quoted(&mut line, id)?;
    write!(line, " does not check: {number} ({why})")?;
    Ok(line)
}
