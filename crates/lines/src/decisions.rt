// The line of a decision: whether it is allowed, by which policies, which had errors, and what fits the schema.
ghost use Rattle.std.specs.Prelude.{◌≡◌, Bool, ◌∷◌, ◌++◌, string_bytes};
ghost use Rattle.spec.specs.Policies.{Response};
ghost use Rattle.spec.specs.Calls.{authorized};
ghost use Rattle.spec.specs.Bytes.{encode_bool, encode_answer};
ghost use Rattle.lines.specs.Answers.{line_of, fits_line};
ghost use Rattle.lines.specs.Results.{OkOr};

use crate::failures::LineError;
use crate::ids::ids_or;
use crate::parts::truth;
use answers::Decision;
use std::alloc::Global;

pub(crate) fn decided(heap: Global, answer: &[u8]) -> Result<String, LineError>
    ensures { (response : Response) (request entities : Bool) → 4 ∷ answer.now ≡ encode_answer (authorized response request entities) → OkOr result (λ line. string_bytes line ≡ line_of (authorized response request entities)) }
{
    let (decision, reasons) = answer.split_first().ok_or(LineError::NotAnAnswer)?;
    let decision = match Decision::try_from(*decision)? {
        Decision::Allow => "allowed",
        Decision::Deny => "not allowed",
    };
    let mut line = String::from_str(heap, decision)?;
    let errors = ids_or(&mut line, reasons, "", " by")?;
    line.push_str("; errors")?;
    let flags = ids_or(&mut line, errors, " none", "")?;
    fits(&mut line, flags)?;
    Ok(line)
}

// Appends whether the request and the entities fit: the last two bytes.
fn fits(line: &mut String, answer: &[u8]) -> Result<(), LineError>
    ensures { (request entities : Bool) → answer.now ≡ encode_bool request ++ encode_bool entities → OkOr result (λ _. string_bytes line.new ≡ string_bytes line.old ++ fits_line request entities) }
{
    let (request, left) = truth(answer)?;
    let (entities, left) = truth(left)?;
    if !left.is_empty() {
        return Err(LineError::NotAnAnswer);
    }
    line.push_str(if request {
        "; request fits"
    } else {
        "; request does not fit"
    })?;
    line.push_str(if entities {
        "; entities fit"
    } else {
        "; entities do not fit"
    })?;
    Ok(())
}
