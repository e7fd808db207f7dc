// The parts of an answer, each read from the beginning of what is left of it; what is left behind it is told too.
ghost use Rattle.std.specs.Prelude.{◌≡◌, ℕ, ◌+◌, ◌≤◌, List, ◌++◌, length, IfOk, IsOkAnd};
ghost use Rattle.spec.specs.Bytes.{encode_text};
ghost use Rattle.lines.specs.Parts.{TruthFirst};

use crate::failures::LineError;
use words::first_text;

// A truth: 1 or 0.
pub(crate) fn truth(answer: &[u8]) -> Result<(bool, &[u8]), LineError>
    ensures { TruthFirst answer.now result }
{
    match answer.split_first() {
        Some((0, rest)) => Ok((false, rest)),
        Some((1, rest)) => Ok((true, rest)),
        _ => Err(LineError::NotAnAnswer),
    }
}

// A text, behind its length.
pub(crate) fn text(answer: &[u8]) -> Result<(&[u8], &[u8]), LineError>
    ensures reads { (id rest : List ℕ) → answer.now ≡ encode_text id ++ rest → IsOkAnd result (λ p. (p.0.now ≡ id) × (p.1.now ≡ rest)) }
    ensures shorter { IfOk result (λ p. 8 + length p.1.now ≤ length answer.now) }
{
    first_text(answer).ok_or(LineError::NotAnAnswer)
}
