// What sets hold: each operator first sees to it that its operands are sets.
ghost use Rattle.std.specs.Prelude.{◌≡◌, ℕ, List, IfOk};
ghost use Rattle.spec.specs.Values as s;
ghost use Rattle.spec.specs.Evaluate.{as_set};
ghost use Rattle.spec.specs.Exprs.{is_empty, contains as has, contains_all, contains_any};
ghost use Rattle.values.specs.Memory.{numbers};
ghost use Rattle.values.specs.Held.{Good, Stands};
ghost use Rattle.operators.specs.Code.{set_in, AnswersIn1, AnswersIn2};

use crate::errors::EvalError;
use values::{Memory, Value, sets};

// The place of the set that a value is. No TryFrom, for the same reason as `as_int` in arithmetic.rt.
fn as_set(v: Value) -> Result<usize, EvalError>
    ensures is { IfOk result (λ p. v ≡ Value.Set p) }
    ensures holds { (h : ℕ) (m : List ℕ) (a : s.Value) → Stands h m v a → as_set a ≡ set_in h m result }
{
    let Value::Set(p) = v else {
        return Err(EvalError::TypeError);
    };
    Ok(p)
}

pub fn is_empty(memory: &Memory<'_>, v: Value, height: u64) -> Result<Value, EvalError>
    requires good { Good height (numbers memory.now) v }
    ensures { AnswersIn1 height (numbers memory.now) is_empty v result }
{
    let p = as_set(v)?;
    Ok(Value::Bool(sets::is_empty(memory, p)))
}

// Whether w is in the set v.
pub fn contains(memory: &Memory<'_>, v: Value, w: Value, height: u64) -> Result<Value, EvalError>
    requires left { Good height (numbers memory.now) v }
    requires right { Good height (numbers memory.now) w }
    ensures { AnswersIn2 height (numbers memory.now) has v w result }
{
    let p = as_set(v)?;
    Ok(Value::Bool(sets::contains(memory, p, w, height)))
}

// Whether all that is in the set w is in the set v. This and `contains_any` are two and not one that takes what to ask of both sets: a closure would say again
// what `sets::contains_all` requires.
pub fn contains_all(
    memory: &Memory<'_>,
    v: Value,
    w: Value,
    height: u64,
) -> Result<Value, EvalError>
    requires left { Good height (numbers memory.now) v }
    requires right { Good height (numbers memory.now) w }
    ensures { AnswersIn2 height (numbers memory.now) contains_all v w result }
{
    let p = as_set(v)?;
    let q = as_set(w)?;
    Ok(Value::Bool(sets::contains_all(memory, p, q, height)))
}

// Whether some that is in the set v is in the set w.
pub fn contains_any(
    memory: &Memory<'_>,
    v: Value,
    w: Value,
    height: u64,
) -> Result<Value, EvalError>
    requires left { Good height (numbers memory.now) v }
    requires right { Good height (numbers memory.now) w }
    ensures { AnswersIn2 height (numbers memory.now) contains_any v w result }
{
    let p = as_set(v)?;
    let q = as_set(w)?;
    Ok(Value::Bool(sets::contains_any(memory, p, q, height)))
}
