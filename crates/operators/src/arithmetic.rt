// Arithmetic and comparison of integers: what leaves 64 bits is an error, and so is what is no integer.
ghost use Rattle.std.specs.Prelude.{◌≡◌, ℕ, Bool, List};
ghost use Rattle.spec.specs.Basics.{Except, ok};
ghost use Rattle.spec.specs.Values as s;
ghost use Rattle.spec.specs.Exprs.{neg, less, less_eq, add, sub, mul};
ghost use Rattle.spec.specs.Evaluate.{Error, of_bool, as_int};
ghost use Rattle.values.specs.Held.{Stands};
ghost use Rattle.operators.specs.Code.{Answers1, Answers2, ComesOfInts, CountsBy, TestsBy, int_of, counted};

use crate::errors::EvalError;
use values::Value;

// The integer that a value is. No TryFrom: the trait, Value and i64 are all of other crates, so the impl is refused.
fn as_int(v: Value) -> Result<i64, EvalError>
    ensures { (h : ℕ) (m : List ℕ) (a : s.Value) → Stands h m v a → as_int a ≡ int_of result }
{
    let Value::Int(i) = v else {
        return Err(EvalError::TypeError);
    };
    Ok(i)
}

// An integer, unless it left 64 bits.
fn in_bounds(z: Option<i64>) -> Result<Value, EvalError>
    ensures { result ≡ counted z }
{
    let z = z.ok_or(EvalError::ArithBoundsError)?;
    Ok(Value::Int(z))
}

// What two integers come to by a rule that can leave 64 bits.
fn arithmetic<F: FnOnce(i64, i64) -> Option<i64>>(
    v: Value,
    w: Value,
    f: F,
) -> Result<Value, EvalError>
    requires { F.IsAlwaysCallable f }
    ensures { (o : ℕ → ℕ → Except Error s.Value) → CountsBy (F.post f) o → ComesOfInts v w result o }
{
    let i = as_int(v)?;
    let j = as_int(w)?;
    in_bounds(f(i, j))
}

// What two integers come to by a test.
fn comparison<F: FnOnce(i64, i64) -> bool>(v: Value, w: Value, f: F) -> Result<Value, EvalError>
    requires { F.IsAlwaysCallable f }
    ensures { (o : ℕ → ℕ → Bool) → TestsBy (F.post f) o → ComesOfInts v w result (λ i j. ok (of_bool (o i j))) }
{
    let i = as_int(v)?;
    let j = as_int(w)?;
    Ok(Value::Bool(f(i, j)))
}

pub fn add(v: Value, w: Value) -> Result<Value, EvalError>
    ensures { Answers2 add v w result }
{
    arithmetic(v, w, i64::checked_add)
}

pub fn sub(v: Value, w: Value) -> Result<Value, EvalError>
    ensures { Answers2 sub v w result }
{
    arithmetic(v, w, i64::checked_sub)
}

pub fn mul(v: Value, w: Value) -> Result<Value, EvalError>
    ensures { Answers2 mul v w result }
{
    arithmetic(v, w, i64::checked_mul)
}

pub fn neg(v: Value) -> Result<Value, EvalError>
    ensures { Answers1 neg v result }
{
    let i = as_int(v)?;
    in_bounds(i.checked_neg())
}

pub fn less(v: Value, w: Value) -> Result<Value, EvalError>
    ensures { Answers2 less v w result }
{
    comparison(v, w, |i, j| i < j)
}

pub fn less_eq(v: Value, w: Value) -> Result<Value, EvalError>
    ensures { Answers2 less_eq v w result }
{
    comparison(v, w, |i, j| i <= j)
}
