// The operators, applied to values: none of them evaluates anything.
ghost use Rattle.std.specs.Prelude.{◌≡◌, ℕ, ◌^◌, ◌<◌, ◌≤◌, List, ◌++◌, length};
ghost use Rattle.spec.specs.Basics.{Except};
ghost use Rattle.spec.specs.Values as s;
ghost use Rattle.spec.specs.Evaluate.{Error, just_bool};
ghost use Rattle.values.specs.Memory.{numbers};
ghost use Rattle.values.specs.Held.{Good};
ghost use Rattle.operators.specs.Code.{Says};
ghost use Rattle.entities.specs.View.{known};
ghost use Rattle.entities.specs.Code.{AnswersOf2};
ghost use Rattle.exprs.specs.Stored.{op_of};
ghost use Rattle.evaluator.specs.Evaluated.{UnaryIn, AnswersOf1};

pub use entities::Env;
use entities::EnvView;
use exprs::BinaryOp;
use operators::like::like;
use operators::{EvalError, arithmetic, logic, sets};
use values::Value;

// What is done to one value; the numbers are places of texts. An enum and no closure: what each answers is stated of it by name (`unary_expr`).
#[derive(Clone, Copy, Debug, PartialEq, Eq)]
pub enum Unary {
    Not,
    Neg,
    IsEmpty,
    Like(usize),
    Is(usize),
    GetAttr(usize),
    HasAttr(usize),
}

pub fn apply_unary(view: &EnvView<'_>, op: Unary, v: Value, height: u64) -> Result<Value, EvalError>
    requires tall { 65 ≤ height }
    requires texts { UnaryIn (numbers view.now.memory) op }
    requires good { Good height (numbers view.now.memory) v }
    ensures { AnswersOf1 height (numbers view.now.memory) (known view.now) op v result }
{
    match op {
        Unary::Not => logic::not(v),
        Unary::Neg => arithmetic::neg(v),
        Unary::IsEmpty => sets::is_empty(&view.memory, v, height),
        Unary::Like(p) => like(&view.memory, v, p, height),
        Unary::Is(p) => logic::is(&view.memory, v, p, height),
        Unary::GetAttr(p) => view.get_attr(v, p, height),
        Unary::HasAttr(p) => view.has_attr(v, p, height),
    }
}

pub fn apply_binary(
    view: &EnvView<'_>,
    op: BinaryOp,
    v: Value,
    w: Value,
    height: u64,
) -> Result<Value, EvalError>
    requires tall { 65 ≤ height }
    requires left { Good height (numbers view.now.memory) v }
    requires right { Good height (numbers view.now.memory) w }
    ensures { AnswersOf2 height (numbers view.now.memory) (known view.now) (op_of op) v w result }
{
    match op {
        BinaryOp::Eq => logic::eq(&view.memory, v, w, height),
        BinaryOp::Mem => view.mem(v, w, height),
        BinaryOp::HasTag => view.has_tag(v, w, height),
        BinaryOp::GetTag => view.get_tag(v, w, height),
        BinaryOp::Less => arithmetic::less(v, w),
        BinaryOp::LessEq => arithmetic::less_eq(v, w),
        BinaryOp::Add => arithmetic::add(v, w),
        BinaryOp::Sub => arithmetic::sub(v, w),
        BinaryOp::Mul => arithmetic::mul(v, w),
        BinaryOp::Contains => sets::contains(&view.memory, v, w, height),
        BinaryOp::ContainsAll => sets::contains_all(&view.memory, v, w, height),
        BinaryOp::ContainsAny => sets::contains_any(&view.memory, v, w, height),
    }
}

// A truth value, as the second side of `and` and `or` has to be.
pub fn just_bool(r: Result<Value, EvalError>) -> Result<Value, EvalError>
    ensures { (h : ℕ) (m : List ℕ) (o : Except Error s.Value) → Says h m r o → Says h m result (just_bool o) }
{
    let Value::Bool(b) = r? else {
        return Err(EvalError::TypeError);
    };
    Ok(Value::Bool(b))
}
