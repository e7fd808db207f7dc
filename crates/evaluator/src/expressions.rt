// The evaluator: expressions whose rows lie in the store, to a height that falls. Values that are made lie in the work memory, from its top on, and what
// expressions come to is told by place.
ghost use Rattle.std.specs.Prelude.{◌≡◌, ℕ, suc, ◌+◌, ◌*◌, ◌^◌, ◌<◌, ◌≤◌, length, true, false, slice_index};
ghost use Rattle.spec.specs.Exprs.{ite, binary_app, set, record_of};
ghost use Rattle.spec.specs.Evaluate.{evaluate};
ghost use Rattle.values.specs.Making.{up_to};
ghost use Rattle.operators.specs.Code.{Says};
ghost use Rattle.exprs.specs.Heads.{size};
ghost use Rattle.exprs.specs.Stored.{op_of, exprs_from, attrs_from, means_expr, expr_at, sizes, attr_sizes, weight, Row, RowsFrom, AttrsFrom, SoundExpr, GoodExpr};
ghost use Rattle.entities.specs.Rows.{entities_at, EntitiesIn, request_at, RequestIn};
ghost use Rattle.evaluator.specs.Evaluated.{Moved, UnaryIn, unary_expr, var_value};
ghost use Rattle.evaluator.specs.Running.{made, IsAsked, comes_to, Tells, GoodRow, size_of, expr_of, HasRoom, Moves, logic};

use crate::apply::{Unary, apply_binary, apply_unary, just_bool};
use crate::running::{Inputs, Work};
use entities::Env;
use exprs::{BinaryOp, Expr, Var, read};
use operators::EvalError;
use values::Value;
use values::records::{lay_attr, make_record};
use values::sets::{lay_element, make_set};

// What the expression comes to whose row lies at place `at` of the store. It takes what is lent as its callers have it, and promises what it promised, so it
// has no `Inputs` and no `Work`.
#[cycle(evaluation)]
pub fn eval(
    store: &[u64],
    work: &mut [u64],
    top: &mut usize,
    env: Env,
    at: usize,
    height: u64,
) -> Result<Value, EvalError>
    requires low { height ≤ 65 }
    requires good { Row (GoodExpr height store.now) store.now at }
    requires room { top.old + 4 * size store.now at ≤ length work.old }
    requires all { EntitiesIn store.now env.entities }
    requires asked { RequestIn store.now (up_to store.now work.old top.old) env.entities env.request }
    ensures moves { Moved work.old work.new top.old top.new (size store.now at) }
    ensures says { Says (height + 65) (up_to store.now work.new top.new) result (evaluate (expr_at height store.now at) (request_at (up_to store.now work.old top.old) env.request) (entities_at store.now env.entities)) }
{
    let mut work = Work {
        numbers: work,
        top: *top,
    };
    let inputs = Inputs {
        store,
        env: &env,
        height,
    };
    let result = eval_row(inputs, &mut work, at);
    let Work {
        numbers: _,
        top: end,
    } = work;
    *top = end;
    result
}

#[cycle(evaluation)]
fn eval_row(inputs: Inputs<'_>, work: &mut Work<'_>, at: usize) -> Result<Value, EvalError>
    requires good { GoodRow inputs at }
    requires room { HasRoom work.old (size_of inputs at) }
    requires asked { IsAsked inputs work.old }
    ensures same { work.new.numbers.ghost_name ≡ work.old.numbers.ghost_name }
    ensures moves { Moves work.old work.new (size_of inputs.entry at) }
    ensures says { Says (inputs.entry.height + 65) (made inputs.entry work.new) result (comes_to inputs.entry work.old (expr_of inputs.entry at)) }
{
    if inputs.height == 0 {
        return Err(EvalError::TypeError);
    }
    let lower = Inputs {
        store: inputs.store,
        env: inputs.env,
        height: inputs.height - 1,
    };
    eval_form(lower, work, read(inputs.store, at))
}

#[cycle(evaluation)]
fn eval_form(inputs: Inputs<'_>, work: &mut Work<'_>, e: Expr) -> Result<Value, EvalError>
    requires good { SoundExpr (GoodExpr inputs.height inputs.store.now) inputs.store.now e }
    requires room { HasRoom work.old (weight inputs.store.now e) }
    requires asked { IsAsked inputs work.old }
    ensures same { work.new.numbers.ghost_name ≡ work.old.numbers.ghost_name }
    ensures moves { Moves work.old work.new (weight inputs.entry.store.now e) }
    ensures says { Tells inputs.entry work.old work.new result (means_expr (expr_at inputs.entry.height inputs.entry.store.now) inputs.entry.store.now e) }
{
    match e {
        Expr::Bool(b) => Ok(Value::Bool(b)),
        Expr::Int(i) => Ok(Value::Int(i)),
        Expr::String(p) => Ok(Value::String(p)),
        Expr::Entity(p) => Ok(Value::Entity(p)),
        Expr::Var(v) => Ok(value_of(inputs.env, v)),
        Expr::If(x, y, z) => eval_if(inputs, work, x, y, z),
        Expr::And(x, y) => eval_logic(inputs, work, false, x, y),
        Expr::Or(x, y) => eval_logic(inputs, work, true, x, y),
        Expr::Not(x) => eval_unary(inputs, work, Unary::Not, x),
        Expr::Neg(x) => eval_unary(inputs, work, Unary::Neg, x),
        Expr::IsEmpty(x) => eval_unary(inputs, work, Unary::IsEmpty, x),
        Expr::Like(p, x) => eval_unary(inputs, work, Unary::Like(p), x),
        Expr::Is(p, x) => eval_unary(inputs, work, Unary::Is(p), x),
        Expr::Binary(op, x, y) => eval_binary(inputs, work, op, x, y),
        Expr::GetAttr(p, x) => eval_unary(inputs, work, Unary::GetAttr(p), x),
        Expr::HasAttr(p, x) => eval_unary(inputs, work, Unary::HasAttr(p), x),
        Expr::Set(n, first) => eval_set(inputs, work, n, first),
        Expr::Record(n, first) => eval_record(inputs, work, n, first),
    }
}

// The words of an expression stand for what is asked.
fn value_of(env: &Env, v: Var) -> Value
    ensures { result ≡ var_value env.now v }
{
    match v {
        Var::Principal => Value::Entity(env.request.principal.uid),
        Var::Action => Value::Entity(env.request.action.uid),
        Var::Resource => Value::Entity(env.request.resource.uid),
        Var::Context => Value::Record(env.request.context),
    }
}

#[cycle(evaluation)]
fn eval_if(
    inputs: Inputs<'_>,
    work: &mut Work<'_>,
    x: usize,
    y: usize,
    z: usize,
) -> Result<Value, EvalError>
    requires test { GoodRow inputs x }
    requires then { GoodRow inputs y }
    requires other { GoodRow inputs z }
    requires room { HasRoom work.old (2 + size_of inputs x + size_of inputs y + size_of inputs z) }
    requires asked { IsAsked inputs work.old }
    ensures same { work.new.numbers.ghost_name ≡ work.old.numbers.ghost_name }
    ensures moves { Moves work.old work.new (2 + size_of inputs.entry x + size_of inputs.entry y + size_of inputs.entry z) }
    ensures says { Tells inputs.entry work.old work.new result (ite (expr_of inputs.entry x) (expr_of inputs.entry y) (expr_of inputs.entry z)) }
{
    let Value::Bool(b) = eval_row(inputs, work, x)? else {
        return Err(EvalError::TypeError);
    };
    eval_row(inputs, work, if b { y } else { z })
}

// `and` is decided by a first side that is false, `or` by one that is true: then the second is not looked at.
#[cycle(evaluation)]
fn eval_logic(
    inputs: Inputs<'_>,
    work: &mut Work<'_>,
    decides: bool,
    x: usize,
    y: usize,
) -> Result<Value, EvalError>
    requires left { GoodRow inputs x }
    requires right { GoodRow inputs y }
    requires room { HasRoom work.old (2 + size_of inputs x + size_of inputs y) }
    requires asked { IsAsked inputs work.old }
    ensures same { work.new.numbers.ghost_name ≡ work.old.numbers.ghost_name }
    ensures moves { Moves work.old work.new (2 + size_of inputs.entry x + size_of inputs.entry y) }
    ensures says { Tells inputs.entry work.old work.new result (logic decides (expr_of inputs.entry x) (expr_of inputs.entry y)) }
{
    let Value::Bool(b) = eval_row(inputs, work, x)? else {
        return Err(EvalError::TypeError);
    };
    if b == decides {
        return Ok(Value::Bool(decides));
    }
    let w = eval_row(inputs, work, y);
    just_bool(w)
}

#[cycle(evaluation)]
fn eval_unary(
    inputs: Inputs<'_>,
    work: &mut Work<'_>,
    op: Unary,
    x: usize,
) -> Result<Value, EvalError>
    requires texts { UnaryIn inputs.store.now op }
    requires good { GoodRow inputs x }
    requires room { HasRoom work.old (2 + size_of inputs x) }
    requires asked { IsAsked inputs work.old }
    ensures same { work.new.numbers.ghost_name ≡ work.old.numbers.ghost_name }
    ensures moves { Moves work.old work.new (2 + size_of inputs.entry x) }
    ensures says { Tells inputs.entry work.old work.new result (unary_expr inputs.entry.store.now op (expr_of inputs.entry x)) }
{
    let v = eval_row(inputs, work, x)?;
    apply_unary(&work.view(inputs), op, v, inputs.height + 66)
}

// Both sides are looked at before either is found to be of a wrong type. They are matched as a pair: both are evaluated, and the first failure is told.
#[cycle(evaluation)]
fn eval_binary(
    inputs: Inputs<'_>,
    work: &mut Work<'_>,
    op: BinaryOp,
    x: usize,
    y: usize,
) -> Result<Value, EvalError>
    requires left { GoodRow inputs x }
    requires right { GoodRow inputs y }
    requires room { HasRoom work.old (3 + size_of inputs x + size_of inputs y) }
    requires asked { IsAsked inputs work.old }
    ensures same { work.new.numbers.ghost_name ≡ work.old.numbers.ghost_name }
    ensures moves { Moves work.old work.new (3 + size_of inputs.entry x + size_of inputs.entry y) }
    ensures says { Tells inputs.entry work.old work.new result (binary_app (op_of op) (expr_of inputs.entry x) (expr_of inputs.entry y)) }
{
    let left = eval_row(inputs, work, x);
    let right = eval_row(inputs, work, y);
    match (left, right) {
        (Err(e), _) => Err(e),
        (Ok(_), Err(e)) => Err(e),
        (Ok(v), Ok(w)) => apply_binary(&work.view(inputs), op, v, w, inputs.height + 66),
    }
}

// The same as `eval_row`, where the work memory from `limit` on holds what waits, and stays.
#[cycle(evaluation)]
fn eval_below(
    inputs: Inputs<'_>,
    work: &mut Work<'_>,
    limit: usize,
    at: usize,
) -> Result<Value, EvalError>
    requires fits { limit ≤ length work.old.numbers.now }
    requires good { GoodRow inputs at }
    requires room { work.old.top + 4 * size_of inputs at ≤ limit }
    requires asked { IsAsked inputs work.old }
    ensures same { work.new.numbers.ghost_name ≡ work.old.numbers.ghost_name }
    ensures moves { Moves work.old work.new (size_of inputs.entry at) }
    ensures beyond { (i : ℕ) → limit ≤ i → slice_index work.new.numbers.now i ≡ slice_index work.old.numbers.now i }
    ensures says { Says (inputs.entry.height + 65) (made inputs.entry work.new) result (comes_to inputs.entry work.old (expr_of inputs.entry at)) }
{
    let part = &mut work.numbers[..limit];
    eval(
        inputs.store,
        part,
        &mut work.top,
        *inputs.env,
        at,
        inputs.height,
    )
}

// The elements wait at the end of the work memory until all of them have come to something.
#[cycle(evaluation)]
fn eval_set(
    inputs: Inputs<'_>,
    work: &mut Work<'_>,
    n: usize,
    first: usize,
) -> Result<Value, EvalError>
    requires good { RowsFrom (GoodExpr inputs.height inputs.store.now) inputs.store.now first n }
    requires room { HasRoom work.old (3 + sizes inputs.store.now first n) }
    requires asked { IsAsked inputs work.old }
    ensures same { work.new.numbers.ghost_name ≡ work.old.numbers.ghost_name }
    ensures moves { Moves work.old work.new (3 + sizes inputs.entry.store.now first n) }
    ensures says { Tells inputs.entry work.old work.new result (set (exprs_from (expr_at inputs.entry.height inputs.entry.store.now) inputs.entry.store.now first n)) }
{
    let limit = work.numbers.len() - 2 * n;
    let mut at = first;
    // rows have lengths of their own, so the next is found from the one before it
    for k in 0..n {
        let v = eval_below(inputs, work, limit, at)?;
        lay_element(work.numbers, limit + 2 * k, v);
        at += inputs.store[at + 1] as usize;
    }
    let set = make_set(
        inputs.store,
        work.numbers,
        &mut work.top,
        limit,
        n,
        inputs.height + 65,
    );
    Ok(set)
}

// So do the attributes of a record; a name stands before each row and waits with its value, so the walk and what is proved of it are not those of a set.
#[cycle(evaluation)]
fn eval_record(
    inputs: Inputs<'_>,
    work: &mut Work<'_>,
    n: usize,
    first: usize,
) -> Result<Value, EvalError>
    requires good { AttrsFrom (GoodExpr inputs.height inputs.store.now) inputs.store.now first n }
    requires room { HasRoom work.old (3 + attr_sizes inputs.store.now first n) }
    requires asked { IsAsked inputs work.old }
    ensures same { work.new.numbers.ghost_name ≡ work.old.numbers.ghost_name }
    ensures moves { Moves work.old work.new (3 + attr_sizes inputs.entry.store.now first n) }
    ensures says { Tells inputs.entry work.old work.new result (record_of (attrs_from (expr_at inputs.entry.height inputs.entry.store.now) inputs.entry.store.now first n)) }
{
    let limit = work.numbers.len() - 3 * n;
    let mut name = first;
    // names and rows have lengths of their own, so the next is found from the one before it
    for k in 0..n {
        let at = name + 1 + inputs.store[name] as usize;
        let v = eval_below(inputs, work, limit, at)?;
        lay_attr(work.numbers, limit + 3 * k, name, v);
        name = at + inputs.store[at + 1] as usize;
    }
    let record = make_record(
        inputs.store,
        work.numbers,
        &mut work.top,
        limit,
        n,
        inputs.height + 65,
    );
    Ok(record)
}
