// Negation, equality, and the type of an entity.
ghost use Rattle.spec.specs.Exprs.{not as flip, is as has_type, eq as same};
ghost use Rattle.values.specs.Memory.{numbers};
ghost use Rattle.values.specs.Held.{text_at, TextIn, Good};
ghost use Rattle.operators.specs.Code.{Answers1, AnswersIn1, AnswersIn2};

use crate::errors::EvalError;
use values::ordering::equal;
use values::texts::same_texts;
use values::{Memory, Value};

pub fn not(v: Value) -> Result<Value, EvalError>
    ensures { Answers1 flip v result }
{
    let Value::Bool(b) = v else {
        return Err(EvalError::TypeError);
    };
    Ok(Value::Bool(!b))
}

// Whether an entity has the type whose text lies at a place.
pub fn is(memory: &Memory<'_>, v: Value, ty: usize, height: u64) -> Result<Value, EvalError>
    requires good { Good height (numbers memory.now) v }
    requires name { TextIn (numbers memory.now) ty }
    ensures { AnswersIn1 height (numbers memory.now) (has_type (text_at (numbers memory.now) ty)) v result }
{
    let Value::Entity(p) = v else {
        return Err(EvalError::TypeError);
    };
    Ok(Value::Bool(same_texts(memory, ty, p)))
}

pub fn eq(memory: &Memory<'_>, v: Value, w: Value, height: u64) -> Result<Value, EvalError>
    requires left { Good height (numbers memory.now) v }
    requires right { Good height (numbers memory.now) w }
    ensures { AnswersIn2 height (numbers memory.now) same v w result }
{
    Ok(Value::Bool(equal(memory, v, w, height)))
}
