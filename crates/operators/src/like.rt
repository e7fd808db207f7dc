// Patterns against texts. A pattern lies in memory as a text does, with 256 for any run of bytes.
ghost use Rattle.std.specs.Prelude.{◌≡◌, ◌<◌, ◌≤◌, [], drop, slice_index};
ghost use Rattle.spec.specs.Exprs.{like as is_like};
ghost use Rattle.spec.specs.Evaluate.{matches};
ghost use Rattle.values.specs.Memory.{numbers};
ghost use Rattle.values.specs.Held.{text_at, TextIn, Good};
ghost use Rattle.operators.specs.Code.{AnswersIn1};
ghost use Rattle.operators.specs.Patterns.{meets, step_at};

use crate::errors::EvalError;
use values::{Memory, Value};

// What the next element of a pattern is to the next byte of a text.
#[derive(Clone, Copy, Debug, PartialEq, Eq)]
pub enum Step {
    Star,
    Same,
    Differs,
}

fn meet(x: u64, y: u64) -> Step
    ensures { result ≡ meets x y }
{
    if x == 256 {
        Step::Star
    } else if x == y {
        Step::Same
    } else {
        Step::Differs
    }
}

// Element i of the pattern at p and byte j of the text at q.
fn next_step(memory: &Memory<'_>, p: usize, i: usize, q: usize, j: usize) -> Step
    requires left { TextIn (numbers memory.now) p }
    requires right { TextIn (numbers memory.now) q }
    requires under { j < slice_index (numbers memory.now) q }
    ensures { result ≡ step_at (drop i (text_at (numbers memory.now) p)) (slice_index (text_at (numbers memory.now) q) j) }
{
    if i >= memory.word(p) as usize {
        return Step::Differs;
    }
    meet(memory.word(p + 1 + i), memory.word(q + 1 + j))
}

// Whether a pattern has nothing but stars from an element on.
fn only_stars(memory: &Memory<'_>, p: usize, from: usize) -> bool
    requires whole { TextIn (numbers memory.now) p }
    requires within { from ≤ slice_index (numbers memory.now) p }
    ensures { result ≡ matches (drop from (text_at (numbers memory.now) p)) [] }
{
    let n = memory.word(p) as usize;
    (from..n).all(|i| memory.word(p + 1 + i) == 256)
}

// Where the pattern fails, it is tried again from behind its last star, one byte further: stars before that one need not be tried again, since it takes what
// they could.
// A loop over places and no iterator, since both places go back there.
fn matched(memory: &Memory<'_>, p: usize, q: usize) -> bool
    requires left { TextIn (numbers memory.now) p }
    requires right { TextIn (numbers memory.now) q }
    ensures { result ≡ matches (text_at (numbers memory.now) p) (text_at (numbers memory.now) q) }
{
    let k = memory.word(q) as usize;
    let mut i = 0;
    let mut j = 0;
    let mut star = None;
    let mut tried = 0;
    while j < k {
        match next_step(memory, p, i, q, j) {
            Step::Star => {
                i += 1;
                star = Some(i);
                tried = j;
            }
            Step::Same => {
                i += 1;
                j += 1;
            }
            Step::Differs => {
                let Some(behind) = star else {
                    return false;
                };
                tried += 1;
                i = behind;
                j = tried;
            }
        }
    }
    only_stars(memory, p, i)
}

pub fn like(memory: &Memory<'_>, v: Value, pattern: usize, height: u64) -> Result<Value, EvalError>
    requires good { Good height (numbers memory.now) v }
    requires whole { TextIn (numbers memory.now) pattern }
    ensures { AnswersIn1 height (numbers memory.now) (is_like (text_at (numbers memory.now) pattern)) v result }
{
    let Value::String(q) = v else {
        return Err(EvalError::TypeError);
    };
    Ok(Value::Bool(matched(memory, pattern, q)))
}
