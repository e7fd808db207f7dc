// Attributes of records, and of entities, which are looked up.
ghost use Rattle.std.specs.Prelude.{◌≡◌, ℕ, ◌≤◌, List};
ghost use Rattle.std.proofs.Math.Option as o;
ghost use Rattle.spec.specs.Basics.{Except, lookup};
ghost use Rattle.spec.specs.Values as s;
ghost use Rattle.spec.specs.Values.{fields};
ghost use Rattle.spec.specs.Evaluate.{Error, get_attr_of, has_attr_of};
ghost use Rattle.values.specs.Memory.{numbers};
ghost use Rattle.values.specs.Held.{text_at, TextIn, Good, Stands, Found};
ghost use Rattle.entities.specs.Rows.{record_at, RecordAt};
ghost use Rattle.entities.specs.View.{known};
ghost use Rattle.entities.specs.Code.{AnswersOfAttr, Tells, attr_in, had, Seeks};

use crate::env::EnvView;
use crate::places::EntityRow;
use operators::EvalError;
use values::records::attribute;
use values::{Memory, Value};

// What the stored record at p has of the name whose text is at `key`, to a height that serves for other values too. That the height is as tall as a stored row
// is a clause, here and where it is asked with a value, and no fact of a struct of both: the answer speaks of the same height.
pub(crate) fn stored_attribute(
    memory: &Memory<'_>,
    p: usize,
    key: usize,
    height: u64,
) -> Option<Value>
    requires tall { 65 ≤ height }
    requires whole { RecordAt (numbers memory.now) p }
    requires text { TextIn (numbers memory.now) key }
    ensures { Found height (numbers memory.now) result (lookup (text_at (numbers memory.now) key) (fields (record_at (numbers memory.now) p))) }
{
    attribute(memory, p, key, 65)
}

// Whether something was found: an entity that is not there has nothing.
pub(crate) fn is_there(found: Result<Option<Value>, EvalError>) -> Result<bool, EvalError>
    ensures { (h : ℕ) (m : List ℕ) (x : Except Error (o.Option s.Value)) → Seeks h m found x → Tells result (had x) }
{
    match found {
        Err(EvalError::EntityDoesNotExist) => Ok(false),
        found => Ok(found?.is_some()),
    }
}

impl EnvView<'_> {
    // What there is of an attribute's name, in a record or in an entity.
    fn seek_attr(&self, v: Value, name: usize, height: u64) -> Result<Option<Value>, EvalError>
        requires tall { 65 ≤ height }
        requires good { Good height (numbers self.now.memory) v }
        requires text { TextIn (numbers self.now.memory) name }
        ensures { (a : s.Value) → Stands height (numbers self.now.memory) v a → Seeks height (numbers self.now.memory) result (attr_in a (text_at (numbers self.now.memory) name) (known self.now)) }
    {
        match v {
            Value::Entity(u) => {
                let at = self.look_up(u).ok_or(EvalError::EntityDoesNotExist)?;
                let row = EntityRow {
                    memory: self.memory,
                    at,
                };
                Ok(stored_attribute(&self.memory, row.attrs(), name, height))
            }
            Value::Record(p) => Ok(attribute(&self.memory, p, name, height)),
            _ => Err(EvalError::TypeError),
        }
    }

    pub fn get_attr(&self, v: Value, name: usize, height: u64) -> Result<Value, EvalError>
        requires tall { 65 ≤ height }
        requires good { Good height (numbers self.now.memory) v }
        requires text { TextIn (numbers self.now.memory) name }
        ensures { AnswersOfAttr get_attr_of height (numbers self.now.memory) (known self.now) v (text_at (numbers self.now.memory) name) result }
    {
        let found = self.seek_attr(v, name, height)?;
        found.ok_or(EvalError::AttrDoesNotExist)
    }

    pub fn has_attr(&self, v: Value, name: usize, height: u64) -> Result<Value, EvalError>
        requires tall { 65 ≤ height }
        requires good { Good height (numbers self.now.memory) v }
        requires text { TextIn (numbers self.now.memory) name }
        ensures { AnswersOfAttr has_attr_of height (numbers self.now.memory) (known self.now) v (text_at (numbers self.now.memory) name) result }
    {
        let there = is_there(self.seek_attr(v, name, height))?;
        Ok(Value::Bool(there))
    }
}
