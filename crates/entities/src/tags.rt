// Tags of entities.
ghost use Rattle.std.specs.Prelude.{◌≤◌};
ghost use Rattle.spec.specs.Values as s;
ghost use Rattle.spec.specs.Exprs.{has_tag, get_tag};
ghost use Rattle.values.specs.Memory.{numbers};
ghost use Rattle.values.specs.Held.{Good, Stands};
ghost use Rattle.entities.specs.View.{known};
ghost use Rattle.entities.specs.Code.{AnswersOf2, tag_in, Seeks};

use crate::attributes::{is_there, stored_attribute};
use crate::env::EnvView;
use crate::places::EntityRow;
use operators::EvalError;
use values::Value;

impl EnvView<'_> {
    // What there is of a tag's name in an entity.
    fn seek_tag(&self, v: Value, w: Value, height: u64) -> Result<Option<Value>, EvalError>
        requires tall { 65 ≤ height }
        requires left { Good height (numbers self.now.memory) v }
        requires right { Good height (numbers self.now.memory) w }
        ensures { (a b : s.Value) → Stands height (numbers self.now.memory) v a → Stands height (numbers self.now.memory) w b → Seeks height (numbers self.now.memory) result (tag_in a b (known self.now)) }
    {
        let Value::Entity(u) = v else {
            return Err(EvalError::TypeError);
        };
        let Value::String(name) = w else {
            return Err(EvalError::TypeError);
        };
        let at = self.look_up(u).ok_or(EvalError::EntityDoesNotExist)?;
        let row = EntityRow {
            memory: self.memory,
            at,
        };
        Ok(stored_attribute(&self.memory, row.tags(), name, height))
    }

    pub fn has_tag(&self, v: Value, w: Value, height: u64) -> Result<Value, EvalError>
        requires tall { 65 ≤ height }
        requires left { Good height (numbers self.now.memory) v }
        requires right { Good height (numbers self.now.memory) w }
        ensures { AnswersOf2 height (numbers self.now.memory) (known self.now) has_tag v w result }
    {
        let there = is_there(self.seek_tag(v, w, height))?;
        Ok(Value::Bool(there))
    }

    pub fn get_tag(&self, v: Value, w: Value, height: u64) -> Result<Value, EvalError>
        requires tall { 65 ≤ height }
        requires left { Good height (numbers self.now.memory) v }
        requires right { Good height (numbers self.now.memory) w }
        ensures { AnswersOf2 height (numbers self.now.memory) (known self.now) get_tag v w result }
    {
        let found = self.seek_tag(v, w, height)?;
        found.ok_or(EvalError::TagDoesNotExist)
    }
}
