// The operator `in`: an entity is in itself and in its ancestors.
ghost use Rattle.std.specs.Prelude.{◌≡◌};
ghost use Rattle.spec.specs.Basics.{any};
ghost use Rattle.spec.specs.Values.{same_uid};
ghost use Rattle.spec.specs.Exprs.{mem as is_in};
ghost use Rattle.values.specs.Memory.{numbers};
ghost use Rattle.values.specs.Held.{uid_at, UIDIn, decode, Good, elements_of};
ghost use Rattle.entities.specs.Rows.{ancestors_at};
ghost use Rattle.entities.specs.View.{known};
ghost use Rattle.entities.specs.Code.{AnswersOf2, RowIn, in_row, in_values, Tells};

use crate::env::EnvView;
use crate::places::{EntityRow, any_name};
use crate::requests::Subject;
use operators::EvalError;
use values::nodes::{count_of, element_of};
use values::texts::same_uids;
use values::{Memory, Value};

impl EntityRow<'_> {
    // Whether the name at v is among the ancestors of the entity.
    fn has_ancestor(&self, v: usize) -> bool
        requires { UIDIn (numbers self.now.memory) v }
        ensures { result ≡ any (same_uid (uid_at (numbers self.now.memory) v)) (ancestors_at (numbers self.now.memory) self.now.at) }
    {
        let memory = self.memory;
        let at = self.ancestors();
        let n = memory.word(at) as usize;
        any_name(&memory, at + 1, n, move |p| same_uids(&memory, v, p))
    }
}

impl Subject {
    // Whether it is in the entity with the name at v.
    pub fn is_in(self, memory: &Memory<'_>, v: usize) -> bool
        requires left { UIDIn (numbers memory.now) self.uid }
        requires known { RowIn (numbers memory.now) self.row }
        requires right { UIDIn (numbers memory.now) v }
        ensures { result ≡ in_row (numbers memory.now) self.uid self.row (uid_at (numbers memory.now) v) }
    {
        if same_uids(memory, self.uid, v) {
            return true;
        }
        let Some(at) = self.row else {
            return false;
        };
        let row = EntityRow {
            memory: *memory,
            at,
        };
        row.has_ancestor(v)
    }

    // Whether it is in one that the set at p holds: all that the set holds is looked at, since what is no entity is an error.
    fn is_in_any(self, memory: &Memory<'_>, p: usize, height: u64) -> Result<bool, EvalError>
        requires left { UIDIn (numbers memory.now) self.uid }
        requires known { RowIn (numbers memory.now) self.row }
        requires whole { Good height (numbers memory.now) (Value.Set p) }
        ensures { Tells result (in_values (numbers memory.now) self.uid self.row (elements_of (decode height (numbers memory.now) (Value.Set p)))) }
    {
        let n = count_of(memory, p);
        let mut found = false;
        // the elements lie in no slice: they are asked for by their index
        for i in 0..n {
            let Value::Entity(v) = element_of(memory, p, i) else {
                return Err(EvalError::TypeError);
            };
            found = found || self.is_in(memory, v);
        }
        Ok(found)
    }
}

impl EnvView<'_> {
    pub fn mem(&self, v: Value, w: Value, height: u64) -> Result<Value, EvalError>
        requires left { Good height (numbers self.now.memory) v }
        requires right { Good height (numbers self.now.memory) w }
        ensures { AnswersOf2 height (numbers self.now.memory) (known self.now) is_in v w result }
    {
        let Value::Entity(uid) = v else {
            return Err(EvalError::TypeError);
        };
        let subject = Subject {
            uid,
            row: self.look_up(uid),
        };
        match w {
            Value::Entity(t) => Ok(Value::Bool(subject.is_in(&self.memory, t))),
            Value::Set(p) => {
                let found = subject.is_in_any(&self.memory, p, height)?;
                Ok(Value::Bool(found))
            }
            _ => Err(EvalError::TypeError),
        }
    }
}
