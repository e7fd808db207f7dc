// A schema as it lies in the store, and what is looked up in it.
ghost use Rattle.schema_rows.specs.Entries.{EntriesIn, EntriesIn-prop, ActionsIn, ActionsIn-prop};

use crate::entries::is_below;
pub use crate::entries::{Action, Entry, action_at, entry_at, tag_type};
use crate::lists::{Text, Uid, any_in, find_in, same_entities, skip_list};
use types::nodes::same_names;

// A store, and the places there of a schema's types of entities and of its actions.
#[derive(Clone, Copy)]
pub struct Schema<'a> {
    pub store: &'a [u64],
    pub entries: usize,
    pub actions: usize,
    pub ghost entries_lie: { EntriesIn store.now entries } by { EntriesIn-prop store.now entries },
    pub ghost actions_lie: { ActionsIn store.now actions } by { ActionsIn-prop store.now actions },
}

impl<'a> Schema<'a> {
    ghost use Rattle.std.specs.Prelude.{◌≡◌};
    ghost use Rattle.spec.specs.Types.{find_entity_type, find_action, is_action_type, known_type, known as is_known};
    ghost use Rattle.spec.specs.Typecheck.{descendant_of, action_in};
    ghost use Rattle.values.specs.Held.{text_at, TextIn, uid_at, UIDIn};
    ghost use Rattle.schema_rows.specs.Read.{EntryFound, ActionFound};
    ghost use Rattle.schema_rows.specs.Schemas.{schema_at, SchemaIn, schema_of};

    // The schema whose row lies at a place.
    pub fn at(store: &'a [u64], p: usize) -> Self
        requires { SchemaIn store.now p }
        ensures store { result.store.now ≡ store.now }
        ensures is { schema_of result ≡ schema_at store.now p }
    {
        Schema {
            store,
            entries: p,
            actions: skip_list::<Entry>(store, p),
        }
    }

    // The type of entities that has a name.
    pub fn find_entity_type(&self, name: usize) -> Option<Entry>
        requires { TextIn self.now.store.now name }
        ensures { EntryFound self.now.store.now result (find_entity_type (text_at self.now.store.now name) (schema_of self.now)) }
    {
        let store = self.store;
        let test = move |e| same_names(store, name, e);
        let e = find_in::<Entry, _>(store, self.entries, test)?;
        Some(entry_at(store, e))
    }

    // The action that has a name.
    pub fn find_action(&self, uid: usize) -> Option<Action>
        requires { UIDIn self.now.store.now uid }
        ensures { ActionFound self.now.store.now result (find_action (uid_at self.now.store.now uid) (schema_of self.now)) }
    {
        let store = self.store;
        let test = move |e| same_entities(store, uid, e);
        let e = find_in::<Action, _>(store, self.actions, test)?;
        Some(action_at(store, e))
    }

    // Whether some action is of a type.
    pub fn is_action_type(&self, name: usize) -> bool
        requires { TextIn self.now.store.now name }
        ensures { result ≡ is_action_type (text_at self.now.store.now name) (schema_of self.now) }
    {
        let store = self.store;
        any_in::<Action, _>(store, self.actions, move |e| same_names(store, name, e))
    }

    // Whether the schema knows a type: of entities, or of actions.
    pub fn known_type(&self, name: usize) -> bool
        requires { TextIn self.now.store.now name }
        ensures { result ≡ known_type (schema_of self.now) (text_at self.now.store.now name) }
    {
        self.find_entity_type(name).is_some() || self.is_action_type(name)
    }

    // Whether the schema can know an entity: its type is one of entities, or it is an action.
    pub fn known(&self, uid: usize) -> bool
        requires { UIDIn self.now.store.now uid }
        ensures { result ≡ is_known (schema_of self.now) (uid_at self.now.store.now uid) }
    {
        self.find_entity_type(uid).is_some() || self.find_action(uid).is_some()
    }

    // Whether an entity of the first type can be in one of the second.
    pub fn descendant_of(&self, t: usize, u: usize) -> bool
        requires first { TextIn self.now.store.now t }
        requires second { TextIn self.now.store.now u }
        ensures { result ≡ descendant_of (text_at self.now.store.now t) (text_at self.now.store.now u) (schema_of self.now) }
    {
        let store = self.store;
        if same_names(store, t, u) {
            return true;
        }
        if let Some(entry) = self.find_entity_type(t) {
            let test = move |e| same_names(store, u, e);
            return any_in::<Text, _>(store, entry.ancestors, test);
        }
        let test = move |e| is_below(store, e, t, u);
        any_in::<Action, _>(store, self.actions, test)
    }

    // Whether an action is in another.
    pub fn action_in(&self, u: usize, v: usize) -> bool
        requires first { UIDIn self.now.store.now u }
        requires second { UIDIn self.now.store.now v }
        ensures { result ≡ action_in (uid_at self.now.store.now u) (uid_at self.now.store.now v) (schema_of self.now) }
    {
        let store = self.store;
        if same_entities(store, u, v) {
            return true;
        }
        let Some(action) = self.find_action(u) else {
            return false;
        };
        let test = move |e| same_entities(store, v, e);
        any_in::<Uid, _>(store, action.ancestors, test)
    }
}
