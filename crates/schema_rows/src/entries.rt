// The entries of a schema by the places of what they are made of: its types of entities, and its actions.
ghost use Rattle.std.specs.Prelude.{◌≡◌};
ghost use Rattle.spec.specs.Types.{tag_type};
ghost use Rattle.values.specs.Held.{text_at, TextIn};
ghost use Rattle.schema_rows.specs.Entries.{EntryIn, entry_at, behind_entry, ActionIn, action_at, behind_action, of_below};
ghost use Rattle.schema_rows.specs.Read.{EntryIs, ActionIs, TagFound};

use crate::lists::{Attr, Listed, Row, Text, Uid, any_in, skip_list};
use types::CedarType;
use types::nodes::{row_type, same_names};

// The type of some entities: the places of its name, of the types above it, of its attributes and of the type of its tags; and what is behind it.
#[derive(Clone, Copy, Debug, PartialEq, Eq)]
pub struct Entry {
    pub name: usize,
    pub ancestors: usize,
    pub attrs: usize,
    pub tags: usize,
    pub next: usize,
}

// An action: the places of its name, of the types of its principals and resources, of the actions above it and of its context; and what is behind it.
#[derive(Clone, Copy, Debug, PartialEq, Eq)]
pub struct Action {
    pub uid: usize,
    pub principals: usize,
    pub resources: usize,
    pub ancestors: usize,
    pub context: usize,
    pub next: usize,
}

impl Listed for Entry {
    ghost lies = { EntryIn };

    ghost behind = { behind_entry };

    fn skip(store: &[u64], e: usize) -> usize {
        entry_at(store, e).next
    }
}

impl Listed for Action {
    ghost lies = { ActionIn };

    ghost behind = { behind_action };

    fn skip(store: &[u64], e: usize) -> usize {
        action_at(store, e).next
    }
}

pub fn entry_at(store: &[u64], e: usize) -> Entry
    requires { EntryIn store.now e }
    ensures { EntryIs store.now e result }
{
    let ancestors = Text::skip(store, e);
    let attrs = skip_list::<Text>(store, ancestors);
    let tags = skip_list::<Attr>(store, attrs);
    let next = skip_list::<Row>(store, tags);
    Entry {
        name: e,
        ancestors,
        attrs,
        tags,
        next,
    }
}

pub fn action_at(store: &[u64], e: usize) -> Action
    requires { ActionIn store.now e }
    ensures { ActionIs store.now e result }
{
    let principals = Uid::skip(store, e);
    let resources = skip_list::<Text>(store, principals);
    let ancestors = skip_list::<Text>(store, resources);
    let context = skip_list::<Uid>(store, ancestors);
    let next = skip_list::<Attr>(store, context);
    Action {
        uid: e,
        principals,
        resources,
        ancestors,
        context,
        next,
    }
}

// The type that the tags of an entity have, if it may have any.
pub fn tag_type(store: &[u64], entry: Entry) -> Option<CedarType>
    requires good { EntryIn store.now entry.name }
    requires is { EntryIs store.now entry.name entry }
    ensures { TagFound store.now result (tag_type (entry_at store.now entry.name)) }
{
    if store[entry.tags] == 0 {
        return None;
    }
    Some(row_type(store, entry.tags + 1))
}

// Whether the action at a place is of the first type, and below one of the second.
pub(crate) fn is_below(store: &[u64], e: usize, t: usize, u: usize) -> bool
    requires action { ActionIn store.now e }
    requires first { TextIn store.now t }
    requires second { TextIn store.now u }
    ensures { result ≡ of_below (text_at store.now t) (text_at store.now u) (action_at store.now e) }
{
    if !same_names(store, t, e) {
        return false;
    }
    let test = move |v| same_names(store, u, v);
    any_in::<Uid, _>(store, action_at(store, e).ancestors, test)
}
