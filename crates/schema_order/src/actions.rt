// Whether the entries of actions in the bytes of a schema are well-formed.
ghost use Rattle.std.specs.Prelude.{◌≡◌, not, ◌&&◌, drop};
ghost use Rattle.spec.specs.Basics.{any, all, itself, is_some, ascending};
ghost use Rattle.spec.specs.Values.{code_uid, same_uid};
ghost use Rattle.spec.specs.Types.{record_of, find_entity_type, find_action, known_type};
ghost use Rattle.spec.specs.Validate.{well_formed_type, well_formed_action};
ghost use Rattle.wire.specs.Grammar.{to_types};
ghost use Rattle.wire.specs.Read.{read_text};
ghost use Rattle.reader.specs.Ends.{Got};
ghost use Rattle.schema_order.specs.declared.lists.Listed.TheVariants.{Names, Uids, Actions, Attributes};
ghost use Rattle.schema_order.specs.Places.{holds, text_at, uid_at, read_uid, read_item, read_many, list_at, closed_to, ListsStand, ListsOf};
ghost use Rattle.schema_order.specs.Schemas.{schema_in};

use crate::known::{all_among, has_uid};
use crate::lists::{Listed, TYPE_HEIGHT, all_items, item_end, list_end, rises};
use crate::schema::Schema;

// Where the lists of an action stand: the types of its principals and of its resources, the actions above it, and the attributes of its context.
#[derive(Clone, Copy)]
pub(crate) struct Lists {
    pub principals: usize,
    pub resources: usize,
    pub above: usize,
    pub context: usize,
}

fn lists_of(bytes: &[u8], at: usize) -> Lists
    requires { Got (read_item Actions (drop at bytes.now)) }
    ensures { ListsOf bytes.now at result }
{
    let principals = item_end(bytes, at, Listed::Uids);
    let resources = list_end(bytes, principals, Listed::Names);
    let above = list_end(bytes, resources, Listed::Names);
    let context = list_end(bytes, above, Listed::Uids);
    Lists {
        principals,
        resources,
        above,
        context,
    }
}

// What is above the action at a place is above another, if the action is.
fn closed_at(bytes: &[u8], at: usize, above: usize) -> bool
    requires { (Got (read_item Actions (drop at bytes.now))) × (Got (read_many Uids (drop above bytes.now))) }
    ensures { result ≡ holds (closed_to (list_at Uids bytes.now above)) (read_item Actions (drop at bytes.now)) }
{
    if !has_uid(bytes, at, above) {
        return true;
    }
    let lists = lists_of(bytes, at);
    all_among(bytes, lists.above, above)
}

impl Schema<'_> {
    // The lists of an action are in order, and its type is no type of entities.
    fn in_order(&self, at: usize, lists: Lists) -> bool
        requires { (Got (read_text (drop at self.now.bytes.now))) × (ListsStand self.now.bytes.now lists) }
        ensures { result ≡ ((ascending itself (list_at Names self.now.bytes.now lists.principals) && ascending itself (list_at Names self.now.bytes.now lists.resources)) && (ascending code_uid (list_at Uids self.now.bytes.now lists.above) && not (is_some (find_entity_type (text_at self.now.bytes.now at) (schema_in self.now))))) }
    {
        let first = rises(self.bytes, lists.principals, Listed::Names);
        let second = rises(self.bytes, lists.resources, Listed::Names);
        let third = rises(self.bytes, lists.above, Listed::Uids);
        (first & second) & (third & !self.has_type(at))
    }

    // What an action names is in the schema, and its context is well-formed.
    fn all_there(&self, lists: Lists) -> bool
        requires { ListsStand self.now.bytes.now lists }
        ensures { result ≡ ((all (known_type (schema_in self.now)) (list_at Names self.now.bytes.now lists.principals) && all (known_type (schema_in self.now)) (list_at Names self.now.bytes.now lists.resources)) && (all (λ u. is_some (find_action u (schema_in self.now))) (list_at Uids self.now.bytes.now lists.above) && well_formed_type (record_of (to_types (list_at (Attributes 64) self.now.bytes.now lists.context))) (schema_in self.now))) }
    {
        let first = self.all_known(lists.principals);
        let second = self.all_known(lists.resources);
        let third = self.all_actions(lists.above);
        (first & second) & (third & self.record_fits(lists.context, TYPE_HEIGHT))
    }

    // What is above an action above another is above it too.
    fn closed(&self, above: usize) -> bool
        requires { Got (read_many Uids (drop above self.now.bytes.now)) }
        ensures { result ≡ all (closed_to (list_at Uids self.now.bytes.now above)) (list_at Actions self.now.bytes.now self.now.actions) }
    {
        all_items(
            self.bytes,
            self.actions,
            Listed::Actions,
            |action| closed_at(self.bytes, action, above),
        )
    }

    // An action is not above itself, and what is above it is closed upwards.
    fn well_above(&self, at: usize, above: usize) -> bool
        requires { (Got (read_uid (drop at self.now.bytes.now))) × (Got (read_many Uids (drop above self.now.bytes.now))) }
        ensures { result ≡ (not (any (same_uid (uid_at self.now.bytes.now at)) (list_at Uids self.now.bytes.now above)) && all (closed_to (list_at Uids self.now.bytes.now above)) (list_at Actions self.now.bytes.now self.now.actions)) }
    {
        let itself = has_uid(self.bytes, at, above);
        !itself & self.closed(above)
    }

    fn action_fits(&self, at: usize) -> bool
        requires { Got (read_item Actions (drop at self.now.bytes.now)) }
        ensures { result ≡ holds (well_formed_action (schema_in self.now)) (read_item Actions (drop at self.now.bytes.now)) }
    {
        let lists = lists_of(self.bytes, at);
        let first = self.in_order(at, lists);
        let second = self.all_there(lists);
        first & (second & self.well_above(at, lists.above))
    }

    pub(crate) fn actions_fit(&self) -> bool
        ensures { result ≡ all (well_formed_action (schema_in self.now)) (list_at Actions self.now.bytes.now self.now.actions) }
    {
        all_items(
            self.bytes,
            self.actions,
            Listed::Actions,
            |action| self.action_fits(action),
        )
    }
}
