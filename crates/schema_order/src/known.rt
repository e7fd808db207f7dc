// What a schema knows: whether what is named in its bytes is in it.
ghost use Rattle.std.specs.Prelude.{◌≡◌, drop};
ghost use Rattle.spec.specs.Basics.{same, any, all, is_some};
ghost use Rattle.spec.specs.Values.{same_uid};
ghost use Rattle.spec.specs.Types.{find_entity_type, find_action, is_action_type, known_type};
ghost use Rattle.spec.specs.Validate.{all_in};
ghost use Rattle.wire.specs.Read.{read_text};
ghost use Rattle.reader.specs.Ends.{Got};
ghost use Rattle.schema_order.specs.declared.lists.Listed.TheVariants.{Names, Uids, Actions};
ghost use Rattle.schema_order.specs.Places.{holds, read_uid, read_item, read_many, text_at, uid_at, list_at};
ghost use Rattle.schema_order.specs.Schemas.{schema_in};

use crate::lists::{Listed, all_items, among, any_item};
use crate::schema::{Schema, TYPES};
use crate::texts::same_text;

// Whether an action is of the type that is named at a place: the type stands where the action does.
fn is_of_type(bytes: &[u8], name: usize, action: usize) -> bool
    requires { (Got (read_text (drop name bytes.now))) × (Got (read_item Actions (drop action bytes.now))) }
    ensures { result ≡ holds (λ a. same (text_at bytes.now name) a.uid.ty) (read_item Actions (drop action bytes.now)) }
{
    same_text(bytes, name, action)
}

impl Schema<'_> {
    // Whether a type of entities has the name at a place.
    pub(crate) fn has_type(&self, name: usize) -> bool
        requires { Got (read_text (drop name self.now.bytes.now)) }
        ensures { result ≡ is_some (find_entity_type (text_at self.now.bytes.now name) (schema_in self.now)) }
    {
        among(self.bytes, name, TYPES, Listed::Entries)
    }

    // Whether an action has the name at a place.
    pub(crate) fn has_action(&self, uid: usize) -> bool
        requires { Got (read_uid (drop uid self.now.bytes.now)) }
        ensures { result ≡ is_some (find_action (uid_at self.now.bytes.now uid) (schema_in self.now)) }
    {
        among(self.bytes, uid, self.actions, Listed::Actions)
    }

    // Whether some action is of the type that is named at a place.
    pub(crate) fn is_action_type(&self, name: usize) -> bool
        requires { Got (read_text (drop name self.now.bytes.now)) }
        ensures { result ≡ is_action_type (text_at self.now.bytes.now name) (schema_in self.now) }
    {
        any_item(
            self.bytes,
            self.actions,
            Listed::Actions,
            |action| is_of_type(self.bytes, name, action),
        )
    }

    // Whether the type that is named at a place is known.
    pub(crate) fn type_known(&self, name: usize) -> bool
        requires { Got (read_text (drop name self.now.bytes.now)) }
        ensures { result ≡ known_type (schema_in self.now) (text_at self.now.bytes.now name) }
    {
        self.has_type(name) || self.is_action_type(name)
    }

    // Whether all types that are named in a list are types of entities.
    pub(crate) fn all_types(&self, at: usize) -> bool
        requires { Got (read_many Names (drop at self.now.bytes.now)) }
        ensures { result ≡ all (λ n. is_some (find_entity_type n (schema_in self.now))) (list_at Names self.now.bytes.now at) }
    {
        all_items(self.bytes, at, Listed::Names, |name| self.has_type(name))
    }

    // Whether all types that are named in a list are known.
    pub(crate) fn all_known(&self, at: usize) -> bool
        requires { Got (read_many Names (drop at self.now.bytes.now)) }
        ensures { result ≡ all (known_type (schema_in self.now)) (list_at Names self.now.bytes.now at) }
    {
        all_items(self.bytes, at, Listed::Names, |name| self.type_known(name))
    }

    // Whether all entities that are named in a list are actions of the schema.
    pub(crate) fn all_actions(&self, at: usize) -> bool
        requires { Got (read_many Uids (drop at self.now.bytes.now)) }
        ensures { result ≡ all (λ u. is_some (find_action u (schema_in self.now))) (list_at Uids self.now.bytes.now at) }
    {
        all_items(self.bytes, at, Listed::Uids, |uid| self.has_action(uid))
    }
}

// Whether a name is in a list of names of entities.
pub(crate) fn has_uid(bytes: &[u8], uid: usize, at: usize) -> bool
    requires { (Got (read_uid (drop uid bytes.now))) × (Got (read_many Uids (drop at bytes.now))) }
    ensures { result ≡ any (same_uid (uid_at bytes.now uid)) (list_at Uids bytes.now at) }
{
    among(bytes, uid, at, Listed::Uids)
}

// Whether all names of one list are in another.
pub(crate) fn all_among(bytes: &[u8], at: usize, others: usize) -> bool
    requires { (Got (read_many Uids (drop at bytes.now))) × (Got (read_many Uids (drop others bytes.now))) }
    ensures { result ≡ all_in (list_at Uids bytes.now at) (list_at Uids bytes.now others) }
{
    all_items(bytes, at, Listed::Uids, |uid| has_uid(bytes, uid, others))
}
