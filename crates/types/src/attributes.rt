// Attributes of record types, by their names.
ghost use Rattle.std.specs.Prelude.{ℕ};
ghost use Rattle.values.specs.Held.{text_at, TextIn};
ghost use Rattle.types.specs.Held.{AttrsLie, is_stored, place_of};
ghost use Rattle.types.specs.Found.{Looked};

use crate::nodes::{CedarType, RecordPlace, attr_at, count, same_names};
use values::Memory;

// Whether an attribute is required, and its type.
#[derive(Clone, Copy, Debug, PartialEq, Eq)]
pub struct Found {
    pub required: bool,
    pub ty: CedarType,
}

// What a record type has of a name. Attributes have lengths of their own, so the next is found from the one before it.
pub fn attribute(memory: &Memory<'_>, place: RecordPlace, name: usize) -> Option<Found>
    requires name { TextIn memory.now.store.now name }
    requires attrs { (h : ℕ) × AttrsLie h memory.now place }
    ensures { Looked memory.now.store.now memory.now.work.now (is_stored place) (place_of place) (text_at memory.now.store.now name) result }
{
    let n = count(memory, place);
    let mut e = place.at() + 1;
    for _ in 0..n {
        let attr = attr_at(memory, place, e);
        if same_names(memory.store, name, attr.name) {
            return Some(Found {
                required: attr.required,
                ty: attr.ty,
            });
        }
        e = attr.next;
    }
    None
}
