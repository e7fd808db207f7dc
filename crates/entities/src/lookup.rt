// Entities by their names: their rows lie in the store, and a table has their places in the order of names.
ghost use Rattle.std.specs.Prelude.{◌≡◌, ◌<◌};
ghost use Rattle.spec.specs.Values.{find_entity};
ghost use Rattle.values.specs.Memory.{numbers};
ghost use Rattle.values.specs.Order.{order_uid};
ghost use Rattle.values.specs.Held.{uid_at, UIDIn};
ghost use Rattle.entities.specs.Rows.{row_place, entities_at, EntitiesIn, FoundRow};

use shelves::Table;
use values::Memory;
use values::search::binary_search;
use values::texts::compare_uids;

// Where the row of the entity lies whose name is at place `uid`: by halves, since the names rise. A name goes by its place, as in values, which are no larger
// than two numbers.
pub fn find(memory: &Memory<'_>, entities: Table, uid: usize) -> Option<usize>
    requires all { EntitiesIn memory.now.store.now entities }
    requires name { UIDIn (numbers memory.now) uid }
    ensures { FoundRow memory.now.store.now result (find_entity (uid_at (numbers memory.now) uid) (entities_at memory.now.store.now entities)) }
{
    let order = |k|
        requires all { EntitiesIn memory.now.store.now entities }
        requires name { UIDIn (numbers memory.now) uid }
        requires under { k < entities.count }
        ensures { result ≡ order_uid (uid_at (numbers memory.entry.now) uid) (uid_at (numbers memory.entry.now) (row_place memory.entry.now.store.now entities k)) }
    { compare_uids(memory, uid, entities.place(memory.store, k)) };
    let k = binary_search(entities.count, order).ok()?;
    Some(entities.place(memory.store, k))
}
