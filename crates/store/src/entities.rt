// The entities of a store, in the order of their names, with a table of their places.
ghost use Rattle.std.specs.Prelude.{◌≡◌, ◌<◌, ◌≤◌, length};
ghost use Rattle.spec.specs.Values.{code_uid};
ghost use Rattle.values.specs.Memory.{numbers};
ghost use Rattle.values.specs.Held.{uid_at, UIDIn};
ghost use Rattle.store.specs.Sections.{sections, entities_at, table_at, Good};
ghost use Rattle.store.specs.Changes.{EntityFound, Comes, EntityRoom, Goes, EntityGone, EntityEntry};

use crate::layout::{Header, begin_item, header_of, reopen, table_at};
use shelves::finding::{entry_at, find_by_uid, place_at};
use shelves::moving::{insert_place, remove_place};
use shelves::{Entry, Extent, Spot, Table};
use values::Memory;

// The entities' places.
fn table_of(header: Header) -> Table
    requires { header.capacity ≤ 16777216 }
    ensures from { result.from ≡ header.entities }
    ensures places { result.places ≡ table_at header.capacity }
    ensures count { result.count ≡ header.entity_count }
{
    Table {
        from: header.entities,
        places: table_at(header.capacity),
        count: header.entity_count,
    }
}

// Where the entity is whose name lies at `key`, or where it would be. It stands beside `find_policy`, which searches along the items and has no table.
pub fn find_entity(memory: &Memory<'_>, key: usize) -> Spot
    requires good { Good memory.now.store.now }
    requires key { UIDIn (numbers memory.now) key }
    ensures { EntityFound (sections memory.now.store.now) (code_uid (uid_at (numbers memory.now) key)) result }
{
    let header = header_of(memory.store);
    find_by_uid(memory, table_of(header), header.used, key)
}

// Room for an entity's row of so many numbers at a spot that was found: new, or in place of the one that is there. The answer is where the row is to be
// written. This and `remove_entity` stand beside those of policies, since other things move: here the table, there the place where entities begin.
pub fn room_for_entity(store: &mut [u64], spot: Spot, row_length: usize, size: usize) -> usize
    requires good { Good store.old }
    requires comes { Comes (sections store.old) (entities_at (sections store.old)) (sections store.old).entities spot row_length size }
    ensures { EntityRoom (sections store.old) store.new spot row_length size result }
{
    let header = header_of(store);
    let new = Extent {
        numbers: 2 + row_length,
        size,
    };
    let after = Header {
        entity_count: header.entity_count - spot.count() + 1,
        ..header.with(spot.taken(), new)
    };
    let table = table_of(header);
    insert_place(&mut store[table.places..], table, spot, new.numbers);
    reopen(store, after, spot.splice(new.numbers), header.used);
    begin_item(store, spot.at, row_length, size)
}

// The entity at a spot that was found goes.
pub fn remove_entity(store: &mut [u64], spot: Spot)
    requires good { Good store.old }
    requires goes { Goes (entities_at (sections store.old)) (sections store.old).entities spot }
    ensures { EntityGone (sections store.old) store.new spot }
{
    let header = header_of(store);
    let after = Header {
        entity_count: header.entity_count - 1,
        ..header.with(spot.taken(), Extent::NOTHING)
    };
    let table = table_of(header);
    remove_place(&mut store[table.places..], table.count, spot);
    reopen(store, after, spot.splice(0), header.used);
}

// The k-th entity, in the order of names.
pub fn entity_at(store: &[u64], k: usize) -> Entry
    requires good { Good store.now }
    requires under { k < length (sections store.now).entities }
    ensures { EntityEntry store.now k result }
{
    let header = header_of(store);
    let at = place_at(store, table_of(header), k);
    entry_at(store, at)
}
