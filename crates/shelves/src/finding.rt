// Where an item is among others, or where it would be: by a text, along the items; by the name of an entity, by halves.
ghost use Rattle.std.specs.Prelude.{◌≡◌, ◌+◌, ◌<◌, ◌≤◌, length, take, slice_index};
ghost use Rattle.spec.specs.Values.{code_uid};
ghost use Rattle.values.specs.Memory.{numbers};
ghost use Rattle.values.specs.Order.{order_uid};
ghost use Rattle.values.specs.Held.{text_at, TextIn, uid_at, UIDIn};
ghost use Rattle.shelves.specs.Items.{laid, items_at, id_key, IdIn, uid_key, UidIn, Shelf, Tabled};
ghost use Rattle.shelves.specs.Spots.{there, taken, Found, EntryAt};

pub use crate::table::Table;
use std::cmp::Ordering;
use values::Memory;
use values::search::binary_search;
use values::texts::{compare_names, compare_uids};

// What an item takes: its numbers, and its size.
#[derive(Clone, Copy, Debug, PartialEq, Eq)]
pub struct Extent {
    pub numbers: usize,
    pub size: usize,
}

impl Extent {
    // no Default: this name says more than `Extent::default()` would where it is used
    pub const NOTHING: Extent = Extent {
        numbers: 0,
        size: 0,
    };
}

#[derive(Clone, Copy, Debug, PartialEq, Eq)]
pub struct Spot {
    // how many have a lesser key
    pub index: usize,
    // where it begins, or would begin
    pub at: usize,
    // the item that is there
    pub item: Option<Extent>,
}

impl Spot {
    // How many items are there: one or none.
    pub fn count(self) -> usize
        ensures { result ≡ there self }
    {
        usize::from(self.item.is_some())
    }

    // What the item takes that is there, if there is one.
    pub fn taken(self) -> Extent
        ensures { result ≡ taken self }
    {
        self.item.unwrap_or(Extent::NOTHING)
    }
}

// Among `count` items from a place on, one after the other: the text at the begin of each row is its key, and the one that is looked for lies at `key`.
pub fn find_by_text(memory: &Memory<'_>, from: usize, count: usize, key: usize) -> Spot
    requires shelf { Shelf id_key IdIn memory.now.store.now from count }
    requires key { TextIn (numbers memory.now) key }
    ensures { Found id_key from (items_at memory.now.store.now from count) (text_at (numbers memory.now) key) result }
{
    let mut at = from;
    // rows have lengths of their own, so where an item begins is known from the one before it
    for index in 0..count {
        match compare_names(memory, key, at + 2) {
            Ordering::Less => return Spot {
                index,
                at,
                item: None,
            },
            Ordering::Equal => return Spot {
                index,
                at,
                item: Some(extent_at(memory.store, at)),
            },
            Ordering::Greater => at += 2 + memory.store[at] as usize,
        }
    }
    Spot {
        index: count,
        at,
        item: None,
    }
}

// Where the k-th item begins.
pub fn place_at(store: &[u64], table: Table, k: usize) -> usize
    requires tabled { Tabled uid_key UidIn store.now table.from table.places table.count }
    requires under { k < table.count }
    ensures is { result ≡ table.from + length (laid (take k (items_at store.now table.from table.count))) }
    ensures fits { result + 2 + slice_index store.now result ≤ length store.now }
{
    table.place(store, k)
}

// The same as `find_by_text`, by the name of an entity at the begin of each row. Behind the last item is the place `end`. It stands beside entities::find,
// which goes by the same table and search: here items begin with two numbers, and what the clauses say of the table are other facts.
pub fn find_by_uid(memory: &Memory<'_>, table: Table, end: usize, key: usize) -> Spot
    requires tabled { Tabled uid_key UidIn memory.now.store.now table.from table.places table.count }
    requires ends { end ≡ table.from + length (laid (items_at memory.now.store.now table.from table.count)) }
    requires key { UIDIn (numbers memory.now) key }
    ensures { Found uid_key table.from (items_at memory.now.store.now table.from table.count) (code_uid (uid_at (numbers memory.now) key)) result }
{
    let order = |k|
        requires tabled { Tabled uid_key UidIn memory.now.store.now table.from table.places table.count }
        requires key { UIDIn (numbers memory.now) key }
        requires under { k < table.count }
        ensures { result ≡ order_uid (uid_at (numbers memory.entry.now) key) (uid_at (numbers memory.entry.now) (table.from + length (laid (take k (items_at memory.entry.now.store.now table.from table.count))) + 2)) }
    { compare_uids(memory, key, place_at(memory.store, table, k) + 2) };
    match binary_search(table.count, order) {
        Ok(index) => {
            let at = place_at(memory.store, table, index);
            Spot {
                index,
                at,
                item: Some(extent_at(memory.store, at)),
            }
        }
        Err(index) => {
            let at = if index == table.count {
                end
            } else {
                place_at(memory.store, table, index)
            };
            Spot {
                index,
                at,
                item: None,
            }
        }
    }
}

// An item as it lies: where its row is, how long that is, the item's size, and where the next item begins.
#[derive(Clone, Copy, Debug, PartialEq, Eq)]
pub struct Entry {
    pub row: usize,
    pub long: usize,
    pub size: usize,
    pub next: usize,
}

// The item that begins at a place.
pub fn entry_at(store: &[u64], at: usize) -> Entry
    requires { at + 2 + slice_index store.now at ≤ length store.now }
    ensures { EntryAt store.now at result }
{
    let row = at + 2;
    let long = store[at] as usize;
    Entry {
        row,
        long,
        size: store[at + 1] as usize,
        next: row + long,
    }
}

// What it takes.
fn extent_at(store: &[u64], at: usize) -> Extent
    requires { at + 2 + slice_index store.now at ≤ length store.now }
    ensures numbers { result.numbers ≡ 2 + slice_index store.now at }
    ensures size { result.size ≡ slice_index store.now (at + 1) }
{
    let entry = entry_at(store, at);
    Extent {
        numbers: 2 + entry.long,
        size: entry.size,
    }
}
