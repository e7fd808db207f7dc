// The first numbers of a store, and a store with nothing in it.
ghost use Rattle.std.specs.Prelude.{◌≡◌, ◌+◌, ◌-◌, ◌^◌, ◌<◌, ◌≤◌, ◌++◌, length, drop, slice_set};
ghost use Rattle.store.specs.Sections.{sections, Good, Holds, empty, table_at, store_numbers};
ghost use Rattle.store.specs.Changes.{with_counts};
ghost use Rattle.store.specs.Places.{header_row, header_at, Says, Bounds, reopened};

use shelves::moving::resize;
use shelves::{Extent, Splice};

// So many numbers stand before the schema's row.
pub const HEADER: usize = 10;

// That a capacity is no larger than a store can have is a clause where it is needed, and no ghost field: any ten numbers become a Header.
#[derive(Clone, Copy, Debug, PartialEq, Eq)]
pub struct Header {
    pub capacity: usize,
    // of the schema, all policies and all entities
    pub size: usize,
    // where the policies begin, the entities begin, and all ends
    pub policies: usize,
    pub entities: usize,
    pub used: usize,
    pub policy_count: usize,
    pub entity_count: usize,
    pub schema_size: usize,
    // entities that do not fit the schema, and actions of the schema that are not among the entities
    pub unfit: usize,
    pub missing: usize,
}

impl From<[u64; HEADER]> for Header {
    ghost from_gives = { λ numbers header. header ≡ header_at numbers };

    fn from(numbers: [u64; HEADER]) -> Header {
        let [
            capacity,
            size,
            policies,
            entities,
            used,
            policy_count,
            entity_count,
            schema_size,
            unfit,
            missing,
        ] = numbers;
        Header {
            capacity: capacity as usize,
            size: size as usize,
            policies: policies as usize,
            entities: entities as usize,
            used: used as usize,
            policy_count: policy_count as usize,
            entity_count: entity_count as usize,
            schema_size: schema_size as usize,
            unfit: unfit as usize,
            missing: missing as usize,
        }
    }
}

impl From<Header> for [u64; HEADER] {
    ghost from_gives = { λ header numbers. numbers ≡ header_row header };

    fn from(header: Header) -> [u64; HEADER] {
        [
            header.capacity as u64,
            header.size as u64,
            header.policies as u64,
            header.entities as u64,
            header.used as u64,
            header.policy_count as u64,
            header.entity_count as u64,
            header.schema_size as u64,
            header.unfit as u64,
            header.missing as u64,
        ]
    }
}

impl Header {
    // What there is in all, as so much comes in place of what was there.
    pub(crate) fn with(self, old: Extent, new: Extent) -> Header
        requires size { old.size ≤ self.size }
        requires used { old.numbers ≤ self.used }
        requires size_fits { self.size - old.size + new.size < 2 ^ 64 }
        requires used_fits { self.used - old.numbers + new.numbers < 2 ^ 64 }
        ensures { result ≡ record self { size = self.size - old.size + new.size; used = self.used - old.numbers + new.numbers } }
    {
        Header {
            size: self.size - old.size + new.size,
            used: self.used - old.numbers + new.numbers,
            ..self
        }
    }
}

// That a memory is in order is a clause, here and elsewhere, and no fact of a struct: from the room for a row until the row is written it is not.
pub fn header_of(store: &[u64]) -> Header
    requires { Good store.now }
    ensures says { Says (sections store.now) result }
    ensures bounds { Bounds (sections store.now) }
{
    let numbers: &[u64; HEADER] = store.first_chunk().unwrap();
    Header::from(*numbers)
}

// Where the table of the entities' places is: behind all that rows can take.
pub fn table_at(capacity: usize) -> usize
    requires { capacity ≤ 16777216 }
    ensures { result ≡ table_at capacity }
{
    HEADER + 2 + 9 * capacity / 2
}

fn write_header(store: &mut [u64], header: Header)
    requires { 10 ≤ length store.old }
    ensures { store.new ≡ header_row header ++ drop 10 store.old }
{
    let numbers: [u64; HEADER] = header.into();
    store[..HEADER].copy_from_slice(&numbers);
}

// So many numbers at a place become so many others, what is behind them moves, and the first numbers are those of the header.
pub(crate) fn reopen(store: &mut [u64], header: Header, splice: Splice, used: usize)
    requires header { 10 ≤ length store.old }
    requires within { splice.at + splice.old ≤ used }
    requires old { used ≤ length store.old }
    requires new { splice.at + splice.new + (used - (splice.at + splice.old)) ≤ length store.old }
    ensures { store.new ≡ reopened store.old header splice.at splice.old splice.new used }
{
    resize(store, splice, used);
    write_header(store, header);
}

// The two first numbers of an item: behind them its row is to be written.
pub(crate) fn begin_item(store: &mut [u64], at: usize, row_length: usize, size: usize) -> usize
    requires { at + 2 ≤ length store.old }
    ensures is { store.new ≡ slice_set (slice_set store.old at row_length) (at + 1) size }
    ensures to { result ≡ at + 2 }
{
    store[at] = row_length as u64;
    store[at + 1] = size as u64;
    at + 2
}

// A store of a capacity, with an empty schema, whose row is two zeros, no policies and no entities.
pub fn open(store: &mut [u64], capacity: usize)
    requires least { 1 ≤ capacity }
    requires limit { capacity ≤ 16777216 }
    requires fits { store_numbers capacity ≤ length store.old }
    ensures { Holds store.new (empty capacity) }
{
    let start = HEADER + 2;
    let header = Header {
        capacity,
        size: 0,
        policies: start,
        entities: start,
        used: start,
        policy_count: 0,
        entity_count: 0,
        schema_size: 0,
        unfit: 0,
        missing: 0,
    };
    write_header(store, header);
    store[HEADER] = 0;
    store[HEADER + 1] = 0;
}

// How many entities do not fit the schema, and how many actions of the schema are not among the entities.
pub fn set_counts(store: &mut [u64], unfit: usize, missing: usize)
    requires { Good store.old }
    ensures { Holds store.new (with_counts unfit missing (sections store.old)) }
{
    let header = header_of(store);
    let counted = Header {
        unfit,
        missing,
        ..header
    };
    write_header(store, counted);
}
