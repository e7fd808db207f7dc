// Records: what they have of a name, and records that are made at the top of the work memory.
ghost use Rattle.std.specs.Prelude.{◌≡◌, ℕ, ◌+◌, ◌*◌, ◌^◌, ◌<◌, ◌≤◌, ◌++◌, length, take, slice_index};
ghost use Rattle.spec.specs.Basics.{lookup};
ghost use Rattle.spec.specs.Values.{record_of};
ghost use Rattle.values.specs.Memory.{numbers};
ghost use Rattle.values.specs.Order.{order_row};
ghost use Rattle.values.specs.Held.{text_at, TextIn, count, name_at, decode, RecordIn, Good, Stands, fields_of, Found};
ghost use Rattle.values.specs.Making.{up_to, Spotted, MadeRecord, InsertedAttr, waiting_name, waiting_attr, waiting_attrs, attrs_of, LaidAttr};

use crate::making::{lay, open};
use crate::memory::Memory;
use crate::nodes::{Slot, Value, attr_of, count_of, name_of};
use crate::search::binary_search;
use crate::texts::compare_names;
use std::cmp::Ordering;

// How a name stands to the k-th name of the record at p. What sets and records have in common here is `binary_search`: what it is told differs in each clause.
fn compare_name(memory: &Memory<'_>, p: usize, k: usize, key: usize) -> Ordering
    requires fits { p + 2 + 3 * count (numbers memory.now) p ≤ length (numbers memory.now) }
    requires under { k < count (numbers memory.now) p }
    requires name { TextIn (numbers memory.now) (name_at (numbers memory.now) p k) }
    requires text { TextIn (numbers memory.now) key }
    ensures { result ≡ order_row (text_at (numbers memory.now) key) (text_at (numbers memory.now) (name_at (numbers memory.now) p k)) }
{
    compare_names(memory, key, name_of(memory, p, k))
}

// Where a name is in the record at p, or where it belongs.
fn seek_name(memory: &Memory<'_>, p: usize, key: usize, height: u64) -> Result<usize, usize>
    requires whole { RecordIn (Good height (numbers memory.now)) (numbers memory.now) p }
    requires text { TextIn (numbers memory.now) key }
    ensures { Spotted (λ j. order_row (text_at (numbers memory.now) key) (text_at (numbers memory.now) (name_at (numbers memory.now) p j))) (count (numbers memory.now) p) result }
{
    binary_search(count_of(memory, p), |k| compare_name(memory, p, k, key))
}

// What the record at p has of the name whose text is at `key`.
pub fn attribute(memory: &Memory<'_>, p: usize, key: usize, height: u64) -> Option<Value>
    requires whole { Good height (numbers memory.now) (Value.Record p) }
    requires text { TextIn (numbers memory.now) key }
    ensures { Found height (numbers memory.now) result (lookup (text_at (numbers memory.now) key) (fields_of (decode height (numbers memory.now) (Value.Record p)))) }
{
    let k = seek_name(memory, p, key, height).ok()?;
    Some(attr_of(memory, p, k))
}

// One more attribute for the record that is being made at place a, whose end is the top: it takes the place of one that has its name. The answer is the
// new top.
fn insert_attr(
    store: &[u64],
    work: &mut [u64],
    a: usize,
    top: usize,
    key: usize,
    v: Value,
    height: u64,
) -> usize
    requires room { top + 3 ≤ length work.old }
    requires made { MadeRecord height store.now work.old a top }
    requires text { TextIn (up_to store.now work.old a) key }
    requires good { Good height (up_to store.now work.old a) v }
    ensures { InsertedAttr height store.now work.old work.new a top result key v }
{
    let made = Memory {
        store,
        work: &work[..top],
    };
    let slot = Slot::from(v);
    match seek_name(&made, store.len() + a, key, height) {
        Ok(k) => {
            lay(work, a + 2 + 3 * k + 1, &[slot.tag, slot.load]);
            top
        }
        Err(k) => {
            open(work, a + 2 + 3 * k, top, &[key as u64, slot.tag, slot.load]);
            work[a + 1] += 1;
            top + 3
        }
    }
}

// Lays an attribute down to wait for its record: three numbers at a place.
pub fn lay_attr(work: &mut [u64], at: usize, key: usize, v: Value)
    requires { at + 3 ≤ length work.old }
    ensures { LaidAttr work.old work.new at key v }
{
    let slot = Slot::from(v);
    lay(work, at, &[key as u64, slot.tag, slot.load]);
}

// The record of n attributes that wait from a place on: it is made at the top of the work memory, which moves behind it. It goes from the last to the
// first, so that the first of a name stays. The memory and its top stay apart, as in `make_set`.
pub fn make_record(
    store: &[u64],
    work: &mut [u64],
    top: &mut usize,
    from: usize,
    n: usize,
    height: u64,
) -> Value
    requires room { top.old + 2 + 3 * n ≤ from }
    requires fits { from + 3 * n ≤ length work.old }
    requires texts { (k : ℕ) → k < n → TextIn (up_to store.now work.old top.old) (waiting_name work.old from k) }
    requires good { (k : ℕ) → k < n → Good height (up_to store.now work.old top.old) (waiting_attr work.old from k) }
    ensures rises { top.old ≤ top.new }
    ensures few { top.new ≤ top.old + 2 + 3 * n }
    ensures keeps { take top.old work.new ≡ take top.old work.old }
    ensures beyond { (i : ℕ) → from ≤ i → slice_index work.new i ≡ slice_index work.old i }
    ensures is { Stands (height + 1) (up_to store.now work.new top.new) result (record_of (attrs_of (waiting_attrs height (up_to store.now work.old top.old) work.old from n))) }
{
    let a = *top;
    lay(work, a, &[0, 0]);
    *top = a + 2;
    for k in (0..n).rev() {
        let key = work[from + 3 * k] as usize;
        let slot = Slot {
            tag: work[from + 3 * k + 1],
            load: work[from + 3 * k + 2],
        };
        *top = insert_attr(store, work, a, *top, key, slot.value(0), height);
    }
    Value::Record(store.len() + a)
}
