// The order of values: that of their code rows, told by their parts.
ghost use Rattle.std.specs.Prelude.{◌≡◌, ◌^◌, ◌<◌, ◌++◌, length};
ghost use Rattle.spec.specs.Values.{same_value};
ghost use Rattle.values.specs.Memory.{numbers};
ghost use Rattle.values.specs.Order.{order_by_code, order_value, order_values, order_attrs};
ghost use Rattle.values.specs.Held.{values_at, attrs_at, means, decode, SetIn, RecordIn, Sound, Good};

use crate::memory::Memory;
use crate::nodes::{Value, attr_of, count_of, element_of, name_of};
use crate::texts::{compare_texts, compare_uids};
use std::cmp::Ordering;

// The order of two values: by their parts, which is that of the definitions, by their code rows.
#[cycle(compare)]
pub fn compare(memory: &Memory<'_>, v: Value, w: Value, height: u64) -> Ordering
    requires left { Good height (numbers memory.now) v }
    requires right { Good height (numbers memory.now) w }
    ensures parts { result ≡ order_value (decode height (numbers memory.now) v) (decode height (numbers memory.now) w) }
    ensures code { result ≡ order_by_code (decode height (numbers memory.now) v) (decode height (numbers memory.now) w) }
{
    if height == 0 {
        return Ordering::Equal;
    }
    compare_kind(memory, v, w, height - 1)
}

// Kinds come in the order of their tags.
#[cycle(compare)]
fn compare_kind(memory: &Memory<'_>, v: Value, w: Value, height: u64) -> Ordering
    requires left { Sound (Good height (numbers memory.now)) (decode height (numbers memory.now)) (numbers memory.now) v }
    requires right { Sound (Good height (numbers memory.now)) (decode height (numbers memory.now)) (numbers memory.now) w }
    ensures { result ≡ order_value (means (decode height (numbers memory.now)) (numbers memory.now) v) (means (decode height (numbers memory.now)) (numbers memory.now) w) }
{
    match (v, w) {
        (Value::Bool(a), Value::Bool(b)) => a.cmp(&b),
        (Value::Int(a), Value::Int(b)) => a.cmp(&b),
        (Value::String(a), Value::String(b)) => compare_texts(memory, a, b),
        (Value::Entity(a), Value::Entity(b)) => compare_uids(memory, a, b),
        (Value::Set(a), Value::Set(b)) => compare_sets(memory, a, b, height),
        (Value::Record(a), Value::Record(b)) => compare_records(memory, a, b, height),
        _ => v.tag().cmp(&w.tag()),
    }
}

// Sets and records have a loop each: in a cycle of calls a closure says itself all that it needs, so one function over closures would be longer than both.
#[cycle(compare)]
fn compare_sets(memory: &Memory<'_>, p: usize, q: usize, height: u64) -> Ordering
    requires left { SetIn (Good height (numbers memory.now)) (decode height (numbers memory.now)) (numbers memory.now) p }
    requires right { SetIn (Good height (numbers memory.now)) (decode height (numbers memory.now)) (numbers memory.now) q }
    ensures { result ≡ order_values (values_at (decode height (numbers memory.now)) (numbers memory.now) p) (values_at (decode height (numbers memory.now)) (numbers memory.now) q) }
{
    let n = count_of(memory, p);
    let k = count_of(memory, q);
    for i in 0..n.min(k) {
        let v = element_of(memory, p, i);
        let w = element_of(memory, q, i);
        let order = compare(memory, v, w, height);
        if order.is_ne() {
            return order;
        }
    }
    n.cmp(&k)
}

#[cycle(compare)]
fn compare_records(memory: &Memory<'_>, p: usize, q: usize, height: u64) -> Ordering
    requires left { RecordIn (Good height (numbers memory.now)) (numbers memory.now) p }
    requires right { RecordIn (Good height (numbers memory.now)) (numbers memory.now) q }
    ensures { result ≡ order_attrs (attrs_at (decode height (numbers memory.now)) (numbers memory.now) p) (attrs_at (decode height (numbers memory.now)) (numbers memory.now) q) }
{
    let n = count_of(memory, p);
    let k = count_of(memory, q);
    for i in 0..n.min(k) {
        let a = name_of(memory, p, i);
        let b = name_of(memory, q, i);
        let names = compare_texts(memory, a, b);
        if names.is_ne() {
            return names;
        }
        let v = attr_of(memory, p, i);
        let w = attr_of(memory, q, i);
        let order = compare(memory, v, w, height);
        if order.is_ne() {
            return order;
        }
    }
    n.cmp(&k)
}

pub fn equal(memory: &Memory<'_>, v: Value, w: Value, height: u64) -> bool
    requires left { Good height (numbers memory.now) v }
    requires right { Good height (numbers memory.now) w }
    ensures { result ≡ same_value (decode height (numbers memory.now) v) (decode height (numbers memory.now) w) }
{
    compare(memory, v, w, height).is_eq()
}
