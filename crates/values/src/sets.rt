// Sets: what is in them, and sets that are made at the top of the work memory.
ghost use Rattle.std.specs.Prelude.{◌≡◌, ℕ, ◌+◌, ◌*◌, ◌^◌, ◌<◌, ◌≤◌, ◌++◌, length, take, slice_index};
ghost use Rattle.spec.specs.Basics.{any, all, is_empty};
ghost use Rattle.spec.specs.Values.{set};
ghost use Rattle.spec.specs.Evaluate.{is_in};
ghost use Rattle.values.specs.Memory.{numbers};
ghost use Rattle.values.specs.Order.{order_value};
ghost use Rattle.values.specs.Held.{count, element_at, decode, SetIn, Good, Stands, elements_of};
ghost use Rattle.values.specs.Making.{up_to, Made, Spotted, Inserted, waiting, waiting_values, values_of, Laid};

use crate::making::{lay, open};
use crate::memory::Memory;
use crate::nodes::{Slot, Value, count_of, element_of};
use crate::ordering::compare;
use crate::search::binary_search;
use std::cmp::Ordering;

// How a value stands to the k-th element of the set at p. What sets and records have in common here is `binary_search`: what it is told differs in each
// clause.
fn compare_element(memory: &Memory<'_>, p: usize, k: usize, v: Value, height: u64) -> Ordering
    requires whole { SetIn (Good height (numbers memory.now)) (decode height (numbers memory.now)) (numbers memory.now) p }
    requires under { k < count (numbers memory.now) p }
    requires value { Good height (numbers memory.now) v }
    ensures { result ≡ order_value (decode height (numbers memory.now) v) (decode height (numbers memory.now) (element_at (numbers memory.now) p k)) }
{
    compare(memory, v, element_of(memory, p, k), height)
}

// Where a value is in the set at p, or where it belongs.
fn seek(memory: &Memory<'_>, p: usize, v: Value, height: u64) -> Result<usize, usize>
    requires whole { SetIn (Good height (numbers memory.now)) (decode height (numbers memory.now)) (numbers memory.now) p }
    requires value { Good height (numbers memory.now) v }
    ensures { Spotted (λ j. order_value (decode height (numbers memory.now) v) (decode height (numbers memory.now) (element_at (numbers memory.now) p j))) (count (numbers memory.now) p) result }
{
    binary_search(
        count_of(memory, p),
        |k| compare_element(memory, p, k, v, height),
    )
}

pub fn contains(memory: &Memory<'_>, p: usize, v: Value, height: u64) -> bool
    requires whole { Good height (numbers memory.now) (Value.Set p) }
    requires value { Good height (numbers memory.now) v }
    ensures { result ≡ is_in (decode height (numbers memory.now) v) (elements_of (decode height (numbers memory.now) (Value.Set p))) }
{
    seek(memory, p, v, height).is_ok()
}

// Whether the i-th element of the set at q is in the set at p.
fn has_element_of(memory: &Memory<'_>, p: usize, q: usize, i: usize, height: u64) -> bool
    requires whole { Good height (numbers memory.now) (Value.Set p) }
    requires other { Good height (numbers memory.now) (Value.Set q) }
    requires under { i < count (numbers memory.now) q }
    ensures { result ≡ is_in (decode height (numbers memory.now) (element_at (numbers memory.now) q i)) (elements_of (decode height (numbers memory.now) (Value.Set p))) }
{
    contains(memory, p, element_of(memory, q, i), height)
}

// Whether all that is in the set at q is in the set at p.
pub fn contains_all(memory: &Memory<'_>, p: usize, q: usize, height: u64) -> bool
    requires whole { Good height (numbers memory.now) (Value.Set p) }
    requires other { Good height (numbers memory.now) (Value.Set q) }
    ensures { result ≡ all (λ x. is_in x (elements_of (decode height (numbers memory.now) (Value.Set p)))) (elements_of (decode height (numbers memory.now) (Value.Set q))) }
{
    (0..count_of(memory, q)).all(|i| has_element_of(memory, p, q, i, height))
}

// Whether some that is in the set at p is in the set at q.
pub fn contains_any(memory: &Memory<'_>, p: usize, q: usize, height: u64) -> bool
    requires whole { Good height (numbers memory.now) (Value.Set p) }
    requires other { Good height (numbers memory.now) (Value.Set q) }
    ensures { result ≡ any (λ x. is_in x (elements_of (decode height (numbers memory.now) (Value.Set q)))) (elements_of (decode height (numbers memory.now) (Value.Set p))) }
{
    (0..count_of(memory, p)).any(|i| has_element_of(memory, q, p, i, height))
}

pub fn is_empty(memory: &Memory<'_>, p: usize) -> bool
    requires fits { p + 2 ≤ length (numbers memory.now) }
    ensures { (h : ℕ) → Good h (numbers memory.now) (Value.Set p) → result ≡ is_empty (elements_of (decode h (numbers memory.now) (Value.Set p))) }
{
    count_of(memory, p) == 0
}

// One more value for the set that is being made at place a, whose end is the top. The answer is the new top.
// Sets and records are made by functions of their own: a trait for both has to say what an entry waits as, is kept as, is gathered as and what it
// replaces, which is longer.
// The memory and its top stay apart, as in `make_set`.
fn insert(store: &[u64], work: &mut [u64], a: usize, top: usize, v: Value, height: u64) -> usize
    requires room { top + 2 ≤ length work.old }
    requires made { Made height store.now work.old a top }
    requires good { Good height (up_to store.now work.old a) v }
    ensures { Inserted height store.now work.old work.new a top result v }
{
    let made = Memory {
        store,
        work: &work[..top],
    };
    let Err(k) = seek(&made, store.len() + a, v, height) else {
        return top;
    };
    let slot = Slot::from(v);
    open(work, a + 2 + 2 * k, top, &[slot.tag, slot.load]);
    work[a + 1] += 1;
    top + 2
}

// Lays a value down to wait for its set: two numbers at a place.
pub fn lay_element(work: &mut [u64], at: usize, v: Value)
    requires { at + 2 ≤ length work.old }
    ensures { Laid work.old work.new at v }
{
    let slot = Slot::from(v);
    lay(work, at, &[slot.tag, slot.load]);
}

// The set of n values that wait from a place on: it is made at the top of the work memory, which moves behind it. It goes from the last to the first, as
// the definitions do.
// The work memory and its top stay apart: a struct that holds the `&mut` would have each function promise too that it is still the same one.
pub fn make_set(
    store: &[u64],
    work: &mut [u64],
    top: &mut usize,
    from: usize,
    n: usize,
    height: u64,
) -> Value
    requires room { top.old + 2 + 2 * n ≤ from }
    requires fits { from + 2 * n ≤ length work.old }
    requires good { (k : ℕ) → k < n → Good height (up_to store.now work.old top.old) (waiting work.old from k) }
    ensures rises { top.old ≤ top.new }
    ensures few { top.new ≤ top.old + 2 + 2 * n }
    ensures keeps { take top.old work.new ≡ take top.old work.old }
    ensures beyond { (i : ℕ) → from ≤ i → slice_index work.new i ≡ slice_index work.old i }
    ensures is { Stands (height + 1) (up_to store.now work.new top.new) result (set (values_of (waiting_values height (up_to store.now work.old top.old) work.old from n))) }
{
    let a = *top;
    lay(work, a, &[0, 0]);
    *top = a + 2;
    for k in (0..n).rev() {
        let slot = Slot {
            tag: work[from + 2 * k],
            load: work[from + 2 * k + 1],
        };
        *top = insert(store, work, a, *top, slot.value(0), height);
    }
    Value::Set(store.len() + a)
}
