// Texts and the names of entities: which comes first, and whether two are the same.
// A text goes by its place, and that one lies there is a clause: the same place is a text in one memory after the other.
ghost use Rattle.std.specs.Prelude.{◌≡◌, ◌+◌, ◌^◌, ◌<◌, ◌≤◌, ◌++◌, length};
ghost use Rattle.spec.specs.Basics.{same};
ghost use Rattle.spec.specs.Values.{same_uid};
ghost use Rattle.values.specs.Memory.{numbers};
ghost use Rattle.values.specs.Order.{order_row, order_text, order_uid};
ghost use Rattle.values.specs.Held.{part, text_at, TextIn, uid_at, UIDIn};

use crate::memory::Memory;
use std::cmp::Ordering;

// Two parts of the memory, number by number.
fn compare_parts(memory: &Memory<'_>, p: usize, n: usize, q: usize, k: usize) -> Ordering
    requires left { p + n ≤ length (numbers memory.now) }
    requires right { q + k ≤ length (numbers memory.now) }
    ensures { result ≡ order_row (part (numbers memory.now) p n) (part (numbers memory.now) q k) }
{
    let left = (p..p + n).map(|i| memory.word(i));
    left.cmp((q..q + k).map(|i| memory.word(i)))
}

// By the bytes alone: the names of a record are kept so.
pub fn compare_names(memory: &Memory<'_>, p: usize, q: usize) -> Ordering
    requires left { TextIn (numbers memory.now) p }
    requires right { TextIn (numbers memory.now) q }
    ensures { result ≡ order_row (text_at (numbers memory.now) p) (text_at (numbers memory.now) q) }
{
    let n = memory.word(p) as usize;
    let k = memory.word(q) as usize;
    compare_parts(memory, p + 1, n, q + 1, k)
}

// By length first, and then by the bytes: texts in values are ordered so.
pub fn compare_texts(memory: &Memory<'_>, p: usize, q: usize) -> Ordering
    requires left { TextIn (numbers memory.now) p }
    requires right { TextIn (numbers memory.now) q }
    ensures { result ≡ order_text (text_at (numbers memory.now) p) (text_at (numbers memory.now) q) }
{
    let n = memory.word(p);
    let k = memory.word(q);
    let bytes = ||
        requires { p + 1 + n ≤ length (numbers memory.now) × q + 1 + k ≤ length (numbers memory.now) }
        ensures { result ≡ order_row (part (numbers memory.entry.now) (p + 1) n) (part (numbers memory.entry.now) (q + 1) k) }
    { compare_parts(memory, p + 1, n as usize, q + 1, k as usize) };
    n.cmp(&k).then_with(bytes)
}

pub fn same_texts(memory: &Memory<'_>, p: usize, q: usize) -> bool
    requires left { TextIn (numbers memory.now) p }
    requires right { TextIn (numbers memory.now) q }
    ensures { result ≡ same (text_at (numbers memory.now) p) (text_at (numbers memory.now) q) }
{
    compare_texts(memory, p, q).is_eq()
}

// By type, and then by id.
pub fn compare_uids(memory: &Memory<'_>, p: usize, q: usize) -> Ordering
    requires left { UIDIn (numbers memory.now) p }
    requires right { UIDIn (numbers memory.now) q }
    ensures { result ≡ order_uid (uid_at (numbers memory.now) p) (uid_at (numbers memory.now) q) }
{
    let a = p + 1 + memory.word(p) as usize;
    let b = q + 1 + memory.word(q) as usize;
    let ids = ||
        requires { TextIn (numbers memory.now) a × TextIn (numbers memory.now) b }
        ensures { result ≡ order_text (text_at (numbers memory.entry.now) a) (text_at (numbers memory.entry.now) b) }
    { compare_texts(memory, a, b) };
    compare_texts(memory, p, q).then_with(ids)
}

pub fn same_uids(memory: &Memory<'_>, p: usize, q: usize) -> bool
    requires left { UIDIn (numbers memory.now) p }
    requires right { UIDIn (numbers memory.now) q }
    ensures { result ≡ same_uid (uid_at (numbers memory.now) p) (uid_at (numbers memory.now) q) }
{
    compare_uids(memory, p, q).is_eq()
}
