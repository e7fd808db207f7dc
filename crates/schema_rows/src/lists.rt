// Lists of things that lie in the store one after the other, behind their number.
// That a list lies at a place is a clause of the three functions that take one: a struct for it would hold the store once more, and each caller has the
// place alone.
ghost use Rattle.std.specs.Prelude.{◌≡◌, ℕ, Bool, true, List, [], find, IfSome};
ghost use Rattle.spec.specs.Basics.{any};
ghost use Rattle.spec.specs.Values.{same_uid};
ghost use Rattle.values.specs.Held.{TextIn, behind_text, uid_at, UIDIn};
ghost use Rattle.types.specs.Held.{AttrIn, TypeRowIn, behind_row, next_at};
ghost use Rattle.schema_rows.specs.Lists.{TestsBy, behind_uid, list_at, behind_list, ListIn};

use values::Memory;
use values::texts::same_uids;

// What lists are made of: what has to lie at a place, and what is behind it.
pub trait Listed {
    ghost lies: { List ℕ → ℕ → Type 0 };

    ghost behind: { List ℕ → ℕ → ℕ };

    fn skip(store: &[u64], e: usize) -> usize
        requires { lies store.now e }
        ensures { result ≡ behind store.now e };
}

pub struct Text;

// A name of an entity: a type and an id.
pub struct Uid;

pub struct Attr;

// The row of a type.
pub struct Row;

impl Listed for Text {
    ghost lies = { TextIn };

    ghost behind = { behind_text };

    fn skip(store: &[u64], e: usize) -> usize {
        e + 1 + store[e] as usize
    }
}

impl Listed for Uid {
    ghost lies = { UIDIn };

    ghost behind = { behind_uid };

    fn skip(store: &[u64], e: usize) -> usize {
        Text::skip(store, Text::skip(store, e))
    }
}

impl Listed for Attr {
    ghost lies = { λ m e. AttrIn true m [] 0 e };

    ghost behind = { λ m e. next_at true m e };

    fn skip(store: &[u64], e: usize) -> usize {
        Row::skip(store, Text::skip(store, e + 1))
    }
}

impl Listed for Row {
    ghost lies = { TypeRowIn };

    ghost behind = { behind_row };

    fn skip(store: &[u64], e: usize) -> usize {
        e + store[e + 1] as usize
    }
}

// What is behind a list. What is in it has a length of its own, so the next is found from the one before it.
pub fn skip_list<T: Listed>(store: &[u64], p: usize) -> usize
    requires { ListIn (T.lies store.now) (T.behind store.now) store.now p }
    ensures { result ≡ behind_list (T.behind store.now) store.now p }
{
    let n = store[p];
    let mut e = p + 1;
    for _ in 0..n {
        e = T::skip(store, e);
    }
    e
}

// The first place in a list that passes a test: as in `skip_list`, the next is found from the one before it.
pub fn find_in<T: Listed, F: Fn(usize) -> bool>(store: &[u64], p: usize, test: F) -> Option<usize>
    requires list { ListIn (T.lies store.now) (T.behind store.now) store.now p }
    requires test { (e : ℕ) → T.lies store.now e → F.pre test e }
    ensures lies { IfSome result (λ e. T.lies store.now e) }
    ensures first { (t : ℕ → Bool) → TestsBy (T.lies store.now) (F.post test) t → result ≡ find t (list_at (λ e. e) (T.behind store.now) store.now p) }
{
    let n = store[p];
    let mut e = p + 1;
    for _ in 0..n {
        if test(e) {
            return Some(e);
        }
        e = T::skip(store, e);
    }
    None
}

// Whether something in a list passes a test.
pub fn any_in<T: Listed, F: Fn(usize) -> bool>(store: &[u64], p: usize, test: F) -> bool
    requires list { ListIn (T.lies store.now) (T.behind store.now) store.now p }
    requires test { (e : ℕ) → T.lies store.now e → F.pre test e }
    ensures { (t : ℕ → Bool) → TestsBy (T.lies store.now) (F.post test) t → result ≡ any t (list_at (λ e. e) (T.behind store.now) store.now p) }
{
    find_in::<T, F>(store, p, test).is_some()
}

// Whether two names of entities in the store are the same.
pub fn same_entities(store: &[u64], p: usize, q: usize) -> bool
    requires left { UIDIn store.now p }
    requires right { UIDIn store.now q }
    ensures { result ≡ same_uid (uid_at store.now p) (uid_at store.now q) }
{
    let memory = Memory { store, work: &[] };
    same_uids(&memory, p, q)
}
