// The least type above two: where one of them is of the schema it is that one, else it is made at the top of the work memory.
ghost use Rattle.std.specs.Prelude.{◌≡◌, suc, ◌+◌, ◌*◌, ◌<◌, ◌≤◌, true, length, slice_index};
ghost use Rattle.spec.specs.Basics.{is_some};
ghost use Rattle.spec.specs.Types.{lub_bool, lub as lub_of};
ghost use Rattle.types.specs.Held.{means_bool, type_by, decode, Good, made};
ghost use Rattle.types.specs.Joining.{tag_of, Laid, LaidAttr, Joined, Lubbed};

use crate::matching::{Rule, match_types};
use crate::nodes::{BoolType, CedarType, made_type};
use values::Memory;

// The two numbers that a type is laid down as.
impl From<CedarType> for [u64; 2] {
    ghost from_gives = { λ v r. (slice_index r 0 ≡ tag_of v) × (type_by (tag_of v) (slice_index r 1) ≡ v) };

    fn from(v: CedarType) -> Self {
        match v {
            CedarType::Bool(t) => [0, t as u64],
            CedarType::Int => [1, 0],
            CedarType::String => [2, 0],
            CedarType::Entity(p) => [3, p as u64],
            CedarType::Set(p) => [4, p as u64],
            CedarType::Record(p) => [5, p as u64],
            CedarType::MadeSet(p) => [6, p as u64],
            CedarType::MadeRecord(p) => [7, p as u64],
        }
    }
}

// Lays a type down as two numbers: a set of it, if that is the whole node.
pub fn lay(work: &mut [u64], at: usize, v: CedarType)
    requires { at + 2 ≤ length work.old }
    ensures { Laid work.old work.new at v }
{
    work[at..at + 2].copy_from_slice(&<[u64; 2]>::from(v));
}

// Lays an attribute down as three numbers.
pub fn lay_attr(work: &mut [u64], at: usize, name: usize, v: CedarType)
    requires { at + 3 ≤ length work.old }
    ensures { LaidAttr work.old work.new at name v }
{
    work[at] = name as u64;
    lay(work, at + 1, v);
}

fn lub_bools(a: BoolType, b: BoolType) -> BoolType
    ensures { means_bool result ≡ lub_bool (means_bool a) (means_bool b) }
{
    if a == b { a } else { BoolType::Any }
}

// The least type above two that have one.
// The work memory and its top stay apart: kept in a struct, the `&mut` would have each function promise too that it is still the same one.
#[cycle(joining)]
fn join(
    store: &[u64],
    work: &mut [u64],
    top: &mut usize,
    v: CedarType,
    u: CedarType,
    height: u64,
) -> CedarType
    requires fits { top.old ≤ length work.old }
    requires room { top.old + made height work.old v ≤ length work.old }
    requires left { Good height store.now work.old 0 top.old v }
    requires right { Good height store.now work.old 0 top.old u }
    requires exists { is_some (lub_of (decode height store.now work.old v) (decode height store.now work.old u)) ≡ true }
    ensures { Joined height store.now work.old work.new top.old top.new v u result }
{
    if height == 0 {
        return v;
    }
    join_kind(store, work, top, v, u, height - 1)
}

#[cycle(joining)]
fn join_kind(
    store: &[u64],
    work: &mut [u64],
    top: &mut usize,
    v: CedarType,
    u: CedarType,
    height: u64,
) -> CedarType
    requires fits { top.old ≤ length work.old }
    requires room { top.old + made (suc height) work.old v ≤ length work.old }
    requires left { Good (suc height) store.now work.old 0 top.old v }
    requires right { Good (suc height) store.now work.old 0 top.old u }
    requires exists { is_some (lub_of (decode (suc height) store.now work.old v) (decode (suc height) store.now work.old u)) ≡ true }
    ensures { Joined (suc height) store.now work.old work.new top.old top.new v u result }
{
    // Of the pair the proof would not learn that the second was not made where only the first was: so v is matched first.
    match v {
        CedarType::Bool(a) => match u {
            CedarType::Bool(b) => CedarType::Bool(lub_bools(a, b)),
            _ => v,
        },
        CedarType::MadeSet(p) => match u {
            CedarType::MadeSet(q) => join_sets(store, work, top, p, q, height),
            _ => u,
        },
        CedarType::MadeRecord(p) => match u {
            CedarType::MadeRecord(q) => join_records(store, work, top, p, q, height),
            _ => u,
        },
        _ => v,
    }
}

// Of two sets that were made.
#[cycle(joining)]
fn join_sets(
    store: &[u64],
    work: &mut [u64],
    top: &mut usize,
    p: usize,
    q: usize,
    height: u64,
) -> CedarType
    requires fits { top.old ≤ length work.old }
    requires room { top.old + made (suc height) work.old (CedarType.MadeSet p) ≤ length work.old }
    requires left { Good (suc height) store.now work.old 0 top.old (CedarType.MadeSet p) }
    requires right { Good (suc height) store.now work.old 0 top.old (CedarType.MadeSet q) }
    requires exists { is_some (lub_of (decode (suc height) store.now work.old (CedarType.MadeSet p)) (decode (suc height) store.now work.old (CedarType.MadeSet q))) ≡ true }
    ensures { Joined (suc height) store.now work.old work.new top.old top.new (CedarType.MadeSet p) (CedarType.MadeSet q) result }
{
    let x = made_type(work, p);
    let y = made_type(work, q);
    let z = join(store, work, top, x, y, height);
    let t = *top;
    lay(work, t, z);
    *top = t + 2;
    CedarType::MadeSet(t)
}

// Of two records that were made: their attributes are the same, in the same order. The node comes first, and what its attributes hold behind it.
// By index: the node is written in the memory that is read.
#[cycle(joining)]
fn join_records(
    store: &[u64],
    work: &mut [u64],
    top: &mut usize,
    p: usize,
    q: usize,
    height: u64,
) -> CedarType
    requires fits { top.old ≤ length work.old }
    requires room { top.old + made (suc height) work.old (CedarType.MadeRecord p) ≤ length work.old }
    requires left { Good (suc height) store.now work.old 0 top.old (CedarType.MadeRecord p) }
    requires right { Good (suc height) store.now work.old 0 top.old (CedarType.MadeRecord q) }
    requires exists { is_some (lub_of (decode (suc height) store.now work.old (CedarType.MadeRecord p)) (decode (suc height) store.now work.old (CedarType.MadeRecord q))) ≡ true }
    ensures { Joined (suc height) store.now work.old work.new top.old top.new (CedarType.MadeRecord p) (CedarType.MadeRecord q) result }
{
    let a = *top;
    let n = work[p] as usize;
    *top = a + 1 + 3 * n;
    for i in 0..n {
        let name = work[p + 1 + 3 * i] as usize;
        let x = made_type(work, p + 1 + 3 * i + 1);
        let y = made_type(work, q + 1 + 3 * i + 1);
        let z = join(store, work, top, x, y, height);
        lay_attr(work, a + 1 + 3 * i, name, z);
    }
    work[a] = n as u64;
    CedarType::MadeRecord(a)
}

// The least type above two, if there is one.
pub fn lub(
    store: &[u64],
    work: &mut [u64],
    top: &mut usize,
    v: CedarType,
    u: CedarType,
    height: u64,
) -> Option<CedarType>
    requires fits { top.old ≤ length work.old }
    requires room { top.old + made height work.old v ≤ length work.old }
    requires left { Good height store.now work.old 0 top.old v }
    requires right { Good height store.now work.old 0 top.old u }
    ensures { Lubbed height store.now work.old work.new top.old top.new v u result }
{
    let memory = Memory { store, work };
    if !match_types(&memory, Rule::Joins, v, u, height) {
        return None;
    }
    Some(join(store, work, top, v, u, height))
}
