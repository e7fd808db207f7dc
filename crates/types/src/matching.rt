// Types that go together: which have a least type above them, which are below another, which are the same.
ghost use Rattle.std.specs.Prelude.{◌≡◌};
ghost use Rattle.types.specs.Held.{means_bool, GoodIn, SoundIn, AttrsLie, type_in, meant_in, attrs_in};
ghost use Rattle.spec.specs.Types.{set, record_of};
ghost use Rattle.types.specs.Matching.{match_bool, match_type, match_attrs};

use crate::nodes::{
    BoolType, CedarType, RecordPlace, attr_at, count, made_type, row_type, same_names,
};
use values::Memory;

// What is asked of two types: that they have a least type above them, that the first is below the second, that they are the same.
// An enum and no closure: what each of the three means is proved of it by name.
#[derive(Clone, Copy, Debug, PartialEq, Eq)]
pub enum Rule {
    Joins,
    Below,
    Same,
}

fn match_bools(rule: Rule, a: BoolType, b: BoolType) -> bool
    ensures { result ≡ match_bool rule (means_bool a) (means_bool b) }
{
    match rule {
        Rule::Joins => true,
        Rule::Below => b == BoolType::Any || a == b,
        Rule::Same => a == b,
    }
}

// Whether two types go together by a rule.
#[cycle(matching)]
pub fn match_types(memory: &Memory<'_>, rule: Rule, v: CedarType, u: CedarType, height: u64) -> bool
    requires left { GoodIn height memory.now v }
    requires right { GoodIn height memory.now u }
    ensures { result ≡ match_type rule (type_in height memory.now v) (type_in height memory.now u) }
{
    if height == 0 {
        return true;
    }
    match_kind(memory, rule, v, u, height - 1)
}

#[cycle(matching)]
fn match_kind(memory: &Memory<'_>, rule: Rule, v: CedarType, u: CedarType, height: u64) -> bool
    requires left { SoundIn height memory.now v }
    requires right { SoundIn height memory.now u }
    ensures { result ≡ match_type rule (meant_in height memory.now v) (meant_in height memory.now u) }
{
    match (v, u) {
        (CedarType::Bool(a), CedarType::Bool(b)) => match_bools(rule, a, b),
        (CedarType::Int, CedarType::Int) => true,
        (CedarType::String, CedarType::String) => true,
        (CedarType::Entity(p), CedarType::Entity(q)) => same_names(memory.store, p, q),
        (CedarType::Set(p), _) => match_element(memory, rule, row_type(memory.store, p), u, height),
        (CedarType::MadeSet(p), _) => match_element(
            memory,
            rule,
            made_type(memory.work, p),
            u,
            height,
        ),
        (CedarType::Record(p), _) => match_record(memory, rule, RecordPlace::Stored(p), u, height),
        (CedarType::MadeRecord(p), _) => match_record(
            memory,
            rule,
            RecordPlace::Made(p),
            u,
            height,
        ),
        _ => false,
    }
}

// A set of the first with a type that may be a set.
#[cycle(matching)]
fn match_element(memory: &Memory<'_>, rule: Rule, v: CedarType, u: CedarType, height: u64) -> bool
    requires left { GoodIn height memory.now v }
    requires right { SoundIn height memory.now u }
    ensures { result ≡ match_type rule (set (type_in height memory.now v)) (meant_in height memory.now u) }
{
    match u {
        CedarType::Set(q) => match_types(memory, rule, v, row_type(memory.store, q), height),
        CedarType::MadeSet(q) => match_types(memory, rule, v, made_type(memory.work, q), height),
        _ => false,
    }
}

// A record with a type that may be a record.
#[cycle(matching)]
fn match_record(memory: &Memory<'_>, rule: Rule, p: RecordPlace, u: CedarType, height: u64) -> bool
    requires left { AttrsLie height memory.now p }
    requires right { SoundIn height memory.now u }
    ensures { result ≡ match_type rule (record_of (attrs_in height memory.now p)) (meant_in height memory.now u) }
{
    match u {
        CedarType::Record(q) => match_attrs(memory, rule, p, RecordPlace::Stored(q), height),
        CedarType::MadeRecord(q) => match_attrs(memory, rule, p, RecordPlace::Made(q), height),
        _ => false,
    }
}

// The attributes of two records, one by one. Attributes have lengths of their own, so the next is found from the one before it.
#[cycle(matching)]
fn match_attrs(memory: &Memory<'_>, rule: Rule, p: RecordPlace, q: RecordPlace, height: u64) -> bool
    requires left { AttrsLie height memory.now p }
    requires right { AttrsLie height memory.now q }
    ensures { result ≡ match_attrs rule (attrs_in height memory.now p) (attrs_in height memory.now q) }
{
    let n = count(memory, p);
    if n != count(memory, q) {
        return false;
    }
    let mut e = p.at() + 1;
    let mut f = q.at() + 1;
    for _ in 0..n {
        let a = attr_at(memory, p, e);
        let b = attr_at(memory, q, f);
        if !same_names(memory.store, a.name, b.name) {
            return false;
        }
        if a.required != b.required {
            return false;
        }
        if !match_types(memory, rule, a.ty, b.ty, height) {
            return false;
        }
        e = a.next;
        f = b.next;
    }
    true
}
