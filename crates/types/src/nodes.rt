// Types at run time, and how they are read from memory.
ghost use Rattle.std.specs.Prelude.{◌≡◌, ◌+◌, ◌≤◌, true, false, [], length};
ghost use Rattle.spec.specs.Basics.{same};
ghost use Rattle.values.specs.Held.{text_at, TextIn, behind_text};
ghost use Rattle.types.specs.Held.{bool_by, type_by, row_type_at, made_at, TypeRowIn, AttrIn, CountIn, count_at, name_at, required_at, attr_type_at, next_at, is_stored, place_of};

use values::Memory;
use values::texts::same_texts;

// What a truth may be.
#[derive(Clone, Copy, Debug, PartialEq, Eq)]
pub enum BoolType {
    Any,
    True,
    False,
}

// The numbers are places and no Box: all memory is lent. That a type is good there is a clause and no field of it: as the work memory grows, the same type is
// good in one memory after the other. The first three are places of the store, where a name, the row of what is in a set, or the number of a record's
// attributes lies; the others are places of the work memory.
#[derive(Clone, Copy, Debug, PartialEq, Eq)]
pub enum CedarType {
    Bool(BoolType),
    Int,
    String,
    Entity(usize),
    Set(usize),
    Record(usize),
    MadeSet(usize),
    MadeRecord(usize),
}

// Where the number of a record's attributes lies, and its attributes behind it: in the store, or in the work memory.
#[derive(Clone, Copy, Debug, PartialEq, Eq)]
pub enum RecordPlace {
    Stored(usize),
    Made(usize),
}

impl RecordPlace {
    pub fn at(self) -> usize
        ensures { result ≡ place_of self }
    {
        match self {
            RecordPlace::Stored(p) | RecordPlace::Made(p) => p,
        }
    }
}

// An attribute of a record, and where the next one begins.
#[derive(Clone, Copy, Debug, PartialEq, Eq)]
pub struct Attr {
    pub name: usize,
    pub required: bool,
    pub ty: CedarType,
    pub next: usize,
}

// Rows are of calls that were read, so no number stands for nothing: the last is for all that are left.
impl From<u64> for BoolType {
    ghost from_gives = { λ x t. t ≡ bool_by x };

    fn from(x: u64) -> Self {
        match x {
            0 => BoolType::Any,
            1 => BoolType::True,
            _ => BoolType::False,
        }
    }
}

// The type whose row lies at a place of the store.
pub fn row_type(store: &[u64], p: usize) -> CedarType
    requires { TypeRowIn store.now p }
    ensures { result ≡ row_type_at store.now p }
{
    match store[p] {
        0 => CedarType::Bool(BoolType::from(store[p + 2])),
        1 => CedarType::Int,
        2 => CedarType::String,
        3 => CedarType::Entity(p + 2),
        4 => CedarType::Set(p + 2),
        _ => CedarType::Record(p + 2),
    }
}

// The type that two numbers of the work memory are.
pub fn made_type(work: &[u64], p: usize) -> CedarType
    requires { p + 2 ≤ length work.now }
    ensures { result ≡ made_at work.now p }
{
    let x = work[p + 1];
    match work[p] {
        0 => CedarType::Bool(BoolType::from(x)),
        1 => CedarType::Int,
        2 => CedarType::String,
        3 => CedarType::Entity(x as usize),
        4 => CedarType::Set(x as usize),
        5 => CedarType::Record(x as usize),
        6 => CedarType::MadeSet(x as usize),
        _ => CedarType::MadeRecord(x as usize),
    }
}

// How many attributes a record has.
pub fn count(memory: &Memory<'_>, place: RecordPlace) -> usize
    requires { CountIn (is_stored place) memory.now.store.now (length memory.now.work.now) (place_of place) }
    ensures { result ≡ count_at (is_stored place) memory.now.store.now memory.now.work.now (place_of place) }
{
    match place {
        RecordPlace::Stored(p) => memory.store[p] as usize,
        RecordPlace::Made(p) => memory.work[p] as usize,
    }
}

fn stored_attr(store: &[u64], e: usize) -> Attr
    requires { AttrIn true store.now [] 0 e }
    ensures name { result.name ≡ name_at true store.now [] e }
    ensures required { result.required ≡ required_at true store.now e }
    ensures ty { result.ty ≡ attr_type_at true store.now [] e }
    ensures next { result.next ≡ next_at true store.now e }
{
    let row = e + 1 + 1 + store[e + 1] as usize;
    Attr {
        name: e + 1,
        required: store[e] == 1,
        ty: row_type(store, row),
        next: row + store[row + 1] as usize,
    }
}

fn made_attr(work: &[u64], e: usize) -> Attr
    requires { e + 3 ≤ length work.now }
    ensures name { result.name ≡ name_at false [] work.now e }
    ensures required { result.required ≡ required_at false [] e }
    ensures ty { result.ty ≡ attr_type_at false [] work.now e }
    ensures next { result.next ≡ next_at false [] e }
{
    Attr {
        name: work[e] as usize,
        required: true,
        ty: made_type(work, e + 1),
        next: e + 3,
    }
}

// The attribute of a record that begins at a place.
pub fn attr_at(memory: &Memory<'_>, place: RecordPlace, e: usize) -> Attr
    requires { AttrIn (is_stored place) memory.now.store.now memory.now.work.now (length memory.now.work.now) e }
    ensures name { result.name ≡ name_at (is_stored place) memory.now.store.now memory.now.work.now e }
    ensures required { result.required ≡ required_at (is_stored place) memory.now.store.now e }
    ensures ty { result.ty ≡ attr_type_at (is_stored place) memory.now.store.now memory.now.work.now e }
    ensures next { result.next ≡ next_at (is_stored place) memory.now.store.now e }
{
    match place {
        RecordPlace::Stored(_) => stored_attr(memory.store, e),
        RecordPlace::Made(_) => made_attr(memory.work, e),
    }
}

// Whether two names of the store are the same.
pub fn same_names(store: &[u64], p: usize, q: usize) -> bool
    requires left { TextIn store.now p }
    requires right { TextIn store.now q }
    ensures { result ≡ same (text_at store.now p) (text_at store.now q) }
{
    let memory = Memory { store, work: &[] };
    same_texts(&memory, p, q)
}
