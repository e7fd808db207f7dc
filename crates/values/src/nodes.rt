// Values at run time, and the nodes of sets and records that hold them.
// A node goes by the memory and its place, and is no struct: it is asked one thing at a time, and mostly once.
ghost use Rattle.std.specs.Prelude.{◌≡◌, ◌+◌, ◌*◌, ◌^◌, ◌<◌, ◌≤◌, length, slice_index};
ghost use Rattle.values.specs.Held.{lowered, base, count, value_of, element_at, name_at, attr_at, place};
ghost use Rattle.values.specs.Making.{tag_of};
ghost use Rattle.values.specs.Memory.{numbers};

use crate::memory::Memory;

// The numbers are places and no Box: all memory is lent. That a value is good there is a clause and no field of it: as the work memory grows, the same
// value is good in one memory after the other.
#[derive(Clone, Copy, Debug, PartialEq, Eq)]
pub enum Value {
    Bool(bool),
    Int(i64),
    String(usize),
    Entity(usize),
    Set(usize),
    Record(usize),
}

// Integers stand in memory 2^63 higher. No method of the library moves by 2^63.
pub fn int(x: u64) -> i64
    ensures { result ≡ lowered x }
{
    (x as i128 - 0x8000_0000_0000_0000) as i64
}

impl Value {
    // Kinds come in the order of these. A number and no enum, since it is written into the lent memory.
    pub(crate) fn tag(self) -> u64
        ensures { result ≡ tag_of self }
    {
        match self {
            Value::Bool(_) => 0,
            Value::Int(_) => 1,
            Value::String(_) => 2,
            Value::Entity(_) => 3,
            Value::Set(_) => 4,
            Value::Record(_) => 5,
        }
    }
}

// What an entry of a node has of its value: the kind, and the value itself or where it lies.
#[derive(Clone, Copy, Debug, PartialEq, Eq)]
pub(crate) struct Slot {
    pub(crate) tag: u64,
    pub(crate) load: u64,
}

// What an entry has in a node that was made, where places count from 0.
impl From<Value> for Slot {
    ghost from_gives = { λ v s. (s.tag ≡ tag_of v) × (value_of 0 s.tag s.load ≡ v) };

    fn from(v: Value) -> Self {
        let load = match v {
            Value::Bool(b) => u64::from(b),
            Value::Int(z) => (z as i128 + 0x8000_0000_0000_0000) as u64,
            Value::String(p) | Value::Entity(p) | Value::Set(p) | Value::Record(p) => p as u64,
        };
        Slot { tag: v.tag(), load }
    }
}

impl Slot {
    // The value, in a node whose places count from `base`.
    pub(crate) fn value(self, base: usize) -> Value
        requires { place (value_of base self.tag self.load) < 2 ^ 64 }
        ensures { result ≡ value_of base self.tag self.load }
    {
        let Slot { tag, load } = self;
        match tag {
            0 => Value::Bool(load == 1),
            1 => Value::Int(int(load)),
            2 => Value::String(base + load as usize),
            3 => Value::Entity(base + load as usize),
            4 => Value::Set(base + load as usize),
            _ => Value::Record(base + load as usize),
        }
    }
}

// Where the offsets of a node count from: a stored node begins with its length, and one that was made with 0.
fn base_of(memory: &Memory<'_>, p: usize) -> usize
    requires { p < length (numbers memory.now) }
    ensures { result ≡ base (numbers memory.now) p }
{
    if memory.word(p) == 0 { 0 } else { p }
}

// How many elements or attributes a node has.
pub fn count_of(memory: &Memory<'_>, p: usize) -> usize
    requires fits { p + 2 ≤ length (numbers memory.now) }
    ensures { result ≡ count (numbers memory.now) p }
{
    memory.word(p + 1) as usize
}

fn slot_at(memory: &Memory<'_>, at: usize) -> Slot
    requires { at + 2 ≤ length (numbers memory.now) }
    ensures tag { result.tag ≡ slice_index (numbers memory.now) at }
    ensures load { result.load ≡ slice_index (numbers memory.now) (at + 1) }
{
    Slot {
        tag: memory.word(at),
        load: memory.word(at + 1),
    }
}

// This and the two below are three functions: with the width of an entry as an argument each caller would say it.
pub fn element_of(memory: &Memory<'_>, p: usize, k: usize) -> Value
    requires fits { p + 2 + 2 * count (numbers memory.now) p ≤ length (numbers memory.now) }
    requires under { k < count (numbers memory.now) p }
    requires lies { place (element_at (numbers memory.now) p k) < 2 ^ 64 }
    ensures { result ≡ element_at (numbers memory.now) p k }
{
    slot_at(memory, p + 2 + 2 * k).value(base_of(memory, p))
}

pub fn name_of(memory: &Memory<'_>, p: usize, k: usize) -> usize
    requires fits { p + 2 + 3 * count (numbers memory.now) p ≤ length (numbers memory.now) }
    requires under { k < count (numbers memory.now) p }
    requires lies { name_at (numbers memory.now) p k < 2 ^ 64 }
    ensures { result ≡ name_at (numbers memory.now) p k }
{
    base_of(memory, p) + memory.word(p + 2 + 3 * k) as usize
}

pub fn attr_of(memory: &Memory<'_>, p: usize, k: usize) -> Value
    requires fits { p + 2 + 3 * count (numbers memory.now) p ≤ length (numbers memory.now) }
    requires under { k < count (numbers memory.now) p }
    requires lies { place (attr_at (numbers memory.now) p k) < 2 ^ 64 }
    ensures { result ≡ attr_at (numbers memory.now) p k }
{
    slot_at(memory, p + 2 + 3 * k + 1).value(base_of(memory, p))
}
