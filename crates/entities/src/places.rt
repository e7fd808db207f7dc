// Where the parts of an entity's row lie.
ghost use Rattle.std.specs.Prelude.{◌≡◌, ℕ, Bool, ◌^◌, ◌<◌, ◌++◌};
ghost use Rattle.spec.specs.Basics.{any};
ghost use Rattle.spec.specs.Values.{EntityUID};
ghost use Rattle.values.specs.Memory.{numbers};
ghost use Rattle.values.specs.Held.{UIDIn};
ghost use Rattle.entities.specs.Rows.{behind_uid, uids_at, UIDsIn, TestsBy, behind_node, RecordAt, attrs_place, tags_place, ancestors_place, EntityIn};
ghost use Rattle.entities.specs.Props.{EntityIn-prop};

use values::Memory;

pub fn behind_uid(memory: &Memory<'_>, p: usize) -> usize
    requires name { UIDIn (numbers memory.now) p }
    ensures { result ≡ behind_uid (numbers memory.now) p }
{
    let q = p + 1 + memory.word(p) as usize;
    q + 1 + memory.word(q) as usize
}

// Whether one of n names that lie one behind the other from `first` on passes a test.
pub fn any_name<F: Fn(usize) -> bool>(memory: &Memory<'_>, first: usize, n: usize, test: F) -> bool
    requires names { UIDsIn (numbers memory.now) first n }
    requires test { (p : ℕ) → UIDIn (numbers memory.now) p → F.pre test p }
    ensures { (f : EntityUID → Bool) → TestsBy (numbers memory.now) (F.post test) f → result ≡ any f (uids_at (numbers memory.now) first n) }
{
    let mut p = first;
    // names have lengths of their own, so where one begins is known from the one before it
    for _ in 0..n {
        if test(p) {
            return true;
        }
        p = behind_uid(memory, p);
    }
    false
}

// A stored node begins with its length.
fn behind_node(memory: &Memory<'_>, p: usize) -> usize
    requires node { RecordAt (numbers memory.now) p }
    requires lies { behind_node (numbers memory.now) p < 2 ^ 64 }
    ensures { result ≡ behind_node (numbers memory.now) p }
{
    p + memory.word(p) as usize
}

// The row of an entity, as it lies in a memory.
#[derive(Clone, Copy)]
pub(crate) struct EntityRow<'a> {
    pub memory: Memory<'a>,
    pub at: usize,
    ghost holds: { EntityIn (memory.store.now ++ memory.work.now) at } by { EntityIn-prop (memory.store.now ++ memory.work.now) at },
}

impl EntityRow<'_> {
    pub(crate) fn attrs(&self) -> usize
        ensures { result ≡ attrs_place (numbers self.now.memory) self.now.at }
    {
        behind_uid(&self.memory, self.at)
    }

    pub(crate) fn tags(&self) -> usize
        ensures { result ≡ tags_place (numbers self.now.memory) self.now.at }
    {
        behind_node(&self.memory, self.attrs())
    }

    pub(crate) fn ancestors(&self) -> usize
        ensures { result ≡ ancestors_place (numbers self.now.memory) self.now.at }
    {
        behind_node(&self.memory, self.tags())
    }
}
