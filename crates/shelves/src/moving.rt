// What moves as an item comes or goes: what lies behind it, and the table of where items begin.
ghost use Rattle.std.specs.Prelude.{◌≡◌, ℕ, ◌+◌, ◌-◌, ◌^◌, ◌<◌, ◌≤◌, length, slice_index};
ghost use Rattle.shelves.specs.Moves.{moved, raised, tabled_with, tabled_without};
ghost use Rattle.shelves.specs.Spots.{there, taken};

use crate::finding::Spot;
use crate::table::Table;

// So many numbers at a place become so many others.
#[derive(Clone, Copy, Debug, PartialEq, Eq)]
pub struct Splice {
    pub at: usize,
    pub old: usize,
    pub new: usize,
}

impl Spot {
    // Its item, if there is one, gives way to so many numbers.
    pub fn splice(self, new: usize) -> Splice
        ensures { result ≡ record { at = self.at; old = (taken self).numbers; new = new } }
    {
        Splice {
            at: self.at,
            old: self.taken().numbers,
            new,
        }
    }
}

// The numbers behind, up to `used`, move.
pub fn resize(memory: &mut [u64], splice: Splice, used: usize)
    requires within { splice.at + splice.old ≤ used }
    requires old { used ≤ length memory.old }
    requires new { splice.at + splice.new + (used - (splice.at + splice.old)) ≤ length memory.old }
    ensures { memory.new ≡ moved memory.old splice.at splice.old splice.new used }
{
    let Splice { at, old, new } = splice;
    if old != new {
        memory.copy_within(at + old..used, at + new);
    }
}

// Each number loses `old` and gains `new`.
fn raise(part: &mut [u64], old: u64, new: u64)
    requires { (k : ℕ) → k < length part.old → (old ≤ slice_index part.old k) × (slice_index part.old k + new < 2 ^ 64) }
    ensures { part.new ≡ raised old new part.old }
{
    if old == new {
        return;
    }
    for x in part.iter_mut() {
        *x = *x - old + new;
    }
}

// An item comes at `k` among `count`, in place of `gone`, which is none or one: it begins at `place`, and has `new` numbers for `old` that were there.
// The numbers of a table are as they lie in memory.
pub fn insert_place_at(
    table: &mut [u64],
    k: usize,
    gone: usize,
    count: usize,
    place: u64,
    old: u64,
    new: u64,
)
    requires { (gone ≤ 1) × ((k + gone ≤ count) × ((count ≤ length table.old) × ((count + 1 ≤ length table.old + gone) × (((j : ℕ) → k + gone ≤ j → j < count → (old ≤ slice_index table.old j) × (slice_index table.old j + new < 2 ^ 64)))))) }
    ensures { table.new ≡ tabled_with table.old k gone count place old new }
{
    let change = Splice {
        at: k,
        old: gone,
        new: 1,
    };
    resize(table, change, count);
    table[k] = place;
    raise(&mut table[k + 1..count + 1 - gone], old, new);
}

// An item of `new` numbers comes at a spot among those of a table, whose numbers lie in `places`: new, or in place of the one that is there.
pub fn insert_place(places: &mut [u64], table: Table, spot: Spot, new: usize)
    requires within { spot.index + there spot ≤ table.count }
    requires old { table.count ≤ length places.old }
    requires room { table.count + 1 ≤ length places.old + there spot }
    requires behind { (j : ℕ) → spot.index + there spot ≤ j → j < table.count → ((taken spot).numbers ≤ slice_index places.old j) × (slice_index places.old j + new < 2 ^ 64) }
    ensures { places.new ≡ tabled_with places.old spot.index (there spot) table.count (spot.at - table.from) (taken spot).numbers new }
{
    // places count from where the items begin
    let place = spot.at.saturating_sub(table.from) as u64;
    insert_place_at(
        places,
        spot.index,
        spot.count(),
        table.count,
        place,
        spot.taken().numbers as u64,
        new as u64,
    );
}

// The item at a spot goes.
pub fn remove_place(places: &mut [u64], count: usize, spot: Spot)
    requires under { spot.index < count }
    requires old { count ≤ length places.old }
    requires behind { (j : ℕ) → spot.index < j → j < count → ((taken spot).numbers ≤ slice_index places.old j) × (slice_index places.old j < 2 ^ 64) }
    ensures { places.new ≡ tabled_without places.old spot.index count (taken spot).numbers }
{
    let change = Splice {
        at: spot.index,
        old: 1,
        new: 0,
    };
    resize(places, change, count);
    raise(
        &mut places[spot.index..count - 1],
        spot.taken().numbers as u64,
        0,
    );
}
