// The policies of a store, in the order of their ids.
ghost use Rattle.std.specs.Prelude.{ℕ};
ghost use Rattle.values.specs.Memory.{numbers};
ghost use Rattle.values.specs.Held.{text_at, TextIn};
ghost use Rattle.store.specs.Sections.{sections, policies_at, Good};
ghost use Rattle.store.specs.Changes.{PolicyFound, Comes, PolicyRoom, Goes, PolicyGone, PolicyBegins, PolicyEntry};

use crate::layout::{Header, begin_item, header_of, reopen};
use shelves::finding::{entry_at, find_by_text};
use shelves::{Entry, Extent, Spot};
use values::Memory;

// Where the policy is whose id lies at `key`, or where it would be.
pub fn find_policy(memory: &Memory<'_>, key: usize) -> Spot
    requires good { Good memory.now.store.now }
    requires key { TextIn (numbers memory.now) key }
    ensures { PolicyFound (sections memory.now.store.now) (text_at (numbers memory.now) key) result }
{
    let header = header_of(memory.store);
    find_by_text(memory, header.policies, header.policy_count, key)
}

// Room for a policy's row of so many numbers at a spot that was found: new, or in place of the one that is there. The answer is where the row is to be
// written.
pub fn room_for_policy(store: &mut [u64], spot: Spot, row_length: usize, size: usize) -> usize
    requires good { Good store.old }
    requires comes { Comes (sections store.old) (policies_at (sections store.old)) (sections store.old).policies spot row_length size }
    ensures { PolicyRoom (sections store.old) store.new spot row_length size result }
{
    let header = header_of(store);
    let old = spot.taken();
    let new = Extent {
        numbers: 2 + row_length,
        size,
    };
    let after = Header {
        entities: header.entities - old.numbers + new.numbers,
        policy_count: header.policy_count - spot.count() + 1,
        ..header.with(old, new)
    };
    reopen(store, after, spot.splice(new.numbers), header.used);
    begin_item(store, spot.at, row_length, size)
}

// The policy at a spot that was found goes.
pub fn remove_policy(store: &mut [u64], spot: Spot)
    requires good { Good store.old }
    requires goes { Goes (policies_at (sections store.old)) (sections store.old).policies spot }
    ensures { PolicyGone (sections store.old) store.new spot }
{
    let header = header_of(store);
    let old = spot.taken();
    let after = Header {
        entities: header.entities - old.numbers,
        policy_count: header.policy_count - 1,
        ..header.with(old, Extent::NOTHING)
    };
    reopen(store, after, spot.splice(0), header.used);
}

// The policy that begins at a place: the first at `policies` of the header, each other where the one before it says.
pub fn policy_at(store: &[u64], at: usize) -> Entry
    requires good { Good store.now }
    requires begins { (k : ℕ) × PolicyBegins store.now k at }
    ensures { (k : ℕ) → PolicyBegins store.now k at → PolicyEntry store.now k result }
{
    entry_at(store, at)
}
