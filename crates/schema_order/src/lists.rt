// Lists in bytes that were read before: where they end, whether they are in order, and whether something is in them.
// Bytes and a place among them make no struct: the bytes stay while the place moves on, and most functions take two places.
ghost use Rattle.std.specs.Prelude.{◌≡◌, ◌+◌, ◌≤◌, not, cond, Bool, List, Some, None, length, drop};
ghost use Rattle.spec.specs.Basics.{same, less, any, all, ascending};
ghost use Rattle.reader.specs.Ends.{Got, ending};
ghost use Rattle.schema_order.specs.Places.{Ends, Within, Item, read_item, read_many, list_at, key, key_at, plain, before, IsElement, Decides, DecidesItem, each};

use crate::texts::{less_text, same_text};
use crate::uids::{less_uid, same_uid};
use reader::ends::{node_end, text_end};
use reader::grammar::Kind;
use reader::scan::{CALL_HEIGHT, PART_HEIGHT};

// What stands in an entry is of the height of a part, and the types in its record are of the next.
pub(crate) const TYPE_HEIGHT: usize = PART_HEIGHT - 1;

// What a list is a list of; attributes have types of some height.
// An enum and no closure: how an element is read, its key and its order are definitions by what the list is of.
#[derive(Clone, Copy)]
pub(crate) enum Listed {
    Names,
    Uids,
    Entries,
    Actions,
    Attributes(usize),
}

// Where an element of a list ends.
pub(crate) fn item_end(bytes: &[u8], at: usize, listed: Listed) -> usize
    requires { (at ≤ length bytes.now) × (Got (read_item listed (drop at bytes.now))) }
    ensures { Ends (length bytes.now) at (read_item listed (drop at bytes.now)) result }
{
    match listed {
        Listed::Names => text_end(bytes, at),
        Listed::Uids => node_end(bytes, at, Kind::Uid, PART_HEIGHT),
        Listed::Entries => node_end(bytes, at, Kind::EntityEntry, CALL_HEIGHT),
        Listed::Actions => node_end(bytes, at, Kind::ActionEntry, CALL_HEIGHT),
        Listed::Attributes(height) => node_end(bytes, text_end(bytes, at + 1), Kind::Type, height),
    }
}

// Goes along a list: where it ends, if a test holds of the place of each element and of the place behind it.
// The loop along lists, but for that of `all_items`. A closure and no iterator: that would be a struct with an invariant and an impl with two ghost
// members, where this loop has seven lines.
fn walk<F: Fn(usize, usize) -> bool>(
    bytes: &[u8],
    at: usize,
    listed: Listed,
    test: F,
) -> Option<usize>
    requires stands { Got (read_many listed (drop at bytes.now)) }
    requires can { (item next : _) → IsElement bytes.now listed item next → F.pre test item next }
    ensures is { (T : Item listed → List (Item listed) → Bool) → Decides (F.post test) bytes.now listed T → result ≡ cond (each T (list_at listed bytes.now at)) (Some (ending at (read_many listed (drop at bytes.now)))) None }
    ensures within { Within at (length bytes.now) result }
{
    let mut end = at;
    while bytes[end] == 1 {
        let item = end + 1;
        let next = item_end(bytes, item, listed);
        if !test(item, next) {
            return None;
        }
        end = next;
    }
    Some(end + 1)
}

// Whether a test holds of the place of each element of a list.
// A loop beside that of `walk`: here the test comes before the element's end is looked for, so that what is found is not gone along.
pub(crate) fn all_items<F: Fn(usize) -> bool>(
    bytes: &[u8],
    at: usize,
    listed: Listed,
    test: F,
) -> bool
    requires stands { Got (read_many listed (drop at bytes.now)) }
    requires can { (item : _) → Got (read_item listed (drop item bytes.now)) → F.pre test item }
    ensures { (T : Item listed → Bool) → DecidesItem (F.post test) bytes.now listed T → result ≡ all T (list_at listed bytes.now at) }
{
    let mut end = at;
    while bytes[end] == 1 {
        let item = end + 1;
        if !test(item) {
            return false;
        }
        end = item_end(bytes, item, listed);
    }
    true
}

// Whether a test holds of the place of some element of a list.
pub(crate) fn any_item<F: Fn(usize) -> bool>(
    bytes: &[u8],
    at: usize,
    listed: Listed,
    test: F,
) -> bool
    requires stands { Got (read_many listed (drop at bytes.now)) }
    requires can { (item : _) → Got (read_item listed (drop item bytes.now)) → F.pre test item }
    ensures { (T : Item listed → Bool) → DecidesItem (F.post test) bytes.now listed T → result ≡ any T (list_at listed bytes.now at) }
{
    let fails = |item: usize| -> bool
        requires { F.pre test item }
        ensures { F.post test item (not result) }
    { !test(item) };
    !all_items(bytes, at, listed, fails)
}

// Where a list ends.
pub(crate) fn list_end(bytes: &[u8], at: usize, listed: Listed) -> usize
    requires { Got (read_many listed (drop at bytes.now)) }
    ensures { Ends (length bytes.now) at (read_many listed (drop at bytes.now)) result }
{
    let Some(end) = walk(bytes, at, listed, |_, _| true) else {
        unreachable()
    };
    end
}

// Whether the key of the element at one place comes before that of the element at another.
fn less_key(bytes: &[u8], a: usize, b: usize, listed: Listed) -> bool
    requires { (Got (read_item listed (drop a bytes.now))) × (Got (read_item listed (drop b bytes.now))) }
    ensures { result ≡ less (key_at listed bytes.now a) (key_at listed bytes.now b) }
{
    match listed {
        Listed::Names => less_text(bytes, a, b),
        Listed::Uids => less_uid(bytes, a, b),
        Listed::Entries => less_text(bytes, a, b),
        Listed::Actions => less_uid(bytes, a, b),
        Listed::Attributes(_) => less_text(bytes, a + 1, b + 1),
    }
}

// Whether nothing stands at `next` in a list, or something whose key comes after that of the element before it.
fn follows(bytes: &[u8], item: usize, next: usize, listed: Listed) -> bool
    requires { (Got (read_item listed (drop item bytes.now))) × (Got (read_many listed (drop next bytes.now))) }
    ensures { result ≡ before (key listed) (key_at listed bytes.now item) (list_at listed bytes.now next) }
{
    if bytes[next] != 1 {
        return true;
    }
    less_key(bytes, item, next + 1, listed)
}

// Whether each key comes before the next.
pub(crate) fn rises(bytes: &[u8], at: usize, listed: Listed) -> bool
    requires { Got (read_many listed (drop at bytes.now)) }
    ensures { result ≡ ascending (key listed) (list_at listed bytes.now at) }
{
    walk(
        bytes,
        at,
        listed,
        |item, next| follows(bytes, item, next, listed),
    )
    .is_some()
}

// Whether a name, of a type or of an entity as the list has them, is the key of an element.
fn same_key(bytes: &[u8], place: usize, item: usize, listed: Listed) -> bool
    requires { (Got (read_item (plain listed) (drop place bytes.now))) × (Got (read_item listed (drop item bytes.now))) }
    ensures { result ≡ same (key_at (plain listed) bytes.now place) (key_at listed bytes.now item) }
{
    match listed {
        Listed::Names => same_text(bytes, place, item),
        Listed::Uids => same_uid(bytes, place, item),
        Listed::Entries => same_text(bytes, place, item),
        Listed::Actions => same_uid(bytes, place, item),
        Listed::Attributes(_) => same_text(bytes, place, item + 1),
    }
}

// Whether a name is the key of some element of a list.
pub(crate) fn among(bytes: &[u8], place: usize, at: usize, listed: Listed) -> bool
    requires { (Got (read_item (plain listed) (drop place bytes.now))) × (Got (read_many listed (drop at bytes.now))) }
    ensures { result ≡ any (λ x. same (key_at (plain listed) bytes.now place) (key listed x)) (list_at listed bytes.now at) }
{
    any_item(
        bytes,
        at,
        listed,
        |item| same_key(bytes, place, item, listed),
    )
}
