// Goes along a tree and counts, whatever it is that is counted: the size of what a call carries, or the length of its row.
// Loops and no folds: in a cycle of calls a closure says itself all that it needs, so it would repeat the clauses of `fields` or `field`.
// No struct for the bytes and that they are few: it would carry the type of what counts, which none of its fields has.
ghost use Rattle.std.specs.Prelude.{◌≡◌, ◌+◌, ◌≤◌, length, drop};
ghost use Rattle.wire.specs.Read.{read_list};
ghost use Rattle.wire.specs.Grammar.{list as list_of, read_field, read_fields, read_node};
ghost use Rattle.reader.specs.Code.{kind_of, items_of, field_of, fields_of, is_part, is_small, parts, smalls};
ghost use Rattle.reader.specs.Found.{found};
ghost use Rattle.reader.specs.Counts.{Counts, Lawful, count_field, count_fields, Countable, Paid, sizes};
ghost use Rattle.reader.specs.Sizes.{sizes_lawful};

use crate::grammar::{Field, Items, Kind, item_fields};
use crate::scan::{Found, choice, number, opens, pattern, text};

// What is counted: a text and a pattern count one for each element and one more, and this is what else counts.
pub trait Counting {
    ghost counts: { Counts };

    ghost lawful: { Lawful counts };

    fn part() -> usize
        ensures { result ≡ counts.part };

    // A number, or a byte that tells things apart, in a tree of this kind.
    fn unit(kind: Kind) -> usize
        ensures { result ≡ counts.unit (kind_of kind) };

    // What stands before a tree.
    fn head(kind: Kind) -> usize
        ensures { result ≡ counts.head (kind_of kind) };

    // What stands before the elements of a list.
    fn beginning(items: Items) -> usize
        ensures { result ≡ counts.beginning (items_of items) };

    fn each(items: Items) -> usize
        ensures { result ≡ counts.each (items_of items) };
}

// Any number of elements of one shape, each behind a 1, and a 0 behind them all. A loop: where the next element stands is known only once one was read.
#[cycle(field_fields_list_node)]
fn list<C: Counting>(
    bytes: &[u8],
    at: usize,
    items: Items,
    unit: usize,
    height: usize,
) -> Result<Found, usize>
    requires small { Countable C.counts (length bytes.now) }
    requires inside { at ≤ length bytes.now }
    requires paid { C.counts.part + unit ≤ C.counts.weight }
    ensures reads { result ≡ found (count_field C.counts unit (list_of (items_of items))) at (read_list (read_fields (read_node height) (items_of items)) 0 (drop at bytes.now)) }
    ensures within { Paid C.counts 0 0 at (length bytes.now) result }
{
    let shape = item_fields(items);
    let mut end = at;
    let mut size = C::beginning(items);
    loop {
        match bytes.get(end) {
            Some(0) => return Ok(Found { end: end + 1, size }),
            Some(1) => {
                let item = fields::<C>(bytes, end + 1, shape, unit, height)?;
                end = item.end;
                size += C::each(items) + item.size;
            }
            _ => return Err(end),
        }
    }
}

#[cycle(field_fields_list_node)]
pub fn fields<C: Counting>(
    bytes: &[u8],
    at: usize,
    shape: &[Field],
    unit: usize,
    height: usize,
) -> Result<Found, usize>
    requires small { Countable C.counts (length bytes.now) }
    requires inside { at ≤ length bytes.now }
    requires paid { C.counts.part + unit ≤ C.counts.weight }
    ensures reads { result ≡ found (count_fields C.counts unit (fields_of shape.now)) at (read_fields (read_node height) (fields_of shape.now) (drop at bytes.now)) }
    ensures within { Paid C.counts (parts (fields_of shape.now)) (smalls (fields_of shape.now)) at (length bytes.now) result }
{
    let mut end = at;
    let mut size = 0;
    for f in shape {
        let part = field::<C>(bytes, end, *f, unit, height)?;
        end = part.end;
        size += part.size;
    }
    Ok(Found { end, size })
}

#[cycle(field_fields_list_node)]
fn field<C: Counting>(
    bytes: &[u8],
    at: usize,
    shape: Field,
    unit: usize,
    height: usize,
) -> Result<Found, usize>
    requires small { Countable C.counts (length bytes.now) }
    requires inside { at ≤ length bytes.now }
    requires paid { C.counts.part + unit ≤ C.counts.weight }
    ensures reads { result ≡ found (count_field C.counts unit (field_of shape)) at (read_field (read_node height) (field_of shape) (drop at bytes.now)) }
    ensures within { Paid C.counts (is_part (field_of shape)) (is_small (field_of shape)) at (length bytes.now) result }
{
    match shape {
        Field::Part => Ok(Found {
            end: at,
            size: C::part(),
        }),
        Field::Small(small) => {
            let byte = choice(bytes, at, small)?;
            Ok(Found { size: unit, ..byte })
        }
        Field::Word => {
            let word = number(bytes, at)?;
            Ok(Found { size: unit, ..word })
        }
        Field::Text => text(bytes, at),
        Field::Pattern => pattern(bytes, at),
        Field::Node(kind) => node::<C>(bytes, at, kind, height),
        Field::List(items) => list::<C>(bytes, at, items, unit, height),
    }
}

// A tree of a kind, of at most some height.
#[cycle(field_fields_list_node)]
pub fn node<C: Counting>(bytes: &[u8], at: usize, kind: Kind, height: usize) -> Result<Found, usize>
    requires small { Countable C.counts (length bytes.now) }
    requires inside { at ≤ length bytes.now }
    ensures reads { result ≡ found (C.counts.tree (kind_of kind)) at (read_node height (kind_of kind) (drop at bytes.now)) }
    ensures within { Paid C.counts 0 0 at (length bytes.now) result }
{
    if height == 0 {
        return Err(at);
    }
    let opened = opens(bytes, at, kind, height - 1)?;
    let body = fields::<C>(
        bytes,
        opened.start,
        opened.fields,
        C::unit(kind),
        height - 1,
    )?;
    Ok(Found {
        size: C::head(kind) + body.size,
        ..body
    })
}

// The size of a tree: a part counts one, and a number nothing.
pub struct Size;

impl Counting for Size {
    ghost counts = { sizes };

    ghost lawful = { sizes_lawful };

    fn part() -> usize {
        1
    }

    fn unit(_kind: Kind) -> usize {
        0
    }

    fn head(_kind: Kind) -> usize {
        0
    }

    fn beginning(_items: Items) -> usize {
        0
    }

    fn each(_items: Items) -> usize {
        0
    }
}
