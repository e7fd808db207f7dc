// Copies values: the node of a set or record holds a tag and a payload for each element, and behind them lies what has no room in a payload.
ghost use Rattle.std.specs.Prelude.{◌≡◌, ℕ, ◌+◌, ◌-◌, ◌≤◌, length, drop, slice_index};
ghost use Rattle.spec.specs.Values.{Value};
ghost use Rattle.rows.specs.Rows.{payload, behind_of, row_attrs};
ghost use Rattle.wire.specs.Read.{got, read_list};
ghost use Rattle.wire.specs.Grammar.{value as value_kind, attrs as attrs_kind, Contents, read_fields, read_node};
ghost use Rattle.reader.specs.Code.{fields_of};
ghost use Rattle.reader.specs.Ends.{Got};
ghost use Rattle.reader.specs.Kinds.{byte_of};
ghost use Rattle.copy.specs.Writing.{written, done, after, Room, Inside};
ghost use Rattle.copy.specs.Placed.{width_of, element_fields, element_slot, element_behind, node_row, value_slot, Filled};

use crate::leaves::{Copied, text};
use crate::plain::fields;
use crate::walk::count;
use reader::grammar::{Field, Items, item_fields};
use reader::value_kind::ValueKind;

// What the node of a set, or of a record, has slots for. An enum and no closure: the fields of an element, its slot and what lies behind it are definitions
// by what has the slot.
#[derive(Clone, Copy)]
enum Slots {
    Values,
    Attributes,
}

impl Slots {
    // How many numbers a slot takes.
    fn width(self) -> usize
        ensures { result ≡ width_of self }
    {
        match self {
            Slots::Values => 2,
            Slots::Attributes => 3,
        }
    }

    // What stands in the bytes for what has a slot.
    fn fields(self) -> &'static [Field]
        ensures { fields_of result.now ≡ element_fields self }
    {
        match self {
            Slots::Values => item_fields(Items::Values),
            Slots::Attributes => item_fields(Items::NamedValues),
        }
    }
}

// Of which kind the value is that stands there. That one does is a clause: the place changes at each step, and of each only one function asks it.
fn kind_at(bytes: &[u8], at: usize) -> ValueKind
    requires { (h : ℕ) × Got (read_node h value_kind (drop at bytes.now)) }
    ensures { slice_index bytes.now at ≡ byte_of result }
{
    let Ok(kind) = ValueKind::try_from(bytes[at]) else {
        unreachable()
    };
    kind
}

// A truth or a number stands in the payload itself, and of anything else its offset.
fn payload_at(bytes: &[u8], at: usize, offset: usize) -> u64
    requires { (h : ℕ) × Got (read_node h value_kind (drop at bytes.now)) }
    ensures { (h : ℕ) (v : Value) (n : ℕ) → read_node h value_kind (drop at bytes.now) ≡ got v n → result ≡ payload v offset }
{
    match kind_at(bytes, at) {
        ValueKind::Bool => u64::from(bytes[at + 1]),
        ValueKind::Int => words::word(bytes, at + 1),
        ValueKind::String | ValueKind::Entity | ValueKind::Set | ValueKind::Record => offset as u64,
    }
}

fn slot(bytes: &[u8], at: usize, offset: usize, rows: &mut [u64], place: usize)
    requires stands { (h : ℕ) × Got (read_node h value_kind (drop at bytes.now)) }
    requires room { place + 2 ≤ length rows.old }
    ensures { (h : ℕ) (v : Value) (n : ℕ) → read_node h value_kind (drop at bytes.now) ≡ got v n → rows.new ≡ written rows.old place (value_slot offset v) }
{
    rows[place] = u64::from(bytes[at]);
    rows[place + 1] = payload_at(bytes, at, offset);
}

// What lies behind the payload of a value.
#[cycle(behind_collection_element)]
fn behind(bytes: &[u8], rows: &mut [u64], from: Copied, height: usize) -> Copied
    requires inside { from.end ≤ length bytes.now }
    requires room { Room behind_of (read_node height value_kind (drop from.end bytes.now)) from.to (length rows.old) }
    ensures reads { done rows.new result ≡ after behind_of rows.old from.to from.end (read_node height value_kind (drop from.end bytes.now)) }
    ensures inside { Inside from.end (length bytes.now) from.to (length rows.old) result }
{
    let held = Copied {
        end: from.end + 1,
        ..from
    };
    match kind_at(bytes, from.end) {
        ValueKind::Bool => Copied {
            end: from.end + 2,
            ..from
        },
        ValueKind::Int => Copied {
            end: from.end + 9,
            ..from
        },
        ValueKind::String => text(bytes, rows, held),
        ValueKind::Entity => fields(bytes, rows, held, &[Field::Text, Field::Text], 0),
        ValueKind::Set => collection(bytes, rows, held, Slots::Values, height - 1),
        ValueKind::Record => collection(bytes, rows, held, Slots::Attributes, height - 1),
    }
}

// An element of the set or record at `home`: its slot at `place`, and what lies behind it from where copying goes on. An attribute is its name and a value.
#[cycle(behind_collection_element)]
fn element(
    bytes: &[u8],
    rows: &mut [u64],
    from: Copied,
    slots: Slots,
    height: usize,
    home: usize,
    place: usize,
) -> Copied
    requires inside { from.end ≤ length bytes.now }
    requires order { home ≤ place }
    requires apart { place + width_of slots ≤ from.to }
    requires room { Room (element_behind slots) (read_fields (read_node height) (element_fields slots) (drop from.end bytes.now)) from.to (length rows.old) }
    ensures fills { (x : Contents (element_fields slots)) (n : ℕ) → read_fields (read_node height) (element_fields slots) (drop from.end bytes.now) ≡ got x n → Filled rows.new rows.old (element_slot slots (from.to - home) x) (element_behind slots x) place from.to from.end n result }
    ensures inside { Inside from.end (length bytes.now) from.to (length rows.old) result }
{
    match slots {
        Slots::Values => {
            let value = behind(bytes, rows, from, height);
            slot(bytes, from.end, from.to - home, rows, place);
            value
        }
        Slots::Attributes => {
            let name = text(bytes, rows, from);
            let value = element(bytes, rows, name, Slots::Values, height, home, place + 1);
            rows[place] = (from.to - home) as u64;
            value
        }
    }
}

// The elements of a list: their node begins with its length and how many they are. The loop goes by number and not by place with `step_by`: how many slots
// are filled is what a step has to know, and from a place it would have to be divided out.
#[cycle(behind_collection_element)]
fn collection(bytes: &[u8], rows: &mut [u64], from: Copied, slots: Slots, height: usize) -> Copied
    requires inside { from.end ≤ length bytes.now }
    requires room { Room (node_row slots) (read_list (read_fields (read_node height) (element_fields slots)) 0 (drop from.end bytes.now)) from.to (length rows.old) }
    ensures reads { done rows.new result ≡ after (node_row slots) rows.old from.to from.end (read_list (read_fields (read_node height) (element_fields slots)) 0 (drop from.end bytes.now)) }
    ensures inside { Inside from.end (length bytes.now) from.to (length rows.old) result }
{
    let count = count(bytes, from.end, slots.fields(), height);
    let width = slots.width();
    let first = from.to + 2;
    let mut copied = Copied {
        end: from.end,
        to: first + width * count,
    };
    for i in 0..count {
        let next = Copied {
            end: copied.end + 1,
            ..copied
        };
        copied = element(bytes, rows, next, slots, height, from.to, first + width * i);
    }
    rows[from.to + 1] = count as u64;
    rows[from.to] = (copied.to - from.to) as u64;
    Copied {
        end: copied.end + 1,
        ..copied
    }
}

// A record of attributes that stands by itself.
pub(crate) fn attrs(bytes: &[u8], rows: &mut [u64], from: Copied, height: usize) -> Copied
    requires { Room row_attrs (read_node height attrs_kind (drop from.end bytes.now)) from.to (length rows.old) }
    ensures reads { done rows.new result ≡ after row_attrs rows.old from.to from.end (read_node height attrs_kind (drop from.end bytes.now)) }
    ensures inside { Inside from.end (length bytes.now) from.to (length rows.old) result }
{
    collection(bytes, rows, from, Slots::Attributes, height - 1)
}
