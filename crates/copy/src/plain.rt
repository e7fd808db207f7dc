// Copies trees field by field: all but values, and what holds values.
// That a place is among the bytes, and that no value is met, stay clauses: places change at each step, and the latter is three predicates of three shapes.
ghost use Rattle.std.specs.Prelude.{◌≡◌, ◌+◌, ◌-◌, ◌≤◌, true, length, drop};
ghost use Rattle.rows.specs.Rows.{counted};
ghost use Rattle.wire.specs.Read.{read_list};
ghost use Rattle.wire.specs.Grammar.{read_field, read_fields, read_node};
ghost use Rattle.reader.specs.Code.{kind_of, field_of, fields_of};
ghost use Rattle.copy.specs.Copied.{row_tree, row_field, row_fields, plain, plain_field, plain_fields};
ghost use Rattle.copy.specs.Writing.{done, after, Room, Inside};

use crate::leaves::{Copied, byte, pattern, text, word};
use reader::grammar::{Field, Forms, Kind, forms_of, item_fields};

#[cycle(field_fields_list_node)]
pub(crate) fn fields(
    bytes: &[u8],
    rows: &mut [u64],
    from: Copied,
    shape: &[Field],
    height: usize,
) -> Copied
    requires inside { from.end ≤ length bytes.now }
    requires flat { plain_fields (fields_of shape.now) ≡ true }
    requires room { Room (row_fields (fields_of shape.now)) (read_fields (read_node height) (fields_of shape.now) (drop from.end bytes.now)) from.to (length rows.old) }
    ensures reads { done rows.new result ≡ after (row_fields (fields_of shape.now)) rows.old from.to from.end (read_fields (read_node height) (fields_of shape.now) (drop from.end bytes.now)) }
    ensures inside { Inside from.end (length bytes.now) from.to (length rows.old) result }
{
    let mut copied = from;
    for f in shape {
        copied = field(bytes, rows, copied, *f, height);
    }
    copied
}

#[cycle(field_fields_list_node)]
fn field(bytes: &[u8], rows: &mut [u64], from: Copied, shape: Field, height: usize) -> Copied
    requires inside { from.end ≤ length bytes.now }
    requires flat { plain_field (field_of shape) ≡ true }
    requires room { Room (row_field (field_of shape)) (read_field (read_node height) (field_of shape) (drop from.end bytes.now)) from.to (length rows.old) }
    ensures reads { done rows.new result ≡ after (row_field (field_of shape)) rows.old from.to from.end (read_field (read_node height) (field_of shape) (drop from.end bytes.now)) }
    ensures inside { Inside from.end (length bytes.now) from.to (length rows.old) result }
{
    match shape {
        Field::Part => from,
        Field::Small(_) => byte(bytes, rows, from),
        Field::Word => word(bytes, rows, from),
        Field::Text => text(bytes, rows, from),
        Field::Pattern => pattern(bytes, rows, from),
        Field::Node(kind) => node(bytes, rows, from, kind, height),
        Field::List(items) => list(bytes, rows, from, item_fields(items), height),
    }
}

// How many elements there are stands before them, and is known behind them: so the loop counts them by hand.
#[cycle(field_fields_list_node)]
fn list(bytes: &[u8], rows: &mut [u64], from: Copied, shape: &[Field], height: usize) -> Copied
    requires inside { from.end ≤ length bytes.now }
    requires flat { plain_fields (fields_of shape.now) ≡ true }
    requires room { Room (counted (row_fields (fields_of shape.now))) (read_list (read_fields (read_node height) (fields_of shape.now)) 0 (drop from.end bytes.now)) from.to (length rows.old) }
    ensures reads { done rows.new result ≡ after (counted (row_fields (fields_of shape.now))) rows.old from.to from.end (read_list (read_fields (read_node height) (fields_of shape.now)) 0 (drop from.end bytes.now)) }
    ensures inside { Inside from.end (length bytes.now) from.to (length rows.old) result }
{
    let mut copied = Copied {
        end: from.end,
        to: from.to + 1,
    };
    let mut count = 0;
    while bytes[copied.end] == 1 {
        let item = Copied {
            end: copied.end + 1,
            ..copied
        };
        copied = fields(bytes, rows, item, shape, height);
        count += 1;
    }
    rows[from.to] = count;
    Copied {
        end: copied.end + 1,
        ..copied
    }
}

// A tree of several forms is its form, the length of its row and its fields; one of a single form is its fields.
#[cycle(field_fields_list_node)]
pub(crate) fn node(
    bytes: &[u8],
    rows: &mut [u64],
    from: Copied,
    kind: Kind,
    height: usize,
) -> Copied
    requires inside { from.end ≤ length bytes.now }
    requires flat { plain (kind_of kind) ≡ true }
    requires room { Room (row_tree (kind_of kind)) (read_node height (kind_of kind) (drop from.end bytes.now)) from.to (length rows.old) }
    ensures reads { done rows.new result ≡ after (row_tree (kind_of kind)) rows.old from.to from.end (read_node height (kind_of kind) (drop from.end bytes.now)) }
    ensures inside { Inside from.end (length bytes.now) from.to (length rows.old) result }
{
    let table = match forms_of(kind) {
        Forms::Only(shape) => return fields(bytes, rows, from, shape, height - 1),
        Forms::ByTag(table) => table,
    };
    let tag = bytes[from.end];
    let inner = Copied {
        end: from.end + 1,
        to: from.to + 2,
    };
    let body = fields(
        bytes,
        rows,
        inner,
        table[usize::from(tag)].fields,
        height - 1,
    );
    rows[from.to + 1] = (body.to - from.to) as u64;
    rows[from.to] = u64::from(tag);
    body
}
