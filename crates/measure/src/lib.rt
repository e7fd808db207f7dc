// How long the row of what a call carries will be, by one pass along its bytes: nothing is copied.
#![tactic(auto)]

ghost use Rattle.std.specs.Prelude.{◌≡◌, ◌^◌, ◌<◌, length};
ghost use Rattle.wire.specs.Grammar.{decode};
ghost use Rattle.copy.specs.Carried.{row_call};
ghost use Rattle.measure.specs.Lengths.{row_counts};
ghost use Rattle.measure.specs.Long.{row_counts_lawful};

use reader::count::{Counting, fields};
use reader::grammar::{CallKind, Items, Kind};
use reader::scan::{CALL_HEIGHT, CALL_START};

// What takes numbers in a row. A set or a record is a node, which has for each element its tag and its payload, and where its name lies, if it has one.
struct RowLength;

impl Counting for RowLength {
    ghost counts = { row_counts };

    ghost lawful = { row_counts_lawful };

    fn part() -> usize {
        0
    }

    // In a value nothing, since it stands in the node that holds the value.
    fn unit(kind: Kind) -> usize {
        match kind {
            Kind::Value => 0,
            _ => 1,
        }
    }

    // The form and the length.
    fn head(kind: Kind) -> usize {
        match kind {
            Kind::Expr | Kind::Type | Kind::Scope | Kind::ActionScope => 2,
            _ => 0,
        }
    }

    // The count, and of a node its length too.
    fn beginning(items: Items) -> usize {
        match items {
            Items::Values | Items::NamedValues => 2,
            _ => 1,
        }
    }

    fn each(items: Items) -> usize {
        match items {
            Items::Values => 2,
            Items::NamedValues => 3,
            _ => 0,
        }
    }
}

// How long the row is that `copy` writes; it is empty of a call that carries no tree, and of bytes that are no call.
// 0 is the length of the empty row, and no sign for none.
pub fn row_length(bytes: &[u8]) -> usize
    requires { length bytes.now < 2 ^ 62 }
    ensures { result ≡ length (row_call (decode bytes.now)) }
{
    let Some(first) = bytes.first() else {
        return 0;
    };
    let Ok(call) = CallKind::try_from(*first) else {
        return 0;
    };
    if matches!(call, CallKind::RemovePolicy | CallKind::RemoveEntity) {
        return 0;
    }
    let Ok(row) = fields::<RowLength>(bytes, CALL_START, call.fields(), 1, CALL_HEIGHT) else {
        return 0;
    };
    if row.end == bytes.len() { row.size } else { 0 }
}

#[cfg(test)]
mod tests {
    use super::*;

    #[test]
    fn an_entity(rt: HostRuntime) {
        // T::"a" with the attribute k, the set of true and "hi", in T::"b", and with the tag t, 5: its name takes 4 numbers, the attributes 16, of which
        // the set takes 9, the tags 7, and the ancestors 5
        let bytes: &[u8] = &[
            3, 0, 0, 0, 0, 0, 0, 0, 1, 84, 0, 0, 0, 0, 0, 0, 0, 1, 97, 1, 0, 0, 0, 0, 0, 0, 0, 1,
            107, 4, 1, 0, 1, 1, 2, 0, 0, 0, 0, 0, 0, 0, 2, 104, 105, 0, 0, 1, 0, 0, 0, 0, 0, 0, 0,
            1, 84, 0, 0, 0, 0, 0, 0, 0, 1, 98, 0, 1, 0, 0, 0, 0, 0, 0, 0, 1, 116, 1, 0, 0, 0, 0, 0,
            0, 0, 5, 0,
        ];
        assert!(rt; row_length(bytes) == 32);
    }

    #[test]
    fn no_row(rt: HostRuntime) {
        // to remove the policy "p", and the same cut short
        assert!(rt; row_length(&[2, 0, 0, 0, 0, 0, 0, 0, 1, 112]) == 0);
        assert!(rt; row_length(&[1, 0, 0, 0, 0, 0, 0, 0, 1]) == 0);
    }
}
