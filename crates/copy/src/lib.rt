// Copies what a call carries off its bytes into rows of numbers.
#![tactic(auto)]

ghost use Rattle.std.specs.Prelude.{◌≡◌, ◌+◌, ◌≤◌, length, slice_index, IsOk};
ghost use Rattle.std.proofs.Math.Option.{some};
ghost use Rattle.spec.specs.Calls.{put_entity, authorize};
ghost use Rattle.wire.specs.Read.{nth};
ghost use Rattle.wire.specs.Grammar.{call_tags, decode};
ghost use Rattle.reader.specs.Code.{call_of};
ghost use Rattle.reader.specs.Found.{scanned};
ghost use Rattle.copy.specs.Writing.{written};
ghost use Rattle.copy.specs.Carried.{row_call, Carries, RoomBySize};

use crate::leaves::Copied;
use crate::plain::{fields, node};
use crate::values::attrs;
use reader::ends::fields_end;
use reader::grammar::{CallKind, Field, Items, Kind};
use reader::scan::{CALL_HEIGHT, CALL_START, PART_HEIGHT};

pub mod keys;
mod leaves;
mod plain;
mod values;
mod walk;

// What the call does, by its first byte.
fn call_kind(bytes: &[u8]) -> CallKind
    requires { IsOk (scanned (decode bytes.now)) }
    ensures { nth call_tags (slice_index bytes.now 0) ≡ some (call_of result) }
{
    let Ok(call) = CallKind::try_from(bytes[0]) else {
        unreachable()
    };
    call
}

// Each of these takes the bytes of a call that was scanned, and writes the row of what it carries from `to` on: all else stays as it was. The answer is
// where the row ends.
// That the bytes are those of a call is a clause and no type: public functions take the bytes as the caller has them.

// The row of a schema, a policy, an entity or a request, and nothing for a call that carries none of these.
pub fn row(bytes: &[u8], rows: &mut [u64], to: usize) -> usize
    requires call { IsOk (scanned (decode bytes.now)) }
    requires room { to + length (row_call (decode bytes.now)) ≤ length rows.old }
    ensures writes { rows.new ≡ written rows.old to (row_call (decode bytes.now)) }
    ensures ends { result ≡ to + length (row_call (decode bytes.now)) }
{
    let call = call_kind(bytes);
    match call {
        CallKind::SetSchema | CallKind::PutPolicy => {
            let from = Copied {
                end: CALL_START,
                to,
            };
            fields(bytes, rows, from, call.fields(), CALL_HEIGHT).to
        }
        CallKind::PutEntity => entity(bytes, rows, to),
        CallKind::Authorize => request(bytes, rows, to),
        CallKind::RemovePolicy | CallKind::RemoveEntity | CallKind::ValidatePolicies => to,
    }
}

// The tags stand behind the ancestors among the bytes, and before them in the row.
pub fn entity(bytes: &[u8], rows: &mut [u64], to: usize) -> usize
    requires { Carries put_entity (decode bytes.now) to (length rows.old) }
    ensures writes { rows.new ≡ written rows.old to (row_call (decode bytes.now)) }
    ensures ends { result ≡ to + length (row_call (decode bytes.now)) }
{
    let from = Copied {
        end: CALL_START,
        to,
    };
    let uid = node(bytes, rows, from, Kind::Uid, PART_HEIGHT);
    let attributes = attrs(bytes, rows, uid, PART_HEIGHT);
    let uids = &[Field::List(Items::Uids)];
    let end = fields_end(bytes, attributes.end, uids, PART_HEIGHT);
    let ancestors = Copied { end, ..attributes };
    let tags = attrs(bytes, rows, ancestors, PART_HEIGHT);
    let behind = Copied {
        end: attributes.end,
        ..tags
    };
    fields(bytes, rows, behind, uids, PART_HEIGHT).to
}

// The names of the principal, the action and the resource, and the context.
pub fn request(bytes: &[u8], rows: &mut [u64], to: usize) -> usize
    requires { Carries authorize (decode bytes.now) to (length rows.old) }
    ensures writes { rows.new ≡ written rows.old to (row_call (decode bytes.now)) }
    ensures ends { result ≡ to + length (row_call (decode bytes.now)) }
{
    let from = Copied {
        end: CALL_START,
        to,
    };
    let principal = node(bytes, rows, from, Kind::Uid, PART_HEIGHT);
    let action = node(bytes, rows, principal, Kind::Uid, PART_HEIGHT);
    let resource = node(bytes, rows, action, Kind::Uid, PART_HEIGHT);
    attrs(bytes, rows, resource, PART_HEIGHT).to
}

// How much room is enough, by the size that the scan of a call gives.
pub fn room_by_size()
    ensures { RoomBySize }
{}

#[cfg(test)]
mod tests {
    use super::*;
    use reader::scan::scan;
    use std::process::Abort;
    use std::test::Fail;

    // As a caller does it: scan the call, see that there is room, and copy what it carries.
    fn copied(bytes: &[u8], rows: &mut [u64]) -> Result<usize, Fail> {
        let Ok(call) = scan(bytes) else {
            return Err(Fail::new("no call"));
        };
        if call.size > 1000 {
            return Err(Fail::new("large"));
        }
        if 4 * call.size + 2 > rows.len() {
            return Err(Fail::new("no room"));
        }
        Ok(row(bytes, rows, 0))
    }

    // The row of what the call carries, and what stood behind it.
    fn gives(rt: &impl Abort, bytes: &[u8], row: &[u64]) -> Result<(), Fail> {
        let mut rows = [9; 200];
        let end = copied(bytes, &mut rows)?;
        assert!(rt; end == row.len());
        assert!(rt; end < 200);
        assert!(rt; rows[..end] == row[..]);
        assert!(rt; rows[end] == 9);
        Ok(())
    }

    #[test]
    fn a_schema(rt: HostRuntime) -> Result<(), Fail> {
        // the entity type T, whose attribute k is a required truth
        gives(
            &rt,
            &[
                0, 1, 0, 0, 0, 0, 0, 0, 0, 1, 84, 0, 1, 1, 0, 0, 0, 0, 0, 0, 0, 1, 107, 0, 0, 0, 0,
                0, 0,
            ],
            &[1, 1, 84, 0, 1, 1, 1, 107, 0, 3, 0, 0, 0],
        )
    }

    #[test]
    fn a_policy(rt: HostRuntime) -> Result<(), Fail> {
        // permit(principal, action, resource) when { principal like "*" }, with the id "p"
        gives(
            &rt,
            &[
                1, 0, 0, 0, 0, 0, 0, 0, 1, 112, 0, 0, 0, 0, 1, 0, 11, 0, 0, 0, 0, 0, 0, 0, 1, 1, 0,
                4, 0, 0,
            ],
            &[1, 112, 0, 0, 2, 0, 2, 0, 2, 1, 0, 11, 7, 1, 256, 4, 3, 0],
        )
    }

    #[test]
    fn an_entity(rt: HostRuntime) -> Result<(), Fail> {
        // T::"a" with the attribute k, the set of true and "hi", in T::"b", and with the tag t, 5
        gives(
            &rt,
            &[
                3, 0, 0, 0, 0, 0, 0, 0, 1, 84, 0, 0, 0, 0, 0, 0, 0, 1, 97, 1, 0, 0, 0, 0, 0, 0, 0,
                1, 107, 4, 1, 0, 1, 1, 2, 0, 0, 0, 0, 0, 0, 0, 2, 104, 105, 0, 0, 1, 0, 0, 0, 0, 0,
                0, 0, 1, 84, 0, 0, 0, 0, 0, 0, 0, 1, 98, 0, 1, 0, 0, 0, 0, 0, 0, 0, 1, 116, 1, 0,
                0, 0, 0, 0, 0, 0, 5, 0,
            ],
            &[
                1, 84, 1, 97, 16, 1, 5, 4, 7, 1, 107, 9, 2, 0, 1, 2, 6, 2, 104, 105, 7, 1, 5, 1, 5,
                1, 116, 1, 1, 84, 1, 98,
            ],
        )
    }

    #[test]
    fn a_request(rt: HostRuntime) -> Result<(), Fail> {
        // may T::"a" do T::"b" to T::"c", with no context
        gives(
            &rt,
            &[
                6, 0, 0, 0, 0, 0, 0, 0, 1, 84, 0, 0, 0, 0, 0, 0, 0, 1, 97, 0, 0, 0, 0, 0, 0, 0, 1,
                84, 0, 0, 0, 0, 0, 0, 0, 1, 98, 0, 0, 0, 0, 0, 0, 0, 1, 84, 0, 0, 0, 0, 0, 0, 0, 1,
                99, 0,
            ],
            &[1, 84, 1, 97, 1, 84, 1, 98, 1, 84, 1, 99, 2, 0],
        )
    }
}
