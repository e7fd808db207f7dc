// Copies the key of what a call puts or removes, to look it up by: it stands first in the call.
ghost use Rattle.std.specs.Prelude.{◌≡◌, ◌+◌, ◌≤◌, length, IsOk};
ghost use Rattle.wire.specs.Grammar.{decode};
ghost use Rattle.reader.specs.Found.{scanned};
ghost use Rattle.copy.specs.Writing.{written};
ghost use Rattle.copy.specs.Keys.{key_call};

use crate::call_kind;
use crate::leaves::{Copied, text};
use crate::plain::node;
use reader::grammar::{CallKind, Kind};
use reader::scan::{CALL_START, PART_HEIGHT};

// The id of a policy, which is its length and its bytes, or the name of an entity, which is its type and its id, and nothing for a call that names neither.
// The answer is where the key ends.
pub fn key(bytes: &[u8], rows: &mut [u64], to: usize) -> usize
    requires call { IsOk (scanned (decode bytes.now)) }
    requires room { to + length (key_call (decode bytes.now)) ≤ length rows.old }
    ensures writes { rows.new ≡ written rows.old to (key_call (decode bytes.now)) }
    ensures ends { result ≡ to + length (key_call (decode bytes.now)) }
{
    let from = Copied {
        end: CALL_START,
        to,
    };
    match call_kind(bytes) {
        CallKind::PutPolicy | CallKind::RemovePolicy => text(bytes, rows, from).to,
        CallKind::PutEntity | CallKind::RemoveEntity => {
            node(bytes, rows, from, Kind::Uid, PART_HEIGHT).to
        }
        CallKind::SetSchema | CallKind::ValidatePolicies | CallKind::Authorize => to,
    }
}
