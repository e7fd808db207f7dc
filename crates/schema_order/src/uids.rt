// Names of entities in bytes that were read before, two of them compared: the type stands before the id. Bytes and two places make no struct, for the
// reason that stands in `texts`.
ghost use Rattle.std.specs.Prelude.{◌≡◌, drop};
ghost use Rattle.spec.specs.Basics.{less};
ghost use Rattle.spec.specs.Values.{code_uid, same_uid};
ghost use Rattle.reader.specs.Ends.{Got};
ghost use Rattle.schema_order.specs.Places.{read_uid, uid_at};

use crate::texts::{less_code, same_text};
use reader::ends::text_end;

// Whether the name at one place comes before that at another: the shorter type first, and then the shorter id.
pub(crate) fn less_uid(bytes: &[u8], a: usize, b: usize) -> bool
    requires { (Got (read_uid (drop a bytes.now))) × (Got (read_uid (drop b bytes.now))) }
    ensures { result ≡ less (code_uid (uid_at bytes.now a)) (code_uid (uid_at bytes.now b)) }
{
    if !same_text(bytes, a, b) {
        return less_code(bytes, a, b);
    }
    let a_id = text_end(bytes, a);
    let b_id = text_end(bytes, b);
    less_code(bytes, a_id, b_id)
}

// Whether the name at one place is that at another.
pub(crate) fn same_uid(bytes: &[u8], a: usize, b: usize) -> bool
    requires { (Got (read_uid (drop a bytes.now))) × (Got (read_uid (drop b bytes.now))) }
    ensures { result ≡ same_uid (uid_at bytes.now a) (uid_at bytes.now b) }
{
    if !same_text(bytes, a, b) {
        return false;
    }
    let a_id = text_end(bytes, a);
    let b_id = text_end(bytes, b);
    same_text(bytes, a_id, b_id)
}
