// Texts in bytes that were read before, two of them compared. Bytes and two places make no struct: the bytes stay while the places change with each call.
ghost use Rattle.std.specs.Prelude.{◌≡◌, drop};
ghost use Rattle.spec.specs.Basics.{same, less};
ghost use Rattle.spec.specs.Values.{code_text};
ghost use Rattle.wire.specs.Read.{read_text};
ghost use Rattle.reader.specs.Ends.{Got};
ghost use Rattle.schema_order.specs.Places.{text_at};

use reader::ends::text_of;
use reader::order::{comes_before, is_same};
use std::cmp::Ordering;

// Whether the text at one place comes before that at another.
pub(crate) fn less_text(bytes: &[u8], a: usize, b: usize) -> bool
    requires { (Got (read_text (drop a bytes.now))) × (Got (read_text (drop b bytes.now))) }
    ensures { result ≡ less (text_at bytes.now a) (text_at bytes.now b) }
{
    comes_before(text_of(bytes, a), text_of(bytes, b))
}

// Whether the text at one place is as that at another.
pub(crate) fn same_text(bytes: &[u8], a: usize, b: usize) -> bool
    requires { (Got (read_text (drop a bytes.now))) × (Got (read_text (drop b bytes.now))) }
    ensures { result ≡ same (text_at bytes.now a) (text_at bytes.now b) }
{
    is_same(text_of(bytes, a), text_of(bytes, b))
}

// Whether the text at one place comes before that at another, if the shorter comes first.
pub(crate) fn less_code(bytes: &[u8], a: usize, b: usize) -> bool
    requires { (Got (read_text (drop a bytes.now))) × (Got (read_text (drop b bytes.now))) }
    ensures { result ≡ less (code_text (text_at bytes.now a)) (code_text (text_at bytes.now b)) }
{
    let first = text_of(bytes, a);
    let second = text_of(bytes, b);
    match first.len().cmp(&second.len()) {
        Ordering::Less => true,
        Ordering::Greater => false,
        Ordering::Equal => comes_before(first, second),
    }
}
