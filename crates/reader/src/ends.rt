// Where what was read before ends: so nothing is refused here. Bytes and a place make no struct, for the reason that stands in `scan`.
ghost use Rattle.std.specs.Prelude.{◌≡◌, ◌+◌, ◌≤◌, length, drop};
ghost use Rattle.wire.specs.Read.{got, read_text};
ghost use Rattle.wire.specs.Grammar.{read_fields, read_node};
ghost use Rattle.reader.specs.Code.{kind_of, fields_of};
ghost use Rattle.reader.specs.Ends.{Got, ending};

use crate::grammar::{Field, Kind};
use crate::scan;

// Where a text ends.
pub fn text_end(bytes: &[u8], at: usize) -> usize
    requires { Got (read_text (drop at bytes.now)) }
    ensures is { result ≡ ending at (read_text (drop at bytes.now)) }
    ensures within { (at + 8 ≤ result) × (result ≤ length bytes.now) }
{
    let Ok(text) = scan::text(bytes, at) else {
        unreachable()
    };
    text.end
}

// The bytes of a text, without the eight before them that tell how many they are.
pub fn text_of(bytes: &[u8], at: usize) -> &[u8]
    requires { Got (read_text (drop at bytes.now)) }
    ensures { read_text (drop at bytes.now) ≡ got result.now (8 + length result.now) }
{
    &bytes[at + 8..text_end(bytes, at)]
}

// Where a tree ends.
pub fn node_end(bytes: &[u8], at: usize, kind: Kind, height: usize) -> usize
    requires inside { at ≤ length bytes.now }
    requires stands { Got (read_node height (kind_of kind) (drop at bytes.now)) }
    ensures is { result ≡ ending at (read_node height (kind_of kind) (drop at bytes.now)) }
    ensures within { (at ≤ result) × (result ≤ length bytes.now) }
{
    let Ok(tree) = scan::node(bytes, at, kind, height) else {
        unreachable()
    };
    tree.end
}

// Where fields end that stand one behind another.
pub fn fields_end(bytes: &[u8], at: usize, shape: &[Field], height: usize) -> usize
    requires inside { at ≤ length bytes.now }
    requires stands { Got (read_fields (read_node height) (fields_of shape.now) (drop at bytes.now)) }
    ensures is { result ≡ ending at (read_fields (read_node height) (fields_of shape.now) (drop at bytes.now)) }
    ensures within { (at ≤ result) × (result ≤ length bytes.now) }
{
    let Ok(last) = scan::fields(bytes, at, shape, height) else {
        unreachable()
    };
    last.end
}
