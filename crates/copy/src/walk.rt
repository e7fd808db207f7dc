// Goes along a list and copies nothing: how many elements it has.
ghost use Rattle.std.specs.Prelude.{◌≡◌, length, drop};
ghost use Rattle.wire.specs.Read.{read_list};
ghost use Rattle.wire.specs.Grammar.{read_fields, read_node};
ghost use Rattle.reader.specs.Code.{fields_of};
ghost use Rattle.reader.specs.Ends.{Got};
ghost use Rattle.copy.specs.Placed.{how_many};

use reader::ends::fields_end;
use reader::grammar::Field;

// How many elements a list has whose elements are of these fields: nothing before them says it.
// An iterator to be counted by `count` would be a struct with an invariant and an impl, for these five lines.
pub(crate) fn count(bytes: &[u8], at: usize, shape: &[Field], height: usize) -> usize
    requires { Got (read_list (read_fields (read_node height) (fields_of shape.now)) 0 (drop at bytes.now)) }
    ensures { result ≡ how_many (read_list (read_fields (read_node height) (fields_of shape.now)) 0 (drop at bytes.now)) }
{
    let mut end = at;
    let mut count = 0;
    while bytes[end] == 1 {
        end = fields_end(bytes, end + 1, shape, height);
        count += 1;
    }
    count
}
