// Pieces of an answer: each is written at a place and says where the next one goes; where there is no room, nothing is written.
// `out` and `at` stay two arguments: a struct that keeps the `&mut [u8]` would owe in each piece that it still keeps the same one.
ghost use Rattle.std.specs.Prelude.{[], ◌∷◌, ◌++◌};
ghost use Rattle.spec.specs.Bytes.{encode_word, encode_text, encode_bool};
ghost use Rattle.answers.specs.Put.{Put};

use crate::texts::{Text, set_text};

pub fn put_byte(out: &mut [u8], at: usize, byte: u8) -> Option<usize>
    ensures { Put out.old at (byte ∷ []) result out.new }
{
    let (_, room) = out.split_at_mut_checked(at)?;
    *room.first_mut()? = byte;
    Some(at + 1)
}

// A number, in eight bytes.
#[tactic(auto, unfolding(spec::specs::Bytes::encode_word))]
pub fn put_word(out: &mut [u8], at: usize, n: u64) -> Option<usize>
    ensures { Put out.old at (encode_word n) result out.new }
{
    let (_, room) = out.split_at_mut_checked(at)?;
    *room.first_chunk_mut()? = n.to_be_bytes();
    Some(at + 8)
}

// A text, behind its length.
#[tactic(auto, unfolding(spec::specs::Bytes::encode_word))]
pub fn put_text<T: Text>(out: &mut [u8], at: usize, text: T) -> Option<usize>
    requires { T.is_text text }
    ensures { Put out.old at (encode_text (T.bytes text)) result out.new }
{
    let (_, room) = out.split_at_mut_checked(at)?;
    let (room, _) = room.split_at_mut_checked(text.len().checked_add(8)?)?;
    set_text(room, text);
    Some(at + 8 + text.len())
}

// An id of a list of ids.
pub fn put_item<T: Text>(out: &mut [u8], at: usize, id: T) -> Option<usize>
    requires { T.is_text id }
    ensures { Put out.old at (1 ∷ encode_text (T.bytes id)) result out.new }
{
    let (_, room) = out.split_at_mut_checked(at)?;
    let (mark, room) = room.split_first_mut()?;
    let long = put_text(room, 0, id)?;
    *mark = 1;
    Some(at + 1 + long)
}

// The end of a list of ids.
pub fn put_end(out: &mut [u8], at: usize) -> Option<usize>
    ensures { Put out.old at (0 ∷ []) result out.new }
{
    put_byte(out, at, 0)
}

// Whether the request fits, and whether the entities do.
pub fn put_flags(out: &mut [u8], at: usize, request: bool, entities: bool) -> Option<usize>
    ensures { Put out.old at (encode_bool request ++ encode_bool entities) result out.new }
{
    let (_, room) = out.split_at_mut_checked(at)?;
    *room.first_chunk_mut()? = [u8::from(request), u8::from(entities)];
    Some(at + 2)
}
