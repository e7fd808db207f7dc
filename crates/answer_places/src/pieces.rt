// Texts and lists of ids that lie in a memory, and how they are written into an answer.
ghost use Rattle.std.specs.Prelude.{◌≡◌, ◌+◌, ◌<◌, ◌≤◌, length, slice_index};
ghost use Rattle.spec.specs.Bytes.{encode_text, encode_list};
ghost use Rattle.values.specs.Memory.{numbers};
ghost use Rattle.values.specs.Held.{text_at};
ghost use Rattle.answers.specs.Put.{Wrote};
ghost use Rattle.answer_places.specs.Code.{IdIn, IdsIn, ids_at};
ghost use Rattle.answer_places.specs.Put.{Left};

use crate::Ids;
use answers::{Text, put_end, put_item};
use values::Memory;

// The text at place `id`: its length, and then a number for each byte.
#[derive(Clone, Copy)]
pub(crate) struct HeldText<'a> {
    pub memory: Memory<'a>,
    pub id: usize,
}

impl Text for HeldText<'_> {
    ghost is_text = { λ text. IdIn (numbers text.memory) text.id };

    ghost bytes = { λ text. text_at (numbers text.memory) text.id };

    fn len(&self) -> usize {
        self.memory.word(self.id) as usize
    }

    fn byte(&self, i: usize) -> u8 {
        self.memory.word(self.id + 1 + i) as u8
    }
}

// The id whose place stands at `place`.
fn held<'a>(memory: &Memory<'a>, place: usize) -> HeldText<'a>
    requires within { place < length (numbers memory.now) }
    requires there { IdIn (numbers memory.now) (slice_index (numbers memory.now) place) }
    ensures there { IdIn (numbers result.memory) result.id }
    ensures is { text_at (numbers result.memory) result.id ≡ text_at (numbers memory.now) (slice_index (numbers memory.now) place) }
{
    HeldText {
        memory: *memory,
        id: memory.word(place) as usize,
    }
}

// How much of `room` is left behind a list of ids, or nothing where there is no room for it.
pub(crate) fn room_behind(memory: &Memory<'_>, ids: Ids, room: usize) -> Option<usize>
    requires { IdsIn (numbers memory.now) ids }
    ensures { Left room (length (encode_list encode_text (ids_at (numbers memory.now) ids))) result }
{
    let mut left = room;
    for place in ids.from..ids.from + ids.count {
        // beside the id: a 1, and eight bytes for the length
        left = left.checked_sub(9)?.checked_sub(held(memory, place).len())?;
    }
    left.checked_sub(1)
}

// A list of ids: a 1 before each, and a 0 behind them.
pub(crate) fn set_ids(memory: &Memory<'_>, ids: Ids, out: &mut [u8], start: usize) -> usize
    requires there { IdsIn (numbers memory.now) ids }
    requires room { start + length (encode_list encode_text (ids_at (numbers memory.now) ids)) ≤ length out.old }
    ensures { Wrote out.old start (encode_list encode_text (ids_at (numbers memory.now) ids)) result out.new }
{
    let mut at = start;
    for place in ids.from..ids.from + ids.count {
        at = put_item(out, at, held(memory, place)).unwrap();
    }
    put_end(out, at).unwrap()
}
