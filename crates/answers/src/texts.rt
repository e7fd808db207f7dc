// Texts to write, wherever they lie.
ghost use Rattle.std.specs.Prelude.{◌≡◌, ℕ, ◌+◌, ◌^◌, ◌<◌, true, List, length, slice_index};
ghost use Rattle.spec.specs.Calls.{all_below};
ghost use Rattle.spec.specs.Bytes.{encode_text};

use std::alloc::Allocator;

// A text that can be read byte by byte.
pub trait Text: Copy {
    // That the text is there, and that what it holds are bytes.
    // Asked for, since a slice of numbers holds bytes only where its caller says so.
    ghost is_text: { Self → Type 0 };

    ghost bytes: { Self → List ℕ };

    fn len(&self) -> usize
        requires { is_text self.now }
        ensures { result ≡ length (bytes self.now) };

    fn byte(&self, i: usize) -> u8
        requires there { is_text self.now }
        requires within { i < length (bytes self.now) }
        ensures { result ≡ slice_index (bytes self.now) i };
}

// A text with a number for each byte.
impl Text for &[u64] {
    ghost is_text = { λ text. all_below 256 text.now ≡ true };

    ghost bytes = { λ text. text.now };

    fn len(&self) -> usize {
        (**self).len()
    }

    fn byte(&self, i: usize) -> u8 {
        self[i] as u8
    }
}

// An array and a vector are texts as the slices that they are lent as.
impl<const N: usize> Text for &[u64; N] {
    ghost is_text = { λ text. all_below 256 text.now ≡ true };

    ghost bytes = { λ text. text.now };

    fn len(&self) -> usize {
        let numbers: &[u64] = &self[..];
        numbers.len()
    }

    fn byte(&self, i: usize) -> u8 {
        let numbers: &[u64] = &self[..];
        numbers[i] as u8
    }
}

impl<A: Allocator> Text for &Vec<u64, A> {
    ghost is_text = { λ text. all_below 256 text.now.items ≡ true };

    ghost bytes = { λ text. text.now.items };

    fn len(&self) -> usize {
        (**self).len()
    }

    fn byte(&self, i: usize) -> u8 {
        let items = (**self).as_slice();
        items[i] as u8
    }
}

// Fills the room with a text behind its length.
#[tactic(auto, unfolding(spec::specs::Bytes::encode_word))]
pub(crate) fn set_text<T: Text>(room: &mut [u8], text: T)
    requires there { T.is_text text }
    requires room { length room.old ≡ 8 + length (T.bytes text) }
    ensures { room.new ≡ encode_text (T.bytes text) }
{
    let (long, bytes) = room.split_at_mut(8);
    long.copy_from_slice(&(text.len() as u64).to_be_bytes());
    set_bytes(bytes, text);
}

fn set_bytes<T: Text>(room: &mut [u8], text: T)
    requires there { T.is_text text }
    requires room { length room.old ≡ length (T.bytes text) }
    ensures { room.new ≡ T.bytes text }
{
    for (i, byte) in room.iter_mut().enumerate() {
        *byte = text.byte(i);
    }
}
