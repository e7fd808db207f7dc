// Numbers of eight bytes, the greatest byte first, as calls, files and answers hold them.
#![tactic(auto)]

ghost use Rattle.std.specs.Prelude.{◌≡◌, ℕ, ◌+◌, ◌^◌, ◌<◌, ◌≤◌, List, ◌++◌, length, drop, Some};
ghost use Rattle.spec.specs.Bytes.{encode_word};
ghost use Rattle.words.specs.Words.{big_endian, word_at};

mod texts;

pub use texts::first_text;

// The number at `at`, where eight bytes are left from there.
pub fn word(bytes: &[u8], at: usize) -> u64
    requires { at + 8 ≤ length bytes.now }
    ensures { result ≡ big_endian (drop at bytes.now) }
{
    let Some(number) = word_at(bytes, at) else {
        unreachable()
    };
    number
}

// The number at `at`, if eight bytes are left from there.
pub fn word_at(bytes: &[u8], at: usize) -> Option<u64>
    ensures is { result ≡ word_at at bytes.now }
    ensures reads { (n : ℕ) (rest : List ℕ) → n < 2 ^ 64 → drop at bytes.now ≡ encode_word n ++ rest → result ≡ Some n }
{
    let chunk = bytes.get(at..)?.first_chunk::<8>()?;
    Some(u64::from_be_bytes(*chunk))
}
