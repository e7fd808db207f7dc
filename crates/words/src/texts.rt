// Texts behind their length, as files and answers hold them.
ghost use Rattle.std.specs.Prelude.{◌≡◌, List, ℕ, ◌++◌, IsSomeAnd};
ghost use Rattle.spec.specs.Bytes.{encode_text};
ghost use Rattle.words.specs.Words.{FirstText};

// The text at the beginning and what stands behind it, if as many bytes are left as its length says.
pub fn first_text(bytes: &[u8]) -> Option<(&[u8], &[u8])>
    ensures is { FirstText bytes.now result }
    ensures reads { (text rest : List ℕ) → bytes.now ≡ encode_text text ++ rest → IsSomeAnd result (λ p. (p.0.now ≡ text) × (p.1.now ≡ rest)) }
{
    let (long, bytes) = bytes.split_first_chunk()?;
    bytes.split_at_checked(u64::from_be_bytes(*long) as usize)
}
