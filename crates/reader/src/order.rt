// The order of a dictionary and the sameness of bytes, as the definitions of texts have them.
ghost use Rattle.std.specs.Prelude.{◌≡◌};
ghost use Rattle.spec.specs.Basics.{less, same};

// Whether one text comes before another.
pub fn comes_before(a: &[u8], b: &[u8]) -> bool
    ensures { result ≡ less a.now b.now }
{
    a < b
}

// Whether one text is another.
pub fn is_same(a: &[u8], b: &[u8]) -> bool
    ensures { result ≡ same a.now b.now }
{
    a == b
}
