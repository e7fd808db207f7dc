// Copies what has no parts: numbers, texts and patterns.
ghost use Rattle.std.specs.Prelude.{◌≡◌, ◌+◌, ◌*◌, ◌<◌, ◌≤◌, [], ◌∷◌, length, drop, slice_index, EachIndex};
ghost use Rattle.spec.specs.Values.{code_text};
ghost use Rattle.wire.specs.Read.{read_word, read_text, read_pattern};
ghost use Rattle.copy.specs.Writing.{written, done, after, Room, Inside};

// Every function takes all bytes, all rows, and where among both of them it goes on. What stands there was read before, and there is room for its row: so
// nothing is tested. The places are no part of a struct with the bytes and the rows, since a node is written at its slots and behind them in turn, and since
// a struct that holds the lent rows would owe in every function that they are the same ones still.

// Where what was copied ends among the bytes, and where its row ends among the rows.
#[derive(Clone, Copy)]
pub struct Copied {
    pub end: usize,
    pub to: usize,
}

// A number for each byte, by its index: of what a loop writes through `zip` nothing is known behind it.
fn widen(bytes: &[u8], rows: &mut [u64])
    requires { length bytes.now ≡ length rows.old }
    ensures { rows.new ≡ bytes.now }
{
    for (i, byte) in bytes.iter().enumerate() {
        rows[i] = u64::from(*byte);
    }
}

// A number for each two bytes, by its index for the reason that stands at `widen`.
fn widen_pairs(bytes: &[u8], rows: &mut [u64])
    requires { length bytes.now ≡ 2 * length rows.old }
    ensures { EachIndex rows.new (λ i. slice_index rows.new i ≡ slice_index bytes.now (2 * i) * 256 + slice_index bytes.now (2 * i + 1)) }
{
    for (i, pair) in bytes.chunks_exact(2).enumerate() {
        rows[i] = u64::from(u16::from_be_bytes([pair[0], pair[1]]));
    }
}

// One byte, as it is.
pub(crate) fn byte(bytes: &[u8], rows: &mut [u64], from: Copied) -> Copied
    requires inside { from.end < length bytes.now }
    requires room { from.to < length rows.old }
    ensures writes { rows.new ≡ written rows.old from.to (slice_index bytes.now from.end ∷ []) }
    ensures ends { result.end ≡ from.end + 1 }
    ensures goes { result.to ≡ from.to + 1 }
{
    rows[from.to] = u64::from(bytes[from.end]);
    Copied {
        end: from.end + 1,
        to: from.to + 1,
    }
}

// A number of eight bytes.
pub(crate) fn word(bytes: &[u8], rows: &mut [u64], from: Copied) -> Copied
    requires inside { from.end ≤ length bytes.now }
    requires room { Room (λ n. n ∷ []) (read_word (drop from.end bytes.now)) from.to (length rows.old) }
    ensures reads { done rows.new result ≡ after (λ n. n ∷ []) rows.old from.to from.end (read_word (drop from.end bytes.now)) }
    ensures inside { Inside from.end (length bytes.now) from.to (length rows.old) result }
{
    rows[from.to] = words::word(bytes, from.end);
    Copied {
        end: from.end + 8,
        to: from.to + 1,
    }
}

// Its length, and its bytes.
pub(crate) fn text(bytes: &[u8], rows: &mut [u64], from: Copied) -> Copied
    requires inside { from.end ≤ length bytes.now }
    requires room { Room code_text (read_text (drop from.end bytes.now)) from.to (length rows.old) }
    ensures reads { done rows.new result ≡ after code_text rows.old from.to from.end (read_text (drop from.end bytes.now)) }
    ensures inside { Inside from.end (length bytes.now) from.to (length rows.old) result }
{
    let long = words::word(bytes, from.end);
    let start = from.end + 8;
    let end = start + long as usize;
    let to = from.to + 1 + long as usize;
    widen(&bytes[start..end], &mut rows[from.to + 1..to]);
    rows[from.to] = long;
    Copied { end, to }
}

// Its length, and a number for each two bytes. One function for both would take what fills the row as a closure, and its clause would be longer than the
// lines they share.
pub(crate) fn pattern(bytes: &[u8], rows: &mut [u64], from: Copied) -> Copied
    requires inside { from.end ≤ length bytes.now }
    requires room { Room code_text (read_pattern (drop from.end bytes.now)) from.to (length rows.old) }
    ensures reads { done rows.new result ≡ after code_text rows.old from.to from.end (read_pattern (drop from.end bytes.now)) }
    ensures inside { Inside from.end (length bytes.now) from.to (length rows.old) result }
{
    let long = words::word(bytes, from.end);
    let start = from.end + 8;
    let end = start + 2 * long as usize;
    let to = from.to + 1 + long as usize;
    widen_pairs(&bytes[start..end], &mut rows[from.to + 1..to]);
    rows[from.to] = long;
    Copied { end, to }
}
