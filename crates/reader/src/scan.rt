// Finds where what the bytes say ends and how large it is, and copies nothing.
// Every function takes all bytes and a place among them, and an error is the place of the first byte that can't stand there. The two make no struct: the
// bytes stay while the place moves on, so that each step would take it apart. An error is a place in the whole, so what is left alone would not do; and it
// is a bare number, since the definitions of reading answer with that number.
ghost use Rattle.std.specs.Prelude.{◌≡◌, ◌+◌, ◌≤◌, length, drop};
ghost use Rattle.spec.specs.Calls.{size_text};
ghost use Rattle.wire.specs.Read.{read_word, read_text, read_elements, read_pattern, read_one};
ghost use Rattle.wire.specs.Grammar.{choices, read_tag, read_fields, read_node, decode};
ghost use Rattle.wire.specs.Sizes.{size_tree, size_fields};
ghost use Rattle.reader.specs.Code.{small_of, kind_of, fields_of, parts, smalls};
ghost use Rattle.reader.specs.Found.{found, taken, WithinBy, Within, WithinWord, Opens, WithinOpened, ended, scanned};

use crate::count;
use crate::count::Size;
use crate::grammar::{CallKind, Field, Forms, Kind, Small, choices_of, forms_of};
use words::word_at;

// What stands in a call is of at most this height: an expression in a condition is of depth 64.
pub const CALL_HEIGHT: usize = 66;

// And so are the parts of an entity, a request or an entry of a schema of at most this one.
pub const PART_HEIGHT: usize = CALL_HEIGHT - 1;

// What a call carries stands behind its first byte.
pub const CALL_START: usize = 1;

#[derive(Clone, Copy, Debug, PartialEq, Eq)]
pub struct Found {
    pub end: usize,
    pub size: usize,
}

// Which fields a tree has, and where they start.
#[derive(Clone, Copy)]
pub struct Opened {
    pub start: usize,
    pub fields: &'static [Field],
}

#[derive(Clone, Copy, Debug, PartialEq, Eq)]
pub struct Scanned {
    pub call: CallKind,
    pub size: usize,
}

pub fn word(bytes: &[u8], at: usize) -> Result<u64, usize>
    requires { at ≤ length bytes.now }
    ensures reads { result ≡ taken at (read_word (drop at bytes.now)) }
    ensures within { WithinWord at (length bytes.now) result }
{
    word_at(bytes, at).ok_or(bytes.len())
}

// A number of eight bytes adds nothing to the size.
pub fn number(bytes: &[u8], at: usize) -> Result<Found, usize>
    requires { at ≤ length bytes.now }
    ensures reads { result ≡ found (λ _. 0) at (read_word (drop at bytes.now)) }
    ensures within { Within at (length bytes.now) result }
{
    word(bytes, at)?;
    Ok(Found {
        end: at + 8,
        size: 0,
    })
}

// A byte that tells some few things apart.
pub fn choice(bytes: &[u8], at: usize, small: Small) -> Result<Found, usize>
    requires { at ≤ length bytes.now }
    ensures reads { result ≡ found (λ _. 0) at (read_one (choices (small_of small)) (drop at bytes.now)) }
    ensures within { WithinBy 0 1 at (length bytes.now) result }
{
    match bytes.get(at) {
        Some(byte) if *byte < choices_of(small) => Ok(Found {
            end: at + 1,
            size: 0,
        }),
        _ => Err(at),
    }
}

pub fn text(bytes: &[u8], at: usize) -> Result<Found, usize>
    requires { at ≤ length bytes.now }
    ensures reads { result ≡ found size_text at (read_text (drop at bytes.now)) }
    ensures within { Within at (length bytes.now) result }
{
    let long = word(bytes, at)? as usize;
    let start = at + 8;
    if bytes.len() - start < long {
        return Err(bytes.len());
    }
    Ok(Found {
        end: start + long,
        size: long + 1,
    })
}

// An element of a pattern, a number of two bytes that is at most 256. Where it ends.
fn element(bytes: &[u8], at: usize) -> Result<usize, usize>
    requires { at ≤ length bytes.now }
    ensures { result ≡ ended at (read_elements 1 (drop at bytes.now)) }
{
    match &bytes[at..] {
        [0, _, ..] | [1, 0, ..] => Ok(at + 2),
        [0 | 1, ..] => Err(at + 1),
        _ => Err(at),
    }
}

pub fn pattern(bytes: &[u8], at: usize) -> Result<Found, usize>
    requires { at ≤ length bytes.now }
    ensures reads { result ≡ found size_text at (read_pattern (drop at bytes.now)) }
    ensures within { Within at (length bytes.now) result }
{
    let long = word(bytes, at)? as usize;
    let mut end = at + 8;
    for _ in 0..long {
        end = element(bytes, end)?;
    }
    Ok(Found {
        end,
        size: long + 1,
    })
}

// The form of a tree; one that is a level of depth has to have one left.
pub fn opens(bytes: &[u8], at: usize, kind: Kind, height: usize) -> Result<Opened, usize>
    requires { at ≤ length bytes.now }
    ensures reads { Opens (kind_of kind) at (read_tag (kind_of kind) height (drop at bytes.now)) result }
    ensures within { WithinOpened at (length bytes.now) result }
{
    let table = match forms_of(kind) {
        Forms::Only(fields) => return Ok(Opened { start: at, fields }),
        Forms::ByTag(table) => table,
    };
    let tag = bytes.get(at).ok_or(at)?;
    match table.get(*tag as usize) {
        Some(form) if !form.inner || height > 0 => Ok(Opened {
            start: at + 1,
            fields: form.fields,
        }),
        _ => Err(at),
    }
}

// Fields, one behind another.
pub(crate) fn fields(
    bytes: &[u8],
    at: usize,
    shape: &[Field],
    height: usize,
) -> Result<Found, usize>
    requires { at ≤ length bytes.now }
    ensures reads { result ≡ found (size_fields (fields_of shape.now)) at (read_fields (read_node height) (fields_of shape.now) (drop at bytes.now)) }
    ensures within { WithinBy (parts (fields_of shape.now)) (smalls (fields_of shape.now)) at (length bytes.now) result }
{
    count::fields::<Size>(bytes, at, shape, 0, height)
}

// A tree of a kind, of at most some height.
pub fn node(bytes: &[u8], at: usize, kind: Kind, height: usize) -> Result<Found, usize>
    requires { at ≤ length bytes.now }
    ensures reads { result ≡ found (size_tree (kind_of kind)) at (read_node height (kind_of kind) (drop at bytes.now)) }
    ensures within { Within at (length bytes.now) result }
{
    count::node::<Size>(bytes, at, kind, height)
}

// A whole call, with nothing behind it.
pub fn scan(bytes: &[u8]) -> Result<Scanned, usize>
    ensures { result ≡ scanned (decode bytes.now) }
{
    let first = bytes.first().ok_or(0_usize)?;
    let Ok(call) = CallKind::try_from(*first) else {
        return Err(0);
    };
    let found = fields(bytes, CALL_START, call.fields(), CALL_HEIGHT)?;
    if found.end != bytes.len() {
        return Err(found.end);
    }
    Ok(Scanned {
        call,
        size: found.size,
    })
}

#[cfg(test)]
mod tests {
    use super::*;
    use std::process::Abort;
    use std::test::Fail;

    fn refused_at(rt: &impl Abort, bytes: &[u8], place: usize) {
        assert!(rt; scan(bytes) == Err(place));
    }

    fn read_as(rt: &impl Abort, bytes: &[u8], number: u8, size: usize) -> Result<(), Fail> {
        let Ok(scanned) = scan(bytes) else {
            return Err(Fail::new("refused"));
        };
        assert!(rt; u8::from(scanned.call) == number);
        assert!(rt; scanned.size == size);
        Ok(())
    }

    #[test]
    fn a_set(rt: HostRuntime) {
        // the set of false and the text "hi", and a 9 behind it
        let bytes: &[u8] = &[4, 1, 0, 0, 1, 2, 0, 0, 0, 0, 0, 0, 0, 2, 104, 105, 0, 9];
        assert!(rt; node(bytes, 0, Kind::Value, 2) == Ok(Found { end: 17, size: 5 }));
    }

    #[test]
    fn a_set_in_a_set(rt: HostRuntime) {
        let bytes: &[u8] = &[4, 1, 4, 0, 0];
        assert!(rt; node(bytes, 0, Kind::Value, 3) == Ok(Found { end: 5, size: 2 }));
        assert!(rt; node(bytes, 0, Kind::Value, 2) == Err(2));
    }

    #[test]
    fn cut_short(rt: HostRuntime) {
        // to remove a policy whose id has three bytes, of which one is there
        refused_at(&rt, &[2, 0, 0, 0, 0, 0, 0, 0, 3, 97], 10);
    }

    #[test]
    fn behind_the_end(rt: HostRuntime) -> Result<(), Fail> {
        read_as(&rt, &[5], 5, 0)?;
        refused_at(&rt, &[5, 0], 1);
        Ok(())
    }

    #[test]
    fn no_such_call(rt: HostRuntime) {
        refused_at(&rt, &[], 0);
        refused_at(&rt, &[7], 0);
    }

    #[test]
    fn an_entity(rt: HostRuntime) -> Result<(), Fail> {
        // T::"a" with no attributes, ancestors or tags
        read_as(
            &rt,
            &[
                3, 0, 0, 0, 0, 0, 0, 0, 1, 84, 0, 0, 0, 0, 0, 0, 0, 1, 97, 0, 0, 0,
            ],
            3,
            4,
        )
    }

    #[test]
    fn a_pattern(rt: HostRuntime) -> Result<(), Fail> {
        // permit(principal, action, resource) when { principal like "*" }, with the id "p"
        let mut bytes = [
            1, 0, 0, 0, 0, 0, 0, 0, 1, 112, 0, 0, 0, 0, 1, 0, 11, 0, 0, 0, 0, 0, 0, 0, 1, 1, 0, 4,
            0, 0,
        ];
        read_as(&rt, &bytes, 1, 9)?;
        // 257 is no element of a pattern
        bytes[26] = 1;
        refused_at(&rt, &bytes, 26);
        Ok(())
    }

    #[test]
    fn as_deep_as_can_be(rt: HostRuntime) -> Result<(), Fail> {
        // a condition with `not` 64 times before `principal`
        let mut bytes = [8; 83];
        bytes[0..16].copy_from_slice(&[1, 0, 0, 0, 0, 0, 0, 0, 1, 112, 0, 0, 0, 0, 1, 0]);
        bytes[80] = 4;
        bytes[81] = 0;
        bytes[82] = 0;
        read_as(&rt, &bytes, 1, 71)?;
        // and once more
        bytes[80] = 8;
        refused_at(&rt, &bytes, 80);
        Ok(())
    }
}
