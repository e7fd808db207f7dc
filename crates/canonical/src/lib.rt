// Whether what a call carries is as it is kept: sets, records and ancestors in order, each element once, and nothing too large.
// All of it is decided on the bytes of a call that was read before, so that what is refused is never copied.
#![tactic(auto)]

ghost use Rattle.std.specs.Prelude.{◌≡◌, ◌≤◌, length, drop, Ok as ok};
ghost use Rattle.spec.specs.Calls.{canonical, canonical_record, admissible};
ghost use Rattle.wire.specs.Grammar.{value, attrs, entity, request, read_node, call_height, decode};
ghost use Rattle.reader.specs.Found.{scanned};
ghost use Rattle.reader.specs.Ends.{Got};
ghost use Rattle.canonical.specs.Kept.{rises, judged, Within, read_item, read_items, item_key, is_kept, in_order, FoundAs, WithinElement, kept_entity};

use reader::ends::{node_end, text_end, text_of};
use reader::grammar::{CallKind, Kind};
use reader::order::comes_before;
use reader::scan::{CALL_START, PART_HEIGHT, Scanned};
use reader::value_kind::ValueKind;

// Most functions take all bytes and a place among them at which what they look at was read, and answer where that ends, if it is as it is kept.
// The two make no struct: the bytes stay while the place moves on, so that each step would take it apart.

// A policy or a request is at most so large.
const MOST_SIZE: usize = 65536;

// An enum and no closure: how an element is read, its key and its order are definitions by what the list is of.
// What a list is a list of. The order of values and of names of entities is that of their bytes; attributes stand in the order of their names.
#[derive(Clone, Copy)]
enum Listed {
    Values,
    Attributes,
    Ancestors,
}

// An element of a list: by what it is in order, and where it ends.
#[derive(Clone, Copy)]
struct Element<'a> {
    key: &'a [u8],
    end: usize,
}

// Whether a key comes behind the one that came last, if one did.
fn behind(last: Option<&[u8]>, key: &[u8]) -> bool
    ensures { result ≡ rises last.entry key.now }
{
    last.is_none_or(|before| comes_before(before, key))
}

#[cycle(element_at_list_value)]
fn element_at(bytes: &[u8], at: usize, listed: Listed, height: usize) -> Option<Element<'_>>
    requires { (at ≤ length bytes.now) × (Got (read_item listed height (drop at bytes.now))) }
    ensures is { FoundAs (item_key listed) (is_kept listed) at (read_item listed height (drop at bytes.now)) result }
    ensures within { WithinElement at (length bytes.now) result }
{
    match listed {
        Listed::Values => {
            let end = value(bytes, at, height)?;
            Some(Element {
                key: &bytes[at..end],
                end,
            })
        }
        Listed::Attributes => {
            let end = value(bytes, text_end(bytes, at), height)?;
            Some(Element {
                key: text_of(bytes, at),
                end,
            })
        }
        Listed::Ancestors => {
            let end = node_end(bytes, at, Kind::Uid, height);
            Some(Element {
                key: &bytes[at..end],
                end,
            })
        }
    }
}

// The elements of a list, each behind the one before it, and where the list ends. A loop: an element is judged and its end found in one step, so an
// iterator's item would have to say "not as kept" beside its end.
#[cycle(element_at_list_value)]
fn list(bytes: &[u8], at: usize, listed: Listed, height: usize) -> Option<usize>
    requires { (at ≤ length bytes.now) × (Got (read_items listed height (drop at bytes.now))) }
    ensures is { result ≡ judged (in_order listed) at (read_items listed height (drop at bytes.now)) }
    ensures within { Within at (length bytes.now) result }
{
    let mut end = at;
    let mut last: Option<&[u8]> = None;
    while bytes[end] == 1 {
        let here = element_at(bytes, end + 1, listed, height)?;
        if !behind(last, here.key) {
            return None;
        }
        last = Some(here.key);
        end = here.end;
    }
    Some(end + 1)
}

#[cycle(element_at_list_value)]
fn value(bytes: &[u8], at: usize, height: usize) -> Option<usize>
    requires { (at ≤ length bytes.now) × (Got (read_node height value (drop at bytes.now))) }
    ensures is { result ≡ judged canonical at (read_node height value (drop at bytes.now)) }
    ensures within { Within at (length bytes.now) result }
{
    let Ok(kind) = ValueKind::try_from(bytes[at]) else {
        unreachable()
    };
    match kind {
        ValueKind::Set => list(bytes, at + 1, Listed::Values, height - 1),
        ValueKind::Record => list(bytes, at + 1, Listed::Attributes, height - 1),
        ValueKind::Bool | ValueKind::Int | ValueKind::String | ValueKind::Entity => {
            Some(node_end(bytes, at, Kind::Value, height))
        }
    }
}

// A record that is no value: attributes, tags or a context.
fn record(bytes: &[u8], at: usize, height: usize) -> Option<usize>
    requires { (at ≤ length bytes.now) × (Got (read_node height attrs (drop at bytes.now))) }
    ensures is { result ≡ judged canonical_record at (read_node height attrs (drop at bytes.now)) }
    ensures within { Within at (length bytes.now) result }
{
    list(bytes, at, Listed::Attributes, height - 1)
}

fn kept_entity(bytes: &[u8]) -> Option<usize>
    requires { (1 ≤ length bytes.now) × (Got (read_node call_height entity (drop 1 bytes.now))) }
    ensures { result ≡ judged kept_entity 1 (read_node call_height entity (drop 1 bytes.now)) }
{
    let attributes = node_end(bytes, CALL_START, Kind::Uid, PART_HEIGHT);
    let ancestors = record(bytes, attributes, PART_HEIGHT)?;
    let tags = list(bytes, ancestors, Listed::Ancestors, PART_HEIGHT)?;
    record(bytes, tags, PART_HEIGHT)
}

fn kept_request(bytes: &[u8]) -> Option<usize>
    requires { (1 ≤ length bytes.now) × (Got (read_node call_height request (drop 1 bytes.now))) }
    ensures { result ≡ judged (λ q. canonical_record q.context) 1 (read_node call_height request (drop 1 bytes.now)) }
{
    let action = node_end(bytes, CALL_START, Kind::Uid, PART_HEIGHT);
    let resource = node_end(bytes, action, Kind::Uid, PART_HEIGHT);
    let context = node_end(bytes, resource, Kind::Uid, PART_HEIGHT);
    record(bytes, context, PART_HEIGHT)
}

// Of a call as it was scanned: whether it may be done, so far as its bytes tell.
pub fn admissible(bytes: &[u8], call: Scanned) -> bool
    requires { ok call ≡ scanned (decode bytes.now) }
    ensures { result ≡ admissible (decode bytes.now) }
{
    match call.call {
        CallKind::PutPolicy => call.size <= MOST_SIZE,
        CallKind::PutEntity => kept_entity(bytes).is_some(),
        CallKind::Authorize => call.size <= MOST_SIZE && kept_request(bytes).is_some(),
        CallKind::SetSchema
        | CallKind::RemovePolicy
        | CallKind::RemoveEntity
        | CallKind::ValidatePolicies => true,
    }
}

#[cfg(test)]
mod tests {
    use super::*;
    use reader::scan::scan;
    use std::process::Abort;
    use std::test::Fail;

    fn told(rt: &impl Abort, bytes: &[u8], expected: bool) -> Result<(), Fail> {
        let Ok(call) = scan(bytes) else {
            return Err(Fail::new("no call"));
        };
        assert!(rt; admissible(bytes, call) == expected);
        Ok(())
    }

    #[test]
    fn sets(rt: HostRuntime) -> Result<(), Fail> {
        // an entity with no name and the attribute a: {false, true}
        let mut bytes = [0; 38];
        bytes[0] = 3;
        bytes[17..34].copy_from_slice(&[1, 0, 0, 0, 0, 0, 0, 0, 1, 97, 4, 1, 0, 0, 1, 0, 1]);
        told(&rt, &bytes, true)?;
        // {true, true} has an element twice
        bytes[30] = 1;
        told(&rt, &bytes, false)?;
        // {true, false} is out of order
        bytes[33] = 0;
        told(&rt, &bytes, false)
    }

    #[test]
    fn names(rt: HostRuntime) -> Result<(), Fail> {
        // a request with the context {a: false, b: false}
        let mut bytes = [0; 74];
        bytes[0] = 6;
        bytes[49..61].copy_from_slice(&[1, 0, 0, 0, 0, 0, 0, 0, 1, 97, 0, 0]);
        bytes[61..73].copy_from_slice(&[1, 0, 0, 0, 0, 0, 0, 0, 1, 98, 0, 0]);
        told(&rt, &bytes, true)?;
        // {c: false, b: false} is out of order
        bytes[58] = 99;
        told(&rt, &bytes, false)?;
        // {b: false, b: false} has a name twice
        bytes[58] = 98;
        told(&rt, &bytes, false)
    }

    #[test]
    fn shorter_names(rt: HostRuntime) -> Result<(), Fail> {
        // an entity with the tags {aa: false, b: false}: a name that is longer can come first
        let mut bytes = [0; 45];
        bytes[0] = 3;
        bytes[19..32].copy_from_slice(&[1, 0, 0, 0, 0, 0, 0, 0, 2, 97, 97, 0, 0]);
        bytes[32..44].copy_from_slice(&[1, 0, 0, 0, 0, 0, 0, 0, 1, 98, 0, 0]);
        told(&rt, &bytes, true)
    }

    #[test]
    fn ancestors_of(rt: HostRuntime) -> Result<(), Fail> {
        // an entity that is in two others, the one with the shorter id first
        let mut bytes = [0; 55];
        bytes[0] = 3;
        bytes[18] = 1;
        bytes[35] = 1;
        bytes[51] = 1;
        bytes[52] = 97;
        told(&rt, &bytes, true)?;
        // and the one with the longer id first
        bytes[18..55].copy_from_slice(&[0; 37]);
        bytes[18] = 1;
        bytes[34] = 1;
        bytes[35] = 97;
        bytes[36] = 1;
        told(&rt, &bytes, false)
    }

    #[test]
    fn as_large_as_can_be(rt: HostRuntime) -> Result<(), Fail> {
        // a policy for all, with an id of 65,532 bytes
        let mut bytes = [0; 65547];
        bytes[0] = 1;
        bytes[7] = 255;
        bytes[8] = 252;
        told(&rt, &bytes[..65546], true)?;
        // and one more
        bytes[8] = 253;
        told(&rt, &bytes, false)
    }
}
