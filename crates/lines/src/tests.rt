// Each kind of line, from answer bytes written by hand.
use crate::quotes::quoted;
use crate::{LineError, line_of};
use std::alloc::Global;
use std::process::Abort;
use std::test::Fail;

fn says(rt: &impl Abort, heap: Global, answer: &[u8], text: &str) -> Result<(), Fail> {
    let line = line_of(heap, answer)?;
    assert_eq!(rt; line.as_str(), text);
    Ok(())
}

fn no_line(rt: &impl Abort, heap: Global, answer: &[u8]) {
    assert!(rt; line_of(heap, answer).is_err());
}

#[test]
fn short_lines(rt: HostRuntime) -> Result<(), Fail> {
    let heap = rt.alloc();
    says(&rt, heap, b"\0\x02\0\0\0\0\0\0\0\0", "refused 2 at 0")?;
    says(&rt, heap, b"\0\x05\0\0\0\0\0\0\x01\x04", "refused 5 at 260")?;
    says(&rt, heap, b"\x01", "done")?;
    says(&rt, heap, b"\x02", "all policies checked")?;
    says(
        &rt,
        heap,
        b"\x03\0\0\0\0\0\0\0\x02p4\x03",
        "policy \"p4\" does not check: 3 (attribute not found)",
    )
}

#[test]
fn decisions(rt: HostRuntime) -> Result<(), Fail> {
    let heap = rt.alloc();
    says(
        &rt,
        heap,
        b"\x04\x01\x01\0\0\0\0\0\0\0\x02p1\x01\0\0\0\0\0\0\0\x02p2\0\0\x01\x01",
        "allowed by \"p1\" \"p2\"; errors none; request fits; entities fit",
    )?;
    says(
        &rt,
        heap,
        b"\x04\0\x01\0\0\0\0\0\0\0\x02p3\0\x01\0\0\0\0\0\0\0\x02p2\0\0\0",
        "not allowed by \"p3\"; errors \"p2\"; request does not fit; entities do not fit",
    )?;
    says(
        &rt,
        heap,
        b"\x04\0\0\0\x01\x01",
        "not allowed; errors none; request fits; entities fit",
    )
}

#[test]
fn odd_bytes(rt: HostRuntime) -> Result<(), Fail> {
    let mut line = String::new(rt.alloc());
    quoted(&mut line, b"a\"\\\n\x7f\xff~ ")?;
    assert_eq!(rt; line.as_str(), "\"a\\\"\\\\\\x0a\\x7f\\xff~ \"");
    Ok(())
}

#[test]
fn no_answers(rt: HostRuntime) {
    let heap = rt.alloc();
    no_line(&rt, heap, b"");
    no_line(&rt, heap, b"\x05");
    no_line(&rt, heap, b"\x01\0");
    no_line(&rt, heap, b"\x03\0\0\0\0\0\0\0\x02p4\x08");
    no_line(&rt, heap, b"\x04\0\0\0\x01");
    no_line(&rt, heap, b"\x04\0\0\0\x01\x01\0");
}

#[test]
fn failures_in_words(rt: HostRuntime) -> Result<(), Fail> {
    let words = format!(in rt.alloc(); "{}", LineError::NotAnAnswer)?;
    assert_eq!(rt; words.as_str(), "the bytes are no answer");
    Ok(())
}
