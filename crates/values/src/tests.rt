// Examples with their answers written out by hand.
use crate::memory::Memory;
use crate::nodes::Value;
use crate::ordering::{compare, equal};
use crate::records::attribute;
use crate::sets::{contains, is_empty, lay_element, make_set};
use crate::texts::{compare_names, compare_texts};
use std::test::Fail;

// "b" at 0 and "aa" at 2: the shorter text comes first, but not the name.
#[test]
fn texts_by_length_and_names_by_bytes(rt: HostRuntime) {
    let memory = Memory {
        store: &[1, 98, 2, 97, 97],
        work: &[],
    };
    assert!(rt; compare_texts(&memory, 0, 2).is_lt());
    assert!(rt; !compare_names(&memory, 0, 2).is_lt());
    assert!(rt; compare_names(&memory, 2, 0).is_lt());
}

// Texts at two places, one of them in the work memory, are equal; and integers come before texts.
#[test]
fn values_are_compared_by_what_they_are(rt: HostRuntime) {
    let memory = Memory {
        store: &[1, 98],
        work: &[7, 1, 98],
    };
    assert!(rt; equal(&memory, Value::String(0), Value::String(3), 1));
    assert!(rt; !equal(&memory, Value::Int(-1), Value::Int(1), 1));
    assert!(rt; compare(&memory, Value::Int(-1), Value::Int(1), 1).is_lt());
    assert!(rt; compare(&memory, Value::Int(1), Value::String(0), 1).is_lt());
}

// The set of 1 and 2, stored.
#[test]
fn a_stored_set(rt: HostRuntime) {
    let memory = Memory {
        store: &[6, 2, 1, 0x8000_0000_0000_0001, 1, 0x8000_0000_0000_0002],
        work: &[],
    };
    assert!(rt; contains(&memory, 0, Value::Int(2), 2));
    assert!(rt; !contains(&memory, 0, Value::Int(3), 2));
    assert!(rt; !is_empty(&memory, 0));
}

// The record { a: true, b: 7 }, stored behind the two names that are asked for, "b" and "c".
#[test]
fn a_stored_record(rt: HostRuntime) -> Result<(), Fail> {
    let store = [
        1,
        98,
        1,
        99,
        12,
        2,
        8,
        0,
        1,
        10,
        1,
        0x8000_0000_0000_0007,
        1,
        97,
        1,
        98,
    ];
    let memory = Memory {
        store: &store,
        work: &[],
    };
    let Some(b) = attribute(&memory, 4, 0, 2) else {
        panic!(rt; "no b");
    };
    assert!(rt; equal(&memory, b, Value::Int(7), 2));
    assert!(rt; attribute(&memory, 4, 2, 2).is_none());
    Ok(())
}

// [7, 7] makes a set of one.
#[test]
fn a_set_keeps_a_value_once(rt: HostRuntime) -> Result<(), Fail> {
    let mut work = [9; 12];
    let mut top = 0;
    lay_element(&mut work, 8, Value::Int(7));
    lay_element(&mut work, 10, Value::Int(7));
    let v = make_set(&[], &mut work, &mut top, 8, 2, 1);
    assert!(rt; top == 4);
    assert!(rt; work[0] == 0 && work[1] == 1 && work[2] == 1 && work[3] == 0x8000_0000_0000_0007);
    let Value::Set(p) = v else {
        panic!(rt; "not a set");
    };
    let made = Memory {
        store: &[],
        work: &work[..top],
    };
    assert!(rt; contains(&made, p, Value::Int(7), 2));
    Ok(())
}
