// Examples with their answers written out by hand.
use crate::arithmetic::{add, less, less_eq, mul, neg, sub};
use crate::errors::EvalError;
use crate::like::like;
use crate::logic::{eq, is, not};
use crate::sets::{contains, contains_all, contains_any, is_empty};
use std::test::Fail;
use values::{Memory, Value};

const TRUE: Result<Value, EvalError> = Ok(Value::Bool(true));

const FALSE: Result<Value, EvalError> = Ok(Value::Bool(false));

const TYPE_ERROR: Result<Value, EvalError> = Err(EvalError::TypeError);

const OUT_OF_BOUNDS: Result<Value, EvalError> = Err(EvalError::ArithBoundsError);

#[test]
fn integers(rt: HostRuntime) {
    assert_eq!(rt; add(Value::Int(2), Value::Int(-5)), Ok(Value::Int(-3)));
    assert_eq!(rt; sub(Value::Int(2), Value::Int(-5)), Ok(Value::Int(7)));
    assert_eq!(rt; mul(Value::Int(-2), Value::Int(-5)), Ok(Value::Int(10)));
    assert_eq!(rt; neg(Value::Int(7)), Ok(Value::Int(-7)));
    assert_eq!(rt; less(Value::Int(-1), Value::Int(0)), TRUE);
    assert_eq!(rt; less_eq(Value::Int(3), Value::Int(3)), TRUE);
}

#[test]
fn out_of_bounds(rt: HostRuntime) {
    let least = Value::Int(-0x8000_0000_0000_0000);
    let greatest = Value::Int(0x7fff_ffff_ffff_ffff);
    assert_eq!(rt; add(greatest, Value::Int(1)), OUT_OF_BOUNDS);
    assert_eq!(rt; sub(least, Value::Int(1)), OUT_OF_BOUNDS);
    assert_eq!(rt; mul(least, Value::Int(-1)), OUT_OF_BOUNDS);
    assert_eq!(rt; neg(least), OUT_OF_BOUNDS);
}

#[test]
fn wrong_types(rt: HostRuntime) {
    assert_eq!(rt; add(Value::Int(1), Value::Bool(true)), TYPE_ERROR);
    assert_eq!(rt; less(Value::Bool(true), Value::Int(1)), TYPE_ERROR);
    assert_eq!(rt; not(Value::Int(1)), TYPE_ERROR);
    assert_eq!(rt; not(Value::Bool(true)), FALSE);
}

// The entity U::"a" at 0, and the types U at 4 and V at 6.
#[test]
fn types_of_entities(rt: HostRuntime) {
    let store = [1, 85, 1, 97, 1, 85, 1, 86];
    let memory = Memory {
        store: &store,
        work: &[],
    };
    assert_eq!(rt; is(&memory, Value::Entity(0), 4, 1), TRUE);
    assert_eq!(rt; is(&memory, Value::Entity(0), 6, 1), FALSE);
    assert_eq!(rt; is(&memory, Value::Int(0), 6, 1), TYPE_ERROR);
    assert_eq!(rt; eq(&memory, Value::String(4), Value::String(6), 1), FALSE);
}

// The pattern a*b* at 0, and the texts acbc at 5 and ca at 10.
#[test]
fn patterns(rt: HostRuntime) {
    let store = [4, 97, 256, 98, 256, 4, 97, 99, 98, 99, 2, 99, 97];
    let memory = Memory {
        store: &store,
        work: &[],
    };
    assert_eq!(rt; like(&memory, Value::String(5), 0, 1), TRUE);
    assert_eq!(rt; like(&memory, Value::String(10), 0, 1), FALSE);
    assert_eq!(rt; like(&memory, Value::Bool(true), 0, 1), TYPE_ERROR);
}

// The set of 1 and 2, stored.
#[test]
fn a_stored_set(rt: HostRuntime) -> Result<(), Fail> {
    let store = [6, 2, 1, 0x8000_0000_0000_0001, 1, 0x8000_0000_0000_0002];
    let memory = Memory {
        store: &store,
        work: &[],
    };
    let v = Value::Set(0);
    assert_eq!(rt; contains(&memory, v, Value::Int(2), 2), TRUE);
    assert_eq!(rt; contains(&memory, v, Value::Int(3), 2), FALSE);
    assert_eq!(rt; contains_all(&memory, v, v, 2), TRUE);
    assert_eq!(rt; contains_any(&memory, v, v, 2), TRUE);
    assert_eq!(rt; contains_any(&memory, v, Value::Int(1), 2), TYPE_ERROR);
    assert_eq!(rt; is_empty(&memory, v, 2), FALSE);
    Ok(())
}

// As docs/NUMBERS.md has them.
#[test]
fn numbers_of_errors(rt: HostRuntime) {
    assert_eq!(rt; EvalError::EntityDoesNotExist as u8, 1);
    assert_eq!(rt; EvalError::AttrDoesNotExist as u8, 2);
    assert_eq!(rt; EvalError::TagDoesNotExist as u8, 3);
    assert_eq!(rt; EvalError::TypeError as u8, 4);
    assert_eq!(rt; EvalError::ArithBoundsError as u8, 5);
}
