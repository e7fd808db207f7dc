// An example with its answers written out by hand.
use crate::env::{Env, EnvView};
use crate::lookup::find;
use crate::requests::read_request;
use shelves::Table;
use values::{Memory, Value};

// U::"a" with the attribute x, which is 7, is in U::"b", which has none; the table has their places at 27.
const STORE: [u64; 29] = [
    1,
    85,
    1,
    97,
    7,
    1,
    5,
    1,
    0x8000_0000_0000_0007,
    1,
    120,
    2,
    0,
    1,
    1,
    85,
    1,
    98,
    1,
    85,
    1,
    98,
    2,
    0,
    2,
    0,
    0,
    0,
    18,
];

// The request is that U::"a" wants to do U::"v" with U::"b".
#[test]
fn two_entities(rt: HostRuntime) {
    let work = [1, 85, 1, 97, 1, 85, 1, 118, 1, 85, 1, 98, 2, 0];
    let memory = Memory {
        store: &STORE,
        work: &work,
    };
    let entities = Table {
        from: 0,
        places: 27,
        count: 2,
    };
    let request = read_request(&memory, entities, 29);
    let view = EnvView {
        memory,
        env: Env { entities, request },
    };
    let a = Value::Entity(request.principal.uid);
    let b = Value::Entity(request.resource.uid);
    assert_eq!(rt; find(&memory, entities, request.resource.uid), Some(18));
    assert_eq!(rt; view.mem(a, b, 65), Ok(Value::Bool(true)));
    assert_eq!(rt; view.mem(b, a, 65), Ok(Value::Bool(false)));
}
