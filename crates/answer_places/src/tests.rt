// Answers as bytes, written by hand.
use crate::{Answer, Decision, Ids, Refusal, Response, Why, write};
use values::Memory;

#[test]
fn short_answers(rt: HostRuntime) {
    let none = Memory {
        store: &[],
        work: &[],
    };
    let mut out = [9u8; 12];
    let refused = Answer::Refused(Refusal::OverCapacity, 260);
    assert_eq!(rt; write(&none, refused, &mut out), Some(10));
    assert_eq!(rt; &out, b"\0\x05\0\0\0\0\0\0\x01\x04\x09\x09");
    assert_eq!(rt; write(&none, Answer::Done, &mut out), Some(1));
    assert_eq!(rt; &out[..2], b"\x01\x05".as_slice());
    assert_eq!(rt; write(&none, Answer::AllValid, &mut out), Some(1));
    assert_eq!(rt; &out[..2], b"\x02\x05".as_slice());
}

#[test]
fn not_valid(rt: HostRuntime) {
    let mut out = [9u8; 13];
    let answer = Answer::NotValid(0, Why::AttributeNotFound);
    let memory = Memory {
        store: &[2, 112, 52],
        work: &[],
    };
    assert_eq!(rt; write(&memory, answer, &mut out), Some(12));
    assert_eq!(rt; &out, b"\x03\0\0\0\0\0\0\0\x02p4\x03\x09");
}

// Two ids in the store, and behind it in the work memory the place of each.
fn write_authorized(out: &mut [u8]) -> Option<usize> {
    let response = Response {
        decision: Decision::Allow,
        reasons: Ids { from: 6, count: 1 },
        errors: Ids { from: 7, count: 1 },
    };
    let answer = Answer::Authorized {
        response,
        request_fits: true,
        entities_fit: false,
    };
    let memory = Memory {
        store: &[2, 112, 49, 2, 112, 50],
        work: &[0, 3],
    };
    write(&memory, answer, out)
}

#[test]
fn authorized(rt: HostRuntime) {
    let mut out = [9u8; 29];
    assert_eq!(rt; write_authorized(&mut out), Some(28));
    assert_eq!(rt;
        &out,
        b"\x04\x01\x01\0\0\0\0\0\0\0\x02p1\0\x01\0\0\0\0\0\0\0\x02p2\0\x01\0\x09"
    );
}

#[test]
fn no_room(rt: HostRuntime) {
    let mut out = [9u8; 27];
    assert_eq!(rt; write_authorized(&mut out), None);
    assert_eq!(rt; &out, &[9u8; 27]);
    let none = Memory {
        store: &[],
        work: &[],
    };
    let refused = Answer::Refused(Refusal::NotACall, 0);
    assert_eq!(rt; write(&none, refused, &mut [9u8; 9]), None);
    let answer = Answer::NotValid(0, Why::NeverTrue);
    let memory = Memory {
        store: &[1, 112],
        work: &[],
    };
    assert_eq!(rt; write(&memory, answer, &mut [9u8; 10]), None);
}
