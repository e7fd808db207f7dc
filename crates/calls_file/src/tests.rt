// A file of two calls, and the same cut off.
use crate::{Calls, CutOff, count_calls};
use std::test::Fail;

#[test]
fn counts(rt: HostRuntime) {
    assert_eq!(rt; count_calls(b""), Ok(0));
    assert_eq!(rt;
        count_calls(b"\0\0\0\0\0\0\0\x01\x05\0\0\0\0\0\0\0\0"),
        Ok(2)
    );
    assert_eq!(rt;
        count_calls(b"\0\0\0\0\0\0\0\x01\x05\0\0\0\0\0\0\0"),
        Err(CutOff { at: 9 })
    );
    assert_eq!(rt;
        count_calls(b"\0\0\0\0\0\0\0\x02\x05"),
        Err(CutOff { at: 0 })
    );
    assert_eq!(rt;
        count_calls(b"\xff\xff\xff\xff\xff\xff\xff\xff\x05"),
        Err(CutOff { at: 0 })
    );
}

#[test]
fn gives(rt: HostRuntime) {
    let mut calls = Calls::new(b"\0\0\0\0\0\0\0\x01\x05\0\0\0\0\0\0\0\x02\x07");
    assert_eq!(rt; calls.next(), Some(Ok([5u8].as_slice())));
    assert_eq!(rt; calls.next(), Some(Err(CutOff { at: 9 })));
    assert_eq!(rt; calls.next(), None);
}

// From the second call of two on, and behind the end.
#[test]
fn at_any_place(rt: HostRuntime) {
    let file = b"\0\0\0\0\0\0\0\x01\x05\0\0\0\0\0\0\0\x01\x07";
    let mut calls = Calls { file, at: 9 };
    assert_eq!(rt; calls.next(), Some(Ok([7u8].as_slice())));
    assert_eq!(rt; calls.next(), None);
    assert_eq!(rt; Calls { file, at: 18 }.next(), None);
    assert_eq!(rt; Calls { file, at: 100 }.next(), None);
}

#[test]
fn cut_off_in_words(rt: HostRuntime) -> Result<(), Fail> {
    let words = format!(in rt.alloc(); "{}", CutOff { at: 9 })?;
    assert_eq!(rt; words.as_str(), "ends inside the call at byte 9");
    Ok(())
}
