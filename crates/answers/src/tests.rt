// Answers as bytes, written by hand.
use crate::{
    Decision, Kind, Refusal, UnknownNumber, Why, put_byte, put_end, put_flags, put_item, put_text,
    put_word, write_all_valid, write_decision, write_done, write_not_valid, write_refusal,
};
use std::test::Fail;

#[test]
fn short_answers(rt: HostRuntime) {
    let mut out = [9u8; 12];
    assert_eq!(rt;
        write_refusal(&mut out, Refusal::OverCapacity, 260),
        Some(10)
    );
    assert_eq!(rt; &out, b"\0\x05\0\0\0\0\0\0\x01\x04\x09\x09");
    assert_eq!(rt; write_done(&mut out), Some(1));
    assert_eq!(rt; &out[..2], b"\x01\x05".as_slice());
    assert_eq!(rt; write_all_valid(&mut out), Some(1));
    assert_eq!(rt; &out[..2], b"\x02\x05".as_slice());
}

#[test]
fn not_valid(rt: HostRuntime) {
    let mut out = [9u8; 13];
    assert_eq!(rt;
        write_not_valid(&mut out, &[112, 52], Why::AttributeNotFound),
        Some(12)
    );
    assert_eq!(rt; &out, b"\x03\0\0\0\0\0\0\0\x02p4\x03\x09");
}

#[test]
fn an_id_in_a_vector(rt: HostRuntime) -> Result<(), Fail> {
    let id = vec![in rt.alloc(); 112u64, 52]?;
    let mut out = [9u8; 10];
    assert_eq!(rt; put_text(&mut out, 0, &id), Some(10));
    assert_eq!(rt; &out, b"\0\0\0\0\0\0\0\x02p4");
    Ok(())
}

#[test]
fn request(rt: HostRuntime) {
    let mut out = [9u8; 18];
    assert_eq!(rt; write_decision(&mut out, Decision::Allow), Some(2));
    assert_eq!(rt; put_item(&mut out, 2, &[112, 49]), Some(13));
    assert_eq!(rt; put_end(&mut out, 13), Some(14));
    assert_eq!(rt; put_end(&mut out, 14), Some(15));
    assert_eq!(rt; put_flags(&mut out, 15, true, false), Some(17));
    assert_eq!(rt; &out, b"\x04\x01\x01\0\0\0\0\0\0\0\x02p1\0\0\x01\0\x09");
}

#[test]
fn pieces(rt: HostRuntime) {
    let mut out = [9u8; 10];
    assert_eq!(rt; put_byte(&mut out, 9, 7), Some(10));
    assert_eq!(rt; put_word(&mut out, 1, 258), Some(9));
    assert_eq!(rt; &out, b"\x09\0\0\0\0\0\0\x01\x02\x07");
    assert_eq!(rt; put_text(&mut out, 1, &[255]), Some(10));
    assert_eq!(rt; &out, b"\x09\0\0\0\0\0\0\0\x01\xff");
}

#[test]
fn no_room(rt: HostRuntime) {
    let mut out = [9u8; 9];
    assert_eq!(rt; write_refusal(&mut out, Refusal::NotACall, 0), None);
    assert_eq!(rt; write_not_valid(&mut out, &[], Why::NeverTrue), None);
    assert_eq!(rt; put_text(&mut out, 1, &[65]), None);
    assert_eq!(rt; put_word(&mut out, 2, 1), None);
    assert_eq!(rt; put_item(&mut out, 1, &[]), None);
    assert_eq!(rt; put_flags(&mut out, 8, true, true), None);
    assert_eq!(rt; put_end(&mut out, 9), None);
    assert_eq!(rt; &out, &[9u8; 9]);
}

#[test]
fn numbers_read_back(rt: HostRuntime) -> Result<(), Fail> {
    assert_eq!(rt; Kind::try_from(3), Ok(Kind::NotValid));
    assert_eq!(rt; Kind::try_from(5), Err(UnknownNumber(5)));
    assert_eq!(rt; Why::try_from(6), Ok(Why::EmptySet));
    assert_eq!(rt; Why::try_from(0), Err(UnknownNumber(0)));
    assert_eq!(rt; Decision::try_from(1), Ok(Decision::Allow));
    assert_eq!(rt; Decision::try_from(2), Err(UnknownNumber(2)));
    let words = format!(in rt.alloc(); "{}", Why::UnknownEntity)?;
    assert_eq!(rt; words.as_str(), "unknown entity or type");
    let words = format!(in rt.alloc(); "{}", UnknownNumber(5))?;
    assert_eq!(rt; words.as_str(), "unknown number 5");
    Ok(())
}
