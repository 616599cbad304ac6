//! Questions and answers beside their bytes, which were written out by hand.

use crate::{Message, decode, encode};
use std::test::Fail;

#[test]
fn a_question_for_bytes(rt: HostRuntime) -> Result<(), Fail> {
    let bytes = [
        1, 2, 0, 0, 0, 0, 0, 0, 0, 0, 0, 0, 0, 16, 0, 0, 0, 0, 0, 0, 0, 20, 0,
    ];
    let question = Message::AskBytes {
        number: 2,
        file: 0,
        offset: 16,
        length: 20,
    };
    let mut out = [0; 1280];
    assert_eq!(rt; encode(&question, &mut out), 23);
    assert_eq!(rt; &out[..23], bytes.as_slice());
    assert_eq!(rt; decode(&bytes), Some(question));
    assert_eq!(rt; decode(&bytes[..22]), None, "cut short");
    Ok(())
}

#[test]
fn a_question_for_a_name(rt: HostRuntime) -> Result<(), Fail> {
    let bytes = [3, 1, 0, 0, 0, 0, 0, 0, 0, 1, 81];
    let question = Message::AskName {
        number: 1,
        name: "Q",
    };
    let mut out = [0; 1280];
    assert_eq!(rt; encode(&question, &mut out), 11);
    assert_eq!(rt; &out[..11], bytes.as_slice());
    assert_eq!(rt; decode(&bytes), Some(question));
    Ok(())
}
