//! Words at and beyond the bounds, and words that spell no number.

use crate::{read_number, read_signed};

#[test]
fn words_that_are_numbers(rt: HostRuntime) {
    assert_eq!(rt; read_number(b"0", 4_294_967_295), Some(0));
    assert_eq!(rt; read_number(b"7", 4_294_967_295), Some(7));
    assert_eq!(rt;
        read_number(b"4294967295", 4_294_967_295),
        Some(4_294_967_295)
    );
    assert_eq!(rt; read_signed(b"-2097152", 2_097_152), Some(-2_097_152));
    assert_eq!(rt; read_signed(b"2097152", 2_097_152), Some(2_097_152));
}

#[test]
fn words_that_are_none(rt: HostRuntime) {
    for word in [
        "4294967296",
        "",
        "+1",
        "-0",
        "05",
        "1 ",
        "18446744073709551616",
    ] {
        assert_eq!(rt;
            read_number(word.as_bytes(), 4_294_967_295),
            None,
            "at {word}"
        );
    }
    assert_eq!(rt; read_number(&[b'1', 0xFF], 4_294_967_295), None);
    for word in ["-2097153", "-", "--1", "-0", "-01", "+1"] {
        assert_eq!(rt; read_signed(word.as_bytes(), 2_097_152), None, "at {word}");
    }
}
