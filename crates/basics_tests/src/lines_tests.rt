//! Tests of `lines`: numbers at the edges of `i64`, and the words of a line.

use lines::number::{NumberFault, integer, natural};
use lines::pieces::Pieces;
use std::test::Fail;

#[test]
fn naturals(rt: HostRuntime) {
    for (text, wanted) in [
        ("0", Ok(0)),
        ("9223372036854775807", Ok(9_223_372_036_854_775_807)),
        ("9223372036854775808", Err(NumberFault::TooLarge)),
        ("99999999999999999999x", Err(NumberFault::NoDecimal)),
        ("00", Err(NumberFault::NoDecimal)),
        ("", Err(NumberFault::NoDecimal)),
    ] {
        assert_eq!(rt; natural(text.as_bytes()), wanted);
    }
}

#[test]
fn integers(rt: HostRuntime) {
    for (text, wanted) in [
        ("-9223372036854775808", Ok(i64::MIN)),
        ("-9223372036854775809", Err(NumberFault::TooLarge)),
        ("-0", Err(NumberFault::NoDecimal)),
        ("--1", Err(NumberFault::NoDecimal)),
    ] {
        assert_eq!(rt; integer(text.as_bytes()), wanted);
    }
}

#[test]
fn words(rt: HostRuntime) -> Result<(), Fail> {
    assert!(rt; Pieces::of(b"ob 3", b' ').two() == Some((b"ob".as_slice(), b"3".as_slice())));
    assert!(rt; Pieces::of(b"ob  3", b' ').two().is_none());
    assert!(rt; Pieces::of(b"end", b' ').sole() == Some(b"end".as_slice()));
    Ok(())
}
