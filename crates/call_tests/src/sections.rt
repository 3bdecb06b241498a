//! `pd_sections`: places of a source, what is no text, and tokens by their numbers.
use crate::fixtures::source_of;
use pd_sections::{NotUtf8, Section, Source, Stop, Token, TokenKind, Tokens};
use std::process::Abort;
use std::test::Fail;

fn expect_place(rt: &impl Abort, source: &Source, at: u32, line: u32, column: u32) {
    assert!(rt; at as usize <= source.bytes().len());
    assert_eq!(rt; source.line_of(at), line, "line of {at}");
    assert_eq!(rt; source.column_of(at), column, "column of {at}");
}

#[test]
fn places_have_lines_columns_and_texts(rt: HostRuntime) -> Result<(), Fail> {
    let source = source_of(rt.alloc(), b"a\r\nb\rc\n\nd")?;
    assert_eq!(rt; source.name(), "a.sl");
    assert_eq!(rt; source.bytes(), b"a\r\nb\rc\n\nd".as_slice());
    expect_place(&rt, &source, 0, 1, 1);
    expect_place(&rt, &source, 1, 1, 2);
    expect_place(&rt, &source, 2, 1, 3);
    expect_place(&rt, &source, 3, 2, 1);
    expect_place(&rt, &source, 4, 2, 2);
    expect_place(&rt, &source, 5, 3, 1);
    expect_place(&rt, &source, 6, 3, 2);
    expect_place(&rt, &source, 7, 4, 1);
    expect_place(&rt, &source, 8, 5, 1);
    expect_place(&rt, &source, 9, 5, 2);
    let section = Section {
        source: 0,
        start: 3,
        len: 3,
    };
    assert_eq!(rt; source.text_of(section), b"b\rc".as_slice());
    Ok(())
}

#[test]
fn bytes_that_are_no_text_are_refused(rt: HostRuntime) -> Result<(), Fail> {
    for (bytes, at) in [
        (b"ab\xC3\xA9\xFFz".as_slice(), 4),
        (b"\xE2\x82".as_slice(), 0),
        (b"x\xED\xA0\x80".as_slice(), 1),
    ] {
        assert!(rt; bytes.len() < 9);
        let refused = source_of(rt.alloc(), bytes).err();
        assert_eq!(rt; refused, Some(Stop::Refused(NotUtf8 { at })));
    }
    Ok(())
}

#[test]
fn tokens_are_got_by_their_numbers(rt: HostRuntime) -> Result<(), Fail> {
    let first = Token {
        kind: TokenKind::Name,
        start: 0,
        len: 2,
    };
    let second = Token {
        kind: TokenKind::Symbol,
        start: 3,
        len: 1,
    };
    let tokens = Tokens::of(vec![in rt.alloc(); first, second]?);
    assert_eq!(rt; tokens.len(), 2);
    assert!(rt; !tokens.is_empty());
    assert_eq!(rt; tokens.get(0), first);
    assert_eq!(rt; tokens.get(1), second);
    Ok(())
}
