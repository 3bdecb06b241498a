//! `pd_sl_lex`: sources with their tokens. Refused ones are cases of `sl_tree_cases`.
use crate::fixtures::{expect_tokens, source};
use pd_sections::TokenKind;
use pd_sl_lex::lex;
use std::test::Fail;

const NAME: TokenKind = TokenKind::Name;

const NUMBER: TokenKind = TokenKind::Number;

const TEXT: TokenKind = TokenKind::Text;

const KEYWORD: TokenKind = TokenKind::Keyword;

const SYMBOL: TokenKind = TokenKind::Symbol;

#[test]
fn each_token_is_the_longest(rt: HostRuntime) -> Result<(), Fail> {
    let text = "while(x<=01)//c\r\n{a$=\"\u{3B1}\"+ifs;/*/ */}&&!=\t";
    let expected = [
        (KEYWORD, 0, 5),
        (SYMBOL, 5, 1),
        (NAME, 6, 1),
        (SYMBOL, 7, 2),
        (NUMBER, 9, 1),
        (NUMBER, 10, 1),
        (SYMBOL, 11, 1),
        (SYMBOL, 17, 1),
        (NAME, 18, 2),
        (SYMBOL, 20, 1),
        (TEXT, 21, 4),
        (SYMBOL, 25, 1),
        (NAME, 26, 3),
        (SYMBOL, 29, 1),
        (SYMBOL, 36, 1),
        (SYMBOL, 37, 2),
        (SYMBOL, 39, 2),
    ];
    let source = source(&rt, rt.alloc(), text)?;
    let tokens = lex(rt.alloc(), &source)?;
    expect_tokens(&rt, &tokens, expected.as_slice());
    Ok(())
}

#[test]
fn blanks_are_no_tokens(rt: HostRuntime) -> Result<(), Fail> {
    let source = source(&rt, rt.alloc(), " // only blanks")?;
    let tokens = lex(rt.alloc(), &source)?;
    assert_eq!(rt; tokens.len(), 0);
    Ok(())
}
