//! `pd_pl0_lex`: a source with its tokens. Refused ones are cases of `pl0_tree_cases`.
use crate::fixtures::{expect_tokens, source};
use pd_pl0_lex::lex;
use pd_sections::TokenKind;
use std::test::Fail;

const NAME: TokenKind = TokenKind::Name;

const NUMBER: TokenKind = TokenKind::Number;

const KEYWORD: TokenKind = TokenKind::Keyword;

const SYMBOL: TokenKind = TokenKind::Symbol;

#[test]
fn each_token_is_the_longest(rt: HostRuntime) -> Result<(), Fail> {
    let text = "procedure do_;\r\n\tx:=007<>=!odd#.";
    let expected = [
        (KEYWORD, 0, 9),
        (NAME, 10, 3),
        (SYMBOL, 13, 1),
        (NAME, 17, 1),
        (SYMBOL, 18, 2),
        (NUMBER, 20, 3),
        (SYMBOL, 23, 1),
        (SYMBOL, 24, 2),
        (SYMBOL, 26, 1),
        (KEYWORD, 27, 3),
        (SYMBOL, 30, 1),
        (SYMBOL, 31, 1),
    ];
    let source = source(&rt, rt.alloc(), text)?;
    let tokens = lex(rt.alloc(), &source)?;
    expect_tokens(&rt, &tokens, expected.as_slice());
    Ok(())
}
