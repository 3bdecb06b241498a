//! What several tests need.
ghost use Rattle.std.specs.Prelude.{◌≡◌, ◌≤◌, length, IfOk};

use pd_sections::{MOST_BYTES, NotUtf8, Source, Stop, Token, TokenKind, Tokens};
use pd_values::Text;
use std::alloc::{AllocError, Global};
use std::process::Abort;
use std::test::Fail;

pub fn text(alloc: Global, chars: &str) -> Result<Text, AllocError> {
    Ok(Text::of(String::from_str(alloc, chars)?))
}

/// A source with the name `a.sl`.
pub fn source_of(alloc: Global, bytes: &[u8]) -> Result<Source, Stop<NotUtf8>>
    requires { length bytes.now ≤ MOST_BYTES }
    ensures { IfOk result (λ source. source.bytes ≡ bytes.now) }
{
    let name = String::from_str(alloc, "a.sl")?;
    let bytes = Vec::from_slice(alloc, bytes)?;
    Source::new(alloc, name, bytes)
}

/// The same of a text that is short enough.
pub fn source(rt: &impl Abort, alloc: Global, chars: &str) -> Result<Source, Fail> {
    let bytes = chars.as_bytes();
    assert!(rt; bytes.len() <= MOST_BYTES);
    Ok(source_of(alloc, bytes)?)
}

/// Compares tokens with rows of a kind, a first byte and a length.
pub fn expect_tokens(rt: &impl Abort, tokens: &Tokens, expected: &[(TokenKind, u32, u32)]) {
    assert_eq!(rt; tokens.len() as usize, expected.len());
    for (i, (kind, start, len)) in expected.iter().enumerate() {
        assert!(rt; i < tokens.len() as usize);
        let token = Token {
            kind: *kind,
            start: *start,
            len: *len,
        };
        assert_eq!(rt; tokens.get(i as u32), token, "token {i}");
    }
}
