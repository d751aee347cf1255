//! Tokens to lexemes.

ghost use Rattle.std.specs.Prelude.{◌≡◌, map};
ghost use Rattle.std.specs.List.{find};
ghost use Rattle.std.specs.Str.{bytes_eq};
ghost use Rattle.opencl_tokens.specs.Scalars.{types};
ghost use Rattle.opencl_tokens.specs.Reading.{or_name, named, marked, lexeme_of, lexemes_of};
ghost use Rattle.opencl_tokens.specs.Seen.{token, token_kind, lexeme_kind, kind_seen, Lexemes};
ghost use Rattle.opencl_tokens.specs.Spelling.{sign};

use crate::characters::character_of;
use crate::numbers::number_of;
use crate::vocabulary::{types, words};
use crate::{Lexeme, LexemeKind, Sign, TextFault, Token, TokenError, TokenKind};
use std::alloc::Global;

/// The lexemes of tokens, or the first fault in them.
pub fn lexemes<'a>(alloc: Global, tokens: &[Token<'a>]) -> Result<Vec<Lexeme<'a>>, TokenError>
    ensures { Lexemes result (lexemes_of (map token tokens.now)) }
{
    let mut lexemes = Vec::new(alloc);
    for token in tokens {
        match lexeme_of(token.kind) {
            Ok(kind) => {
                lexemes.push(Lexeme {
                    kind,
                    site: token.site,
                })?;
            }
            Err(fault) => {
                return Err(TokenError::At {
                    fault,
                    site: token.site,
                });
            }
        }
    }
    Ok(lexemes)
}

/// A token as a lexeme.
fn lexeme_of(kind: TokenKind<'_>) -> Result<LexemeKind<'_>, TextFault>
    ensures { kind_seen result ≡ lexeme_of (token_kind kind.entry) }
{
    match kind {
        TokenKind::Name(name) => Ok(named(name)),
        TokenKind::Number(spelling) => number_of(spelling),
        TokenKind::Character(spelling) => character_of(spelling),
        TokenKind::Text(spelling) => Ok(LexemeKind::Text(spelling)),
        TokenKind::Mark(mark) => marked(mark),
        TokenKind::Other(_) => Err(TextFault::BadByte),
        TokenKind::End => Ok(LexemeKind::End),
    }
}

/// A word of the table, or what is none.
fn named(name: &str) -> LexemeKind<'_>
    ensures { lexeme_kind result ≡ named name.now }
{
    let bytes = name.as_bytes();
    for (text, word) in words() {
        if *text == bytes {
            return LexemeKind::Word(*word);
        }
    }
    type_or_name(name)
}

/// A type of the table, or a name.
fn type_or_name(name: &str) -> LexemeKind<'_>
    ensures { lexeme_kind result ≡ or_name name.now (find (λ entry. bytes_eq entry.0 name.now) types) }
{
    let bytes = name.as_bytes();
    for (text, scalar, width) in types() {
        if *text == bytes {
            return LexemeKind::Type(*scalar, *width);
        }
    }
    LexemeKind::Name(name)
}

/// A sign of the language; `#` and `##` are the preprocessor's.
fn marked(mark: Sign) -> Result<LexemeKind<'static>, TextFault>
    ensures { kind_seen result ≡ marked (sign mark) }
{
    match mark {
        Sign::Hash | Sign::HashHash => Err(TextFault::Preprocessor),
        _ => Ok(LexemeKind::Mark(mark)),
    }
}
