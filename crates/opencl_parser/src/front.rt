//! The lexeme at the front.

ghost use Rattle.std.specs.Prelude.{◌≡◌, cond};
ghost use Rattle.opencl_tokens.specs.Seen.{lexeme_kind};
ghost use Rattle.core_code.specs.View.{site};
ghost use Rattle.opencl_parser.specs.Reader.{front, behind, run, Passes, Gives, Fails};
ghost use Rattle.opencl_parser.specs.Faults.{Expected};
ghost use Rattle.opencl_parser.specs.View.{lexemes, Reads};

use crate::stops::{ParseError, ParseFault};
use core_code::tree::Site;
use opencl_tokens::{Lexeme, LexemeKind};

/// The kind of the lexeme at the front: the end, where none is left.
pub fn kind_at<'a>(tokens: &[Lexeme<'a>]) -> LexemeKind<'a>
    ensures { lexeme_kind result ≡ (front (lexemes tokens.now)).kind }
{
    match tokens.first() {
        Some(lexeme) => lexeme.kind,
        None => LexemeKind::End,
    }
}

/// The line and the column at which the lexeme at the front begins; line 1, column 1, where none is left.
pub fn site_at(tokens: &[Lexeme]) -> Site
    ensures { site result ≡ (front (lexemes tokens.now)).site }
{
    match tokens.first() {
        Some(lexeme) => Site {
            line: lexeme.site.line,
            column: lexeme.site.column,
        },
        None => Site { line: 1, column: 1 },
    }
}

/// The lexemes behind the one at the front.
pub fn behind<'a>(tokens: &'a [Lexeme<'a>]) -> &'a [Lexeme<'a>]
    ensures { lexemes result.now ≡ behind (lexemes tokens.now) }
{
    match tokens {
        [_, rest @ ..] => rest,
        [] => tokens,
    }
}

/// Over the lexeme at the front, if it is the one that is due.
pub fn pass<'a>(
    is_due: bool,
    tokens: &'a [Lexeme<'a>],
) -> Result<(Site, &'a [Lexeme<'a>]), ParseError>
    ensures { Reads site result (run (cond is_due (Passes (Gives (front (lexemes tokens.now)).site)) (Fails Expected)) (lexemes tokens.now)) }
{
    let site = site_at(tokens);
    if is_due {
        Ok((site, behind(tokens)))
    } else {
        Err(ParseError::At {
            fault: ParseFault::Expected,
            site,
        })
    }
}
