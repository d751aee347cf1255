//! The attribute by which some compilers know overloaded functions.

ghost use Rattle.std.specs.Prelude.{◌≡◌};
ghost use Rattle.std.specs.Option.{option_map};
ghost use Rattle.core_code.specs.View.{site as site_seen};
ghost use Rattle.opencl_parser.specs.View.{lexemes};
ghost use Rattle.opencl_tokens.specs.Seen.{lexeme_kind};
ghost use Rattle.opencl_reading.specs.Overloads as rules;

use core_code::tree::Site;
use opencl_tokens::{Lexeme, LexemeKind};

fn is_overloading(kind: LexemeKind) -> bool
    ensures { result ≡ rules.is_overloading (lexeme_kind kind.entry) }
{
    match kind {
        LexemeKind::Name(name) => name == "overloadable" || name == "__overloadable__",
        _ => false,
    }
}

/// The first place of the attribute `overloadable`.
pub fn first_overloading(tokens: &[Lexeme]) -> Option<Site>
    ensures { option_map site_seen result ≡ rules.first_overloading (lexemes tokens.now) }
{
    for token in tokens {
        if is_overloading(token.kind) {
            return Some(Site {
                line: token.site.line,
                column: token.site.column,
            });
        }
    }
    None
}
