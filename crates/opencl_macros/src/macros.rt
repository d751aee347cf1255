//! Macros, and what each name stands for.

ghost use Rattle.std.specs.Prelude.{◌≡◌, None, map};
ghost use Rattle.std.specs.Option.{option_map};
ghost use Rattle.opencl_tokens.specs.Seen.{token_kind};
ghost use Rattle.opencl_tokens.specs.Spelling.{sign};
ghost use Rattle.opencl_macros.specs.Macros as meaning;
ghost use Rattle.opencl_macros.specs.Seen.{lent, macro, maybe_macro, table, tokens_seen};

use crate::marks::same_sign;
use crate::{Token, TokenKind};
use opencl_tokens::Sign;

/// The macro of a name. A function has the tokens between its brackets: names with a comma between each two.
#[derive(Clone, Copy)]
pub struct Macro<'a> {
    pub parameters: Option<&'a [Token<'a>]>,
    pub body: &'a [Token<'a>],
}

/// A name that was defined, or taken away.
#[derive(Clone, Copy)]
pub struct Entry<'a> {
    pub name: &'a str,
    pub stands_for: Option<Macro<'a>>,
}

/// The macro of a name: the last entry counts.
pub fn look<'a>(name: &str, entries: &[Entry<'a>]) -> Option<Macro<'a>>
    ensures { maybe_macro result ≡ meaning.look name.now (table entries.now) None }
{
    let mut found = None;
    for entry in entries {
        if entry.name == name {
            found = entry.stands_for;
        }
    }
    found
}

pub fn is_defined(name: &str, entries: &[Entry<'_>]) -> bool
    ensures { result ≡ meaning.is_defined name.now (table entries.now) }
{
    look(name, entries).is_some()
}

pub fn is_mark(wanted: Sign, kind: TokenKind<'_>) -> bool
    ensures { result ≡ meaning.is_mark (sign wanted) (token_kind kind.entry) }
{
    match kind {
        TokenKind::Mark(mark) => same_sign(wanted, mark),
        _ => false,
    }
}

pub fn is_name(name: &str, kind: TokenKind<'_>) -> bool
    ensures { result ≡ meaning.is_name name.now (token_kind kind.entry) }
{
    match kind {
        TokenKind::Name(other) => other == name,
        _ => false,
    }
}

fn has_mark(wanted: Sign, tokens: &[Token<'_>]) -> bool
    ensures { result ≡ meaning.has_mark (sign wanted) (tokens_seen tokens.now) }
{
    for token in tokens {
        if is_mark(wanted, token.kind) {
            return true;
        }
    }
    false
}

pub fn is_front(wanted: Sign, tokens: &[Token<'_>]) -> bool
    ensures { result ≡ meaning.is_front (sign wanted) (tokens_seen tokens.now) }
{
    !tokens.is_empty() && is_mark(wanted, tokens[0].kind)
}

fn is_function(parameters: Option<&[Token<'_>]>) -> bool
    ensures { result ≡ meaning.is_function (option_map lent parameters.entry) }
{
    match parameters {
        None => false,
        Some(_) => true,
    }
}

/// A use of the macro would make a string.
pub fn makes_strings(used: Macro<'_>) -> bool
    ensures { result ≡ meaning.makes_strings (macro used.entry) }
{
    is_function(used.parameters) && has_mark(Sign::Hash, used.body)
}
