//! What stands on a line behind its `#`.

ghost use Rattle.std.specs.Prelude.{◌≡◌, ◌≤◌, length, true};
ghost use Rattle.std.specs.Option.{option_map};
ghost use Rattle.opencl_tokens.specs.Seen.{token as token_of, token_kind};
ghost use Rattle.opencl_tokens.specs.Spelling.{sign as sign_of};
ghost use Rattle.opencl_macros.specs.Directives as meaning;
ghost use Rattle.opencl_macros.specs.Seen.{lent, name as name_seen, tokens_seen};
ghost use Rattle.opencl_macros.specs.SeenDirectives.{directive};

use crate::compilers::is_standard;
use crate::conditions::behind;
use crate::macros::{Macro, is_front, is_mark, is_name};
use crate::{Token, TokenKind};
use opencl_tokens::Sign;

/// A directive: `Nothing` is passed over, and `Faulty` is a fault where it is read.
#[derive(Clone, Copy)]
pub enum Directive<'a> {
    Nothing,
    Faulty,
    Else,
    Ends,
    Defines(&'a str, Macro<'a>),
    Forgets(&'a str),
    If(&'a [Token<'a>]),
    ElseIf(&'a [Token<'a>]),
    /// The name may be missing.
    IfDefined(Option<&'a str>, bool),
}

fn name_of<'a>(kind: TokenKind<'a>) -> Option<&'a str>
    ensures { option_map name_seen result ≡ meaning.name_of (token_kind kind.entry) }
{
    match kind {
        TokenKind::Name(name) => Some(name),
        _ => None,
    }
}

fn first_name<'a>(tokens: &'a [Token<'a>]) -> Option<&'a str>
    ensures { option_map name_seen result ≡ meaning.first_name (tokens_seen tokens.now) }
{
    if tokens.is_empty() {
        return None;
    }
    name_of(tokens[0].kind)
}

fn forgotten<'a>(name: Option<&'a str>) -> Directive<'a>
    ensures { directive result ≡ meaning.forgotten (option_map name_seen name.entry) }
{
    match name {
        None => Directive::Faulty,
        Some(name) => {
            if is_standard(name) {
                Directive::Faulty
            } else {
                Directive::Forgets(name)
            }
        }
    }
}

fn has_name(name: &str, tokens: &[Token<'_>]) -> bool
    ensures { result ≡ meaning.has_name name.now (tokens_seen tokens.now) }
{
    for token in tokens {
        if is_name(name, token.kind) {
            return true;
        }
    }
    false
}

/// A name is due, which stands nowhere behind, or a comma.
fn is_right(name_due: bool, token: Token<'_>, rest: &[Token<'_>]) -> bool
    ensures { result ≡ meaning.is_right name_due (token_of token.entry) (tokens_seen rest.now) }
{
    if name_due {
        match token.kind {
            TokenKind::Name(name) => !has_name(name, rest),
            _ => false,
        }
    } else {
        is_mark(Sign::Comma, token.kind)
    }
}

/// Names with a comma between each two, all different.
fn are_names(tokens: &[Token<'_>]) -> bool
    ensures { result ≡ meaning.are_names true (tokens_seen tokens.now) }
{
    let mut name_due = true;
    for (i, token) in tokens.iter().enumerate() {
        if !is_right(name_due, *token, &tokens[i + 1..]) {
            return false;
        }
        name_due = !name_due;
    }
    !name_due
}

/// The number of tokens of 127 parameters, with the commas between them.
const LONGEST: usize = 253;

fn are_parameters(tokens: &[Token<'_>]) -> bool
    ensures { result ≡ meaning.are_parameters (tokens_seen tokens.now) }
{
    tokens.len() == 0 || (tokens.len() <= LONGEST && are_names(tokens))
}

/// The number of tokens before the first `)`.
fn before_bracket(tokens: &[Token<'_>]) -> usize
    ensures is { result ≡ meaning.before_bracket (tokens_seen tokens.now) }
    ensures within { result ≤ length tokens.now }
{
    for (i, token) in tokens.iter().enumerate() {
        if is_mark(Sign::RightParenthesis, token.kind) {
            return i;
        }
    }
    tokens.len()
}

fn ends_with(wanted: Sign, tokens: &[Token<'_>]) -> bool
    ensures { result ≡ meaning.ends_with (sign_of wanted) (tokens_seen tokens.now) }
{
    is_front(wanted, &tokens[tokens.len().saturating_sub(1)..])
}

/// `##` stands at neither end of a body.
fn defined_as<'a>(
    name: &'a str,
    parameters: Option<&'a [Token<'a>]>,
    body: &'a [Token<'a>],
) -> Directive<'a>
    ensures { directive result ≡ meaning.defined_as name.now (option_map lent parameters.entry) (tokens_seen body.now) }
{
    if is_front(Sign::HashHash, body) || ends_with(Sign::HashHash, body) {
        Directive::Faulty
    } else {
        Directive::Defines(name, Macro { parameters, body })
    }
}

fn function_with<'a>(
    name: &'a str,
    parameters: &'a [Token<'a>],
    body: &'a [Token<'a>],
) -> Directive<'a>
    ensures { directive result ≡ meaning.function_with name.now (tokens_seen parameters.now) (tokens_seen body.now) }
{
    if are_parameters(parameters) {
        defined_as(name, Some(parameters), body)
    } else {
        Directive::Faulty
    }
}

/// Reads the macro of a function, behind its `(`.
fn function<'a>(name: &'a str, tokens: &'a [Token<'a>]) -> Directive<'a>
    ensures { directive result ≡ meaning.function name.now (tokens_seen tokens.now) }
{
    let count = before_bracket(tokens);
    if count < tokens.len() {
        function_with(name, &tokens[..count], &tokens[count + 1..])
    } else {
        Directive::Faulty
    }
}

fn is_apart(tokens: &[Token<'_>]) -> bool
    ensures { result ≡ meaning.is_apart (tokens_seen tokens.now) }
{
    tokens.is_empty() || tokens[0].is_spaced
}

/// A function has its `(` directly behind its name, and the body of an object stands behind white space.
fn with_body<'a>(name: &'a str, tokens: &'a [Token<'a>]) -> Directive<'a>
    ensures { directive result ≡ meaning.with_body name.now (tokens_seen tokens.now) }
{
    if is_apart(tokens) {
        defined_as(name, None, tokens)
    } else if is_front(Sign::LeftParenthesis, tokens) {
        function(name, behind(tokens))
    } else {
        Directive::Faulty
    }
}

fn defined<'a>(name: Option<&'a str>, tokens: &'a [Token<'a>]) -> Directive<'a>
    ensures { directive result ≡ meaning.defined (option_map name_seen name.entry) (tokens_seen tokens.now) }
{
    match name {
        None => Directive::Faulty,
        Some(name) => with_body(name, behind(tokens)),
    }
}

/// `pragma` and `line` are passed over; `include`, `error` and what is no directive are faults where they are read.
fn named_directive<'a>(name: &'a str, tokens: &'a [Token<'a>]) -> Directive<'a>
    ensures { directive result ≡ meaning.named_directive name.now (tokens_seen tokens.now) }
{
    if name == "define" {
        defined(first_name(tokens), tokens)
    } else if name == "undef" {
        forgotten(first_name(tokens))
    } else if name == "if" {
        Directive::If(tokens)
    } else if name == "ifdef" {
        Directive::IfDefined(first_name(tokens), true)
    } else if name == "ifndef" {
        Directive::IfDefined(first_name(tokens), false)
    } else if name == "elif" {
        Directive::ElseIf(tokens)
    } else if name == "else" {
        Directive::Else
    } else if name == "endif" {
        Directive::Ends
    } else if name == "pragma" || name == "line" {
        Directive::Nothing
    } else {
        Directive::Faulty
    }
}

/// The directive of the tokens behind a `#`.
pub fn directive_of<'a>(tokens: &'a [Token<'a>]) -> Directive<'a>
    ensures { directive result ≡ meaning.directive_of (tokens_seen tokens.now) }
{
    if tokens.len() == 0 {
        return Directive::Nothing;
    }
    match first_name(tokens) {
        None => Directive::Faulty,
        Some(name) => named_directive(name, behind(tokens)),
    }
}
