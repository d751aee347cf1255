//! What the head of conditions defines for a text of OpenCL C.

ghost use Rattle.std.specs.Prelude.{◌≡◌, [], map, IfOk};
ghost use Rattle.lines.specs.Bytes.{is_letter, is_word_byte};
ghost use Rattle.lines.specs.Identifiers.{all_word_bytes};
ghost use Rattle.launch_text.specs.Answers.{bytes};
ghost use Rattle.opencl_tokens.specs.Seen.{joined as joined_seen, token as token_seen, token_kind, Joins, Tokens};
ghost use Rattle.opencl_reading.specs.Answers.{JoinsAll};
ghost use Rattle.opencl_reading.specs.Defines as rules;

use opencl_macros::is_compilers;
use opencl_tokens::{Joined, Site, TextFault, Token, TokenError, TokenKind, join, tokens};
use std::alloc::{AllocError, Global};

const FIRST_SITE: Site = Site { line: 1, column: 1 };

fn is_letter(b: u8) -> bool
    ensures { result ≡ is_letter b }
{
    97 <= b && b <= 122 || (65 <= b && b <= 90 || b == b'_')
}

fn is_word_byte(b: u8) -> bool
    ensures { result ≡ is_word_byte b }
{
    is_letter(b) || 48 <= b && b <= 57
}

fn is_alone(line: &[u8]) -> bool
    ensures { result ≡ all_word_bytes line.now }
{
    for b in line {
        if !is_word_byte(*b) {
            return false;
        }
    }
    true
}

fn ending(is_alone: bool) -> &'static [u8]
    ensures { result.now ≡ rules.ending is_alone }
{
    if is_alone { b" 1\n" } else { b"\n" }
}

#[tactic(auto, unfolding(crate::specs::Defines::directive))]
fn directive(alloc: Global, line: &[u8]) -> Result<Vec<u8>, AllocError>
    ensures { IfOk result (λ v. v.items ≡ rules.directive line.now) }
{
    let mut text = Vec::from_slice(alloc, b"#define ")?;
    text.extend_from_slice(line)?;
    text.extend_from_slice(ending(is_alone(line)))?;
    Ok(text)
}

fn joined_line(alloc: Global, line: &[u8]) -> Result<Joined, TokenError>
    ensures { Joins result (rules.joined_line line.now) }
{
    let text = directive(alloc, line)?;
    match join(alloc, &text) {
        Ok(joined) => Ok(joined),
        Err(TokenError::At { fault, .. }) => Err(TokenError::At {
            fault,
            site: FIRST_SITE,
        }),
        Err(TokenError::Memory) => Err(TokenError::Memory),
    }
}

/// The joined lines of the directives that a head's lines stand for, each a text of its own.
pub fn joined_lines(alloc: Global, lines: &[&[u8]]) -> Result<Vec<Joined>, TokenError>
    ensures { JoinsAll result (rules.joined_behind [] (map bytes lines.now)) }
{
    let mut found = Vec::new(alloc);
    for line in lines {
        found.push(joined_line(alloc, line)?)?;
    }
    Ok(found)
}

fn is_taken(kind: TokenKind<'_>) -> bool
    ensures { result ≡ rules.is_taken (token_kind kind.entry) }
{
    match kind {
        TokenKind::Name(name) => is_compilers(name),
        _ => false,
    }
}

/// A compiler's headers, which it reads behind what the host defines, may define the name of such a directive anew.
fn defines_taken(found: &[Token<'_>]) -> bool
    ensures { result ≡ rules.defines_taken (map token_seen found.now) }
{
    match found {
        [_, _, name, ..] => is_taken(name.kind),
        _ => false,
    }
}

fn free(found: Vec<Token<'_>>) -> Result<Vec<Token<'_>>, TokenError>
    ensures { Tokens result (rules.free (map token_seen found.entry.items)) }
{
    if defines_taken(&found) {
        Err(TokenError::At {
            fault: TextFault::Preprocessor,
            site: FIRST_SITE,
        })
    } else {
        Ok(found)
    }
}

fn line_tokens<'a>(alloc: Global, joined: &'a Joined) -> Result<Vec<Token<'a>>, TokenError>
    ensures { Tokens result (rules.line_tokens (joined_seen joined.now)) }
{
    match tokens(alloc, joined) {
        Ok(found) => free(found),
        Err(TokenError::At { fault, .. }) => Err(TokenError::At {
            fault,
            site: FIRST_SITE,
        }),
        Err(TokenError::Memory) => Err(TokenError::Memory),
    }
}

/// The tokens of such directives behind other tokens.
pub fn tokens_behind<'a>(
    alloc: Global,
    given: &[Token<'a>],
    lines: &'a [Joined],
) -> Result<Vec<Token<'a>>, TokenError>
    ensures { Tokens result (rules.tokens_behind (map token_seen given.now) (map joined_seen lines.now)) }
{
    let mut all = Vec::from_slice(alloc, given)?;
    for line in lines {
        let found = line_tokens(alloc, line)?;
        all.extend_from_slice(&found)?;
    }
    Ok(all)
}
