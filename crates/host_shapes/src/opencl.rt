//! What parameters of texts of OpenCL C ask, read up to the kernel that is chosen.

ghost use Rattle.std.specs.Prelude.{◌≡◌, IfOk, map};
ghost use Rattle.launch_text.specs.View.{head as head_seen};
ghost use Rattle.opencl_parser.specs.View.{lexemes as lexemes_seen};
ghost use Rattle.opencl_tokens.specs.Seen.{joined as joined_seen, token as token_seen};
ghost use Rattle.host_shapes.specs.Meant.{all_meant};
ghost use Rattle.host_shapes.specs.Texts as rules;

use crate::parameters::shapes_in;
use bumpalo::Bump;
use host_launches::Shape;
use launch_text::head::Head;
use opencl_files::errors::FileError;
use opencl_files::files::chosen_kernel;
use opencl_macros::{MacroError, preprocessed};
use opencl_reading::constants;
use opencl_reading::defines::{joined_lines, tokens_behind};
use opencl_tokens::{Joined, Lexeme, Token, TokenError, join, lexemes, tokens};
use std::alloc::{AllocError, Global};

fn of_lexemes(
    alloc: Global,
    head: &Head<'_>,
    found: &[Lexeme<'_>],
) -> Result<Option<Vec<Shape>>, AllocError>
    ensures { IfOk result (λ s. all_meant s ≡ rules.of_lexemes (head_seen head.now) (lexemes_seen found.now)) }
{
    match chosen_kernel(alloc, head.kernel, found) {
        Ok(text) => shapes_in(alloc, &text, &head.locals),
        Err(FileError::At { .. }) => Ok(None),
        Err(FileError::Memory) => Err(AllocError),
    }
}

fn of_expanded(
    alloc: Global,
    head: &Head<'_>,
    found: &[Token<'_>],
) -> Result<Option<Vec<Shape>>, AllocError>
    ensures { IfOk result (λ s. all_meant s ≡ rules.of_expanded (head_seen head.now) (map token_seen found.now)) }
{
    match lexemes(alloc, found) {
        Ok(found) => of_lexemes(alloc, head, &found),
        Err(TokenError::At { .. }) => Ok(None),
        Err(TokenError::Memory) => Err(AllocError),
    }
}

fn with_given<'a>(
    alloc: Global,
    head: &Head<'_>,
    found: &'a [Token<'a>],
    given: &'a [Token<'a>],
) -> Result<Option<Vec<Shape>>, AllocError>
    ensures { IfOk result (λ s. all_meant s ≡ rules.with_given (head_seen head.now) (map token_seen found.now) (map token_seen given.now)) }
{
    let pool = Bump::new(alloc);
    match preprocessed(alloc, &pool, given, found) {
        Ok(out) => of_expanded(alloc, head, &out),
        Err(MacroError::At(_)) => Ok(None),
        Err(MacroError::Memory) => Err(AllocError),
    }
}

fn with_texts<'a>(
    alloc: Global,
    head: &Head<'_>,
    found: &'a [Token<'a>],
    given: &'a [Token<'a>],
    lines: &'a [Joined],
) -> Result<Option<Vec<Shape>>, AllocError>
    ensures { IfOk result (λ s. all_meant s ≡ rules.with_texts (head_seen head.now) (map token_seen found.now) (map token_seen given.now) (map joined_seen lines.now)) }
{
    match tokens_behind(alloc, given, lines) {
        Ok(given) => with_given(alloc, head, found, &given),
        Err(TokenError::At { .. }) => Ok(None),
        Err(TokenError::Memory) => Err(AllocError),
    }
}

fn with_defines<'a>(
    alloc: Global,
    head: &Head<'_>,
    found: &'a [Token<'a>],
    given: &'a [Token<'a>],
) -> Result<Option<Vec<Shape>>, AllocError>
    ensures { IfOk result (λ s. all_meant s ≡ rules.with_defines (head_seen head.now) (map token_seen found.now) (map token_seen given.now)) }
{
    match joined_lines(alloc, &head.defines) {
        Ok(lines) => with_texts(alloc, head, found, given, &lines),
        Err(TokenError::At { .. }) => Ok(None),
        Err(TokenError::Memory) => Err(AllocError),
    }
}

fn with_lines<'a>(
    alloc: Global,
    head: &Head<'_>,
    found: &'a [Token<'a>],
    lines: &'a Joined,
) -> Result<Option<Vec<Shape>>, AllocError>
    ensures { IfOk result (λ s. all_meant s ≡ rules.with_lines (head_seen head.now) (map token_seen found.now) (joined_seen lines.now)) }
{
    match tokens(alloc, lines) {
        Ok(given) => with_defines(alloc, head, found, &given),
        Err(TokenError::At { .. }) => Ok(None),
        Err(TokenError::Memory) => Err(AllocError),
    }
}

fn of_tokens<'a>(
    alloc: Global,
    head: &Head<'_>,
    found: &'a [Token<'a>],
) -> Result<Option<Vec<Shape>>, AllocError>
    ensures { IfOk result (λ s. all_meant s ≡ rules.of_tokens (head_seen head.now) (map token_seen found.now)) }
{
    let text = constants(alloc)?;
    match join(alloc, &text) {
        Ok(lines) => with_lines(alloc, head, found, &lines),
        Err(TokenError::At { .. }) => Ok(None),
        Err(TokenError::Memory) => Err(AllocError),
    }
}

fn of_lines(
    alloc: Global,
    head: &Head<'_>,
    lines: &Joined,
) -> Result<Option<Vec<Shape>>, AllocError>
    ensures { IfOk result (λ s. all_meant s ≡ rules.of_lines (head_seen head.now) (joined_seen lines.now)) }
{
    match tokens(alloc, lines) {
        Ok(found) => of_tokens(alloc, head, &found),
        Err(TokenError::At { .. }) => Ok(None),
        Err(TokenError::Memory) => Err(AllocError),
    }
}

/// The shapes of the parameters of the kernel that a head chooses of a text of OpenCL C; none where it chooses none.
pub fn shapes_of(
    alloc: Global,
    head: &Head<'_>,
    bytes: &[u8],
) -> Result<Option<Vec<Shape>>, AllocError>
    ensures { IfOk result (λ s. all_meant s ≡ rules.of_opencl (head_seen head.now) bytes.now) }
{
    match join(alloc, bytes) {
        Ok(lines) => of_lines(alloc, head, &lines),
        Err(TokenError::At { .. }) => Ok(None),
        Err(TokenError::Memory) => Err(AllocError),
    }
}
