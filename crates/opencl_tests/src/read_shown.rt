//! Reads an expression or a block of a text, and writes its tree as a text for the tests, or the fault.

use crate::statement_shown::push_statements;
use crate::tree_shown::push_expression;
use opencl_parser::stops::ParseError;
use opencl_parser::{block_of, expression_of};
use opencl_tokens::{Joined, Lexeme, Token, join, lexemes, tokens};
use std::alloc::{AllocError, Global};

/// The expression of a text, or the fault.
pub fn expression(alloc: Global, text: &[u8]) -> Result<String, AllocError> {
    let mut out = String::new(alloc);
    push_text(alloc, &mut out, text, false)?;
    Ok(out)
}

/// The statements of a text up to a closing brace, or the fault.
pub fn block(alloc: Global, text: &[u8]) -> Result<String, AllocError> {
    let mut out = String::new(alloc);
    push_text(alloc, &mut out, text, true)?;
    Ok(out)
}

fn push_text(
    alloc: Global,
    out: &mut String,
    text: &[u8],
    of_block: bool,
) -> Result<(), AllocError> {
    match join(alloc, text) {
        Ok(lines) => push_joined(alloc, out, &lines, of_block),
        Err(error) => write!(out, "{error}"),
    }
}

fn push_joined(
    alloc: Global,
    out: &mut String,
    lines: &Joined,
    of_block: bool,
) -> Result<(), AllocError> {
    match tokens(alloc, lines) {
        Ok(all) => push_tokens(alloc, out, all.as_slice(), of_block),
        Err(error) => write!(out, "{error}"),
    }
}

fn push_tokens(
    alloc: Global,
    out: &mut String,
    all: &[Token<'_>],
    of_block: bool,
) -> Result<(), AllocError> {
    match lexemes(alloc, all) {
        Ok(all) => {
            if of_block {
                push_block(alloc, out, all.as_slice())
            } else {
                push_whole(alloc, out, all.as_slice())
            }
        }
        Err(error) => write!(out, "{error}"),
    }
}

fn push_whole(alloc: Global, out: &mut String, all: &[Lexeme<'_>]) -> Result<(), AllocError> {
    match expression_of(alloc, all) {
        Ok(tree) => push_expression(out, &tree),
        Err(error) => push_error(out, &error),
    }
}

fn push_block(alloc: Global, out: &mut String, all: &[Lexeme<'_>]) -> Result<(), AllocError> {
    match block_of(alloc, all) {
        Ok(body) => push_statements(out, body.as_slice()),
        Err(error) => push_error(out, &error),
    }
}

fn push_error(out: &mut String, error: &ParseError) -> Result<(), AllocError> {
    match error {
        ParseError::At { fault, .. } => write!(out, "{error} {fault:?}"),
        ParseError::Memory => write!(out, "{error}"),
    }
}
