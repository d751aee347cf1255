//! Writes the joined lines, the tokens and the lexemes of a text as texts for the tests, or the fault.

use opencl_tokens::{Joined, Lexeme, LexemeKind, Token, TokenKind, join, lexemes, tokens};
use std::alloc::{AllocError, Global};

/// The joined bytes of a text and the place of each, or the fault.
pub fn joined(alloc: Global, text: &[u8]) -> Result<String, AllocError> {
    let mut out = String::new(alloc);
    match join(alloc, text) {
        Ok(lines) => push_lines(&mut out, &lines)?,
        Err(error) => write!(out, "{error}")?,
    }
    Ok(out)
}

fn push_lines(out: &mut String, lines: &Joined) -> Result<(), AllocError> {
    push_bytes(out, lines.bytes.as_slice())?;
    for site in &lines.sites {
        write!(out, " {}:{}", site.line, site.column)?;
    }
    Ok(())
}

/// The tokens of a text, or the fault.
pub fn scanned(alloc: Global, text: &[u8]) -> Result<String, AllocError> {
    let mut out = String::new(alloc);
    match join(alloc, text) {
        Ok(lines) => push_scanned(alloc, &mut out, &lines)?,
        Err(error) => write!(out, "{error}")?,
    }
    Ok(out)
}

fn push_scanned(alloc: Global, out: &mut String, lines: &Joined) -> Result<(), AllocError> {
    match tokens(alloc, lines) {
        Ok(all) => push_tokens(out, all.as_slice()),
        Err(error) => write!(out, "{error}"),
    }
}

/// The lexemes of a text, or the fault.
pub fn read(alloc: Global, text: &[u8]) -> Result<String, AllocError> {
    let mut out = String::new(alloc);
    match join(alloc, text) {
        Ok(lines) => push_read(alloc, &mut out, &lines)?,
        Err(error) => write!(out, "{error}")?,
    }
    Ok(out)
}

fn push_read(alloc: Global, out: &mut String, lines: &Joined) -> Result<(), AllocError> {
    match tokens(alloc, lines) {
        Ok(all) => push_lexed(alloc, out, all.as_slice()),
        Err(error) => write!(out, "{error}"),
    }
}

fn push_lexed(alloc: Global, out: &mut String, all: &[Token<'_>]) -> Result<(), AllocError> {
    match lexemes(alloc, all) {
        Ok(read) => push_lexemes(out, read.as_slice()),
        Err(error) => write!(out, "{error}"),
    }
}

/// `^` at the first token of a line, `_` behind white space.
fn push_tokens(out: &mut String, all: &[Token<'_>]) -> Result<(), AllocError> {
    for token in all {
        if token.begins_line {
            out.push_str("^")?;
        }
        if token.is_spaced {
            out.push_str("_")?;
        }
        push_kind(out, token.kind)?;
        write!(out, "@{}:{} ", token.site.line, token.site.column)?;
    }
    Ok(())
}

fn push_kind(out: &mut String, kind: TokenKind<'_>) -> Result<(), AllocError> {
    match kind {
        TokenKind::Name(name) => out.push_str(name),
        TokenKind::Number(spelling) => push_spelt(out, "number ", spelling),
        TokenKind::Character(spelling) => push_spelt(out, "character ", spelling),
        TokenKind::Text(spelling) => push_spelt(out, "text ", spelling),
        TokenKind::Mark(sign) => write!(out, "{sign:?}"),
        TokenKind::Other(byte) => write!(out, "other {byte}"),
        TokenKind::End => out.push_str("end"),
    }
}

fn push_lexemes(out: &mut String, all: &[Lexeme<'_>]) -> Result<(), AllocError> {
    for lexeme in all {
        push_form(out, lexeme.kind)?;
        out.push_str(" ")?;
    }
    Ok(())
}

fn push_form(out: &mut String, kind: LexemeKind<'_>) -> Result<(), AllocError> {
    match kind {
        LexemeKind::Word(word) => write!(out, "{word:?}"),
        LexemeKind::Type(scalar, width) => write!(out, "type {scalar:?} {width}"),
        LexemeKind::Name(name) => out.push_str(name),
        LexemeKind::Integer(literal) => write!(out, "{literal:?}"),
        LexemeKind::Real(spelling) => push_spelt(out, "real ", spelling),
        LexemeKind::Text(spelling) => push_spelt(out, "text ", spelling),
        LexemeKind::Mark(sign) => write!(out, "{sign:?}"),
        LexemeKind::End => out.push_str("end"),
    }
}

fn push_spelt(out: &mut String, what: &str, spelling: &[u8]) -> Result<(), AllocError> {
    out.push_str(what)?;
    push_bytes(out, spelling)
}

/// Bytes as they are, where they are a text.
fn push_bytes(out: &mut String, bytes: &[u8]) -> Result<(), AllocError> {
    match str::from_utf8(bytes) {
        Ok(text) => out.push_str(text),
        Err(_) => out.push_str("no text"),
    }
}
