//! Constants of a file, put into the functions that name them.

ghost use Rattle.std.specs.Prelude.{◌≡◌, ◌≤◌, ◌+◌, ◌++◌, length, take, drop, nat_le, IfOk, None};
ghost use Rattle.std.specs.Option.{option_map};
ghost use Rattle.opencl_tokens.specs.Seen.{lexeme_kind, site as token_site};
ghost use Rattle.opencl_parser.specs.View.{lexemes, text_seen};
ghost use Rattle.opencl_files.specs.FileConstants as rules;
ghost use Rattle.opencl_files.specs.View.{chunk as chunk_seen, chunks as chunks_seen, place_seen};

use crate::chunks::Chunk;
use opencl_parser::declarations::is_left_brace;
use opencl_tokens::{Lexeme, LexemeKind, Sign, Site, Word};
use std::alloc::{AllocError, Global};

/// At most so many lexemes of constants are put into a function.
const MOST_PUT: usize = 2_048;

fn ends_name(kind: LexemeKind) -> bool
    ensures { result ≡ rules.ends_name (lexeme_kind kind.entry) }
{
    matches!(
        kind,
        LexemeKind::Mark(
            Sign::Equal | Sign::LeftBracket | Sign::LeftBrace | Sign::Comma | Sign::Semicolon
        )
    )
}

fn with_name<'a>(kind: LexemeKind<'a>, so: Option<&'a str>) -> Option<&'a str>
    ensures { option_map text_seen result ≡ rules.with_name (lexeme_kind kind.entry) (option_map text_seen so.entry) }
{
    match kind {
        LexemeKind::Name(name) => Some(name),
        _ => so,
    }
}

// The name of the first that a declaration declares.
fn declared_name<'a>(tokens: &[Lexeme<'a>]) -> Option<&'a str>
    ensures { option_map text_seen result ≡ rules.declared_name None (lexemes tokens.now) }
{
    let mut so = None;
    for token in tokens {
        if ends_name(token.kind) {
            return so;
        }
        so = with_name(token.kind, so);
    }
    so
}

fn is_name(name: &str, kind: LexemeKind) -> bool
    ensures { result ≡ rules.is_name name.now (lexeme_kind kind.entry) }
{
    match kind {
        LexemeKind::Name(found) => found == name,
        _ => false,
    }
}

fn names(name: &str, tokens: &[Lexeme]) -> bool
    ensures { result ≡ rules.names name.now (lexemes tokens.now) }
{
    for token in tokens {
        if is_name(name, token.kind) {
            return true;
        }
    }
    false
}

fn is_named(name: Option<&str>, tokens: &[Lexeme]) -> bool
    ensures { result ≡ rules.is_named (option_map text_seen name.entry) (lexemes tokens.now) }
{
    match name {
        None => false,
        Some(name) => names(name, tokens),
    }
}

fn is_apart(head: &[Lexeme], kind: LexemeKind) -> bool
    ensures { result ≡ rules.is_apart (lexemes head.now) (lexeme_kind kind.entry) }
{
    match kind {
        LexemeKind::Name(name) => !names(name, head),
        _ => true,
    }
}

fn are_apart(head: &[Lexeme], tokens: &[Lexeme]) -> bool
    ensures { result ≡ rules.are_apart (lexemes head.now) (lexemes tokens.now) }
{
    for token in tokens {
        if !is_apart(head, token.kind) {
            return false;
        }
    }
    true
}

/// What constants are put into: a function's head, and how many lexemes its body may have.
#[derive(Clone, Copy)]
pub struct Place<'a> {
    pub head: &'a [Lexeme<'a>],
    pub most: usize,
}

fn is_put(place: Place<'_>, chunk: Chunk<'_>, body: &[Lexeme]) -> bool
    ensures { result ≡ rules.is_put (place_seen place.entry) (chunk_seen chunk.entry) (lexemes body.now) }
{
    is_named(declared_name(chunk.lexemes), body)
        && fits(chunk.lexemes.len(), body.len(), place.most)
        && are_apart(place.head, chunk.lexemes)
}

fn fits(count: usize, further: usize, most: usize) -> bool
    ensures { result ≡ nat_le (count + further) most }
{
    count <= most && further <= most - count
}

fn push_semicolon<'a>(braced: bool, at: Site, out: &mut Vec<Lexeme<'a>>) -> Result<(), AllocError>
    ensures { IfOk result (λ _. lexemes out.new.items ≡ lexemes out.old.items ++ rules.closing braced (token_site at)) }
{
    if braced {
        out.push(Lexeme {
            kind: LexemeKind::Mark(Sign::Semicolon),
            site: at,
        })?;
    }
    Ok(())
}

// A declaration as one of a variable that is constant, with its `;`.
fn push_ended<'a>(chunk: Chunk<'a>, out: &mut Vec<Lexeme<'a>>) -> Result<(), AllocError>
    ensures { IfOk result (λ _. lexemes out.new.items ≡ lexemes out.old.items ++ rules.ended (chunk_seen chunk.entry)) }
{
    let [first, rest @ ..] = chunk.lexemes else {
        return Ok(());
    };
    out.push(Lexeme {
        kind: LexemeKind::Word(Word::Const),
        site: first.site,
    })?;
    out.extend_from_slice(rest)?;
    push_semicolon(chunk.is_braced, first.site, out)
}

fn put_one<'a>(
    alloc: Global,
    place: Place<'_>,
    chunk: Chunk<'a>,
    body: Vec<Lexeme<'a>>,
) -> Result<Vec<Lexeme<'a>>, AllocError>
    ensures { IfOk result (λ ts. lexemes ts.items ≡ rules.put_one (place_seen place.entry) (chunk_seen chunk.entry) (lexemes body.entry.items)) }
{
    if !is_put(place, chunk, &body) {
        return Ok(body);
    }
    let mut out = Vec::new(alloc);
    push_ended(chunk, &mut out)?;
    out.extend_from_slice(&body)?;
    Ok(out)
}

// The constants that a body names, in front of it.
fn put<'a>(
    alloc: Global,
    place: Place<'_>,
    chunks: &[Chunk<'a>],
    body: &[Lexeme<'a>],
) -> Result<Vec<Lexeme<'a>>, AllocError>
    ensures { IfOk result (λ ts. lexemes ts.items ≡ rules.put (place_seen place.entry) (chunks_seen chunks.now) (lexemes body.now)) }
{
    match chunks {
        [] => Vec::from_slice(alloc, body),
        [first, others @ ..] => {
            let rest = put(alloc, place, others, body)?;
            put_one(alloc, place, *first, rest)
        }
    }
}

fn body_at(tokens: &[Lexeme]) -> usize
    ensures exact { result ≡ rules.body_at (lexemes tokens.now) }
    ensures within { result ≤ length tokens.now }
{
    let mut at = 0usize;
    for token in tokens {
        at += 1;
        if is_left_brace(token.kind) {
            return at;
        }
    }
    at
}

#[tactic(auto, using(crate::proofs::Splits::halves))]
fn head_of<'a>(tokens: &'a [Lexeme<'a>], at: usize) -> &'a [Lexeme<'a>]
    requires { at ≤ length tokens.now }
    ensures { lexemes result.now ≡ take at (lexemes tokens.now) }
{
    &tokens[..at]
}

#[tactic(auto, using(crate::proofs::Splits::halves))]
fn behind_head<'a>(tokens: &'a [Lexeme<'a>], at: usize) -> &'a [Lexeme<'a>]
    requires { at ≤ length tokens.now }
    ensures { lexemes result.now ≡ drop at (lexemes tokens.now) }
{
    let (_, rest) = tokens.split_at(at);
    rest
}

// How many lexemes a body may have.
#[tactic(auto, using(crate::proofs::Splits::halves))]
fn most_in(body: &[Lexeme]) -> Result<usize, AllocError>
    ensures { IfOk result (λ n. n ≡ length (lexemes body.now) + rules.most_put) }
{
    match body.len().checked_add(MOST_PUT) {
        Some(most) => Ok(most),
        None => Err(AllocError),
    }
}

/// A function with the constants that it names at the begin of its body.
pub fn with_constants<'a>(
    alloc: Global,
    constants: &[Chunk<'a>],
    tokens: &'a [Lexeme<'a>],
) -> Result<Vec<Lexeme<'a>>, AllocError>
    ensures { IfOk result (λ ts. lexemes ts.items ≡ rules.with_constants (chunks_seen constants.now) (lexemes tokens.now)) }
{
    let at = body_at(tokens);
    let head = head_of(tokens, at);
    let body = behind_head(tokens, at);
    let most = most_in(body)?;
    let put_in = put(alloc, Place { head, most }, constants, body)?;
    let mut out = Vec::from_slice(alloc, head)?;
    out.extend_from_slice(&put_in)?;
    Ok(out)
}
