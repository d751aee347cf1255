//! Two tokens that become one.

ghost use Rattle.std.specs.Prelude.{◌≡◌, ◌++◌, true, IfOk};
ghost use Rattle.std.specs.Option.{option_map};
ghost use Rattle.std.specs.String.{string_bytes};
ghost use Rattle.lines.specs.Bytes.{is_letter, is_word_byte};
ghost use Rattle.lines.specs.Identifiers.{all_word_bytes};
ghost use Rattle.opencl_tokens.specs.Seen.{site as site_of, token as token_of, token_kind};
ghost use Rattle.opencl_macros.specs.Pasting as meaning;
ghost use Rattle.opencl_macros.specs.Seen.{fed as fed_seen, IfRead};

use crate::feed::Fed;
use crate::{MacroError, Token, TokenKind};
use bumpalo::Bump;
use opencl_tokens::Site;
use std::alloc::{AllocError, Global};

/// The most bytes of a token that was two.
const LONGEST: usize = 255;

fn are_short(front: &[u8], back: &[u8]) -> bool
    ensures { result ≡ meaning.are_short front.now back.now }
{
    front.len() + back.len() <= LONGEST
}

fn joined_text(alloc: Global, front: &str, back: &str) -> Result<String, AllocError>
    ensures { IfOk result (λ s. string_bytes s ≡ front.now ++ back.now) }
{
    let mut text = String::from_str(alloc, front)?;
    text.push_str(back)?;
    Ok(text)
}

fn joined_bytes(alloc: Global, front: &[u8], back: &[u8]) -> Result<Vec<u8>, AllocError>
    ensures { IfOk result (λ v. v.items ≡ front.now ++ back.now) }
{
    let mut bytes = Vec::from_slice(alloc, front)?;
    bytes.extend_from_slice(back)?;
    Ok(bytes)
}

fn longer_name<'a>(
    alloc: Global,
    pool: &'a Bump,
    front: &str,
    back: &str,
) -> Result<Option<TokenKind<'a>>, MacroError>
    ensures { IfRead result (λ found. option_map token_kind found ≡ meaning.longer_name front.now back.now) }
{
    if are_short(front.as_bytes(), back.as_bytes()) {
        let text = joined_text(alloc, front, back)?;
        let name = pool.try_alloc_str(&text)?;
        Ok(Some(TokenKind::Name(name)))
    } else {
        Ok(None)
    }
}

fn longer_number<'a>(
    alloc: Global,
    pool: &'a Bump,
    front: &[u8],
    back: &[u8],
) -> Result<Option<TokenKind<'a>>, MacroError>
    ensures { IfRead result (λ found. option_map token_kind found ≡ meaning.longer_number front.now back.now) }
{
    if are_short(front, back) {
        let bytes = joined_bytes(alloc, front, back)?;
        let spelling = pool.try_alloc_slice_copy(&bytes)?;
        Ok(Some(TokenKind::Number(spelling)))
    } else {
        Ok(None)
    }
}

fn is_letter(b: u8) -> bool
    ensures { result ≡ is_letter b }
{
    97 <= b && b <= 122 || (65 <= b && b <= 90 || b == b'_')
}

fn is_word_byte(b: u8) -> bool
    ensures { result ≡ is_word_byte b }
{
    is_letter(b) || 48 <= b && b <= 57
}

/// Bytes that a name goes on with.
fn are_word_bytes(bytes: &[u8]) -> bool
    ensures { result ≡ all_word_bytes bytes.now }
{
    for b in bytes {
        if !is_word_byte(*b) {
            return false;
        }
    }
    true
}

fn word_of(bytes: &[u8]) -> &str
    requires { all_word_bytes bytes.now ≡ true }
    ensures { result.now ≡ bytes.now }
{
    match str::from_utf8(bytes) {
        Ok(word) => word,
        Err(_) => unreachable!(),
    }
}

/// A name goes on with names, and with numbers of letters and digits alone.
fn behind_name<'a>(
    alloc: Global,
    pool: &'a Bump,
    name: &str,
    back: TokenKind<'_>,
) -> Result<Option<TokenKind<'a>>, MacroError>
    ensures { IfRead result (λ found. option_map token_kind found ≡ meaning.behind_name name.now (token_kind back.entry)) }
{
    match back {
        TokenKind::Name(back) => longer_name(alloc, pool, name, back),
        TokenKind::Number(back) => {
            if are_word_bytes(back) {
                longer_name(alloc, pool, name, word_of(back))
            } else {
                Ok(None)
            }
        }
        _ => Ok(None),
    }
}

/// A number goes on with names and numbers.
fn behind_number<'a>(
    alloc: Global,
    pool: &'a Bump,
    number: &[u8],
    back: TokenKind<'_>,
) -> Result<Option<TokenKind<'a>>, MacroError>
    ensures { IfRead result (λ found. option_map token_kind found ≡ meaning.behind_number number.now (token_kind back.entry)) }
{
    match back {
        TokenKind::Name(back) => longer_number(alloc, pool, number, back.as_bytes()),
        TokenKind::Number(back) => longer_number(alloc, pool, number, back),
        _ => Ok(None),
    }
}

/// The token that the bytes of two are.
fn joined_kind<'a>(
    alloc: Global,
    pool: &'a Bump,
    front: TokenKind<'_>,
    back: TokenKind<'_>,
) -> Result<Option<TokenKind<'a>>, MacroError>
    ensures { IfRead result (λ found. option_map token_kind found ≡ meaning.joined_kind (token_kind front.entry) (token_kind back.entry)) }
{
    match front {
        TokenKind::Name(name) => behind_name(alloc, pool, name, back),
        TokenKind::Number(number) => behind_number(alloc, pool, number, back),
        _ => Ok(None),
    }
}

fn joined_word<'a>(
    alloc: Global,
    pool: &'a Bump,
    site: Site,
    front: Token<'_>,
    back: Token<'_>,
) -> Result<Option<Fed<'a>>, MacroError>
    ensures { IfRead result (λ found. option_map fed_seen found ≡ meaning.joined_word (site_of site) (token_of front.entry) (meaning.joined_kind (token_kind front.entry.kind) (token_kind back.entry.kind))) }
{
    match joined_kind(alloc, pool, front.kind, back.kind)? {
        None => Ok(None),
        Some(kind) => {
            let token = Token {
                kind,
                site,
                begins_line: false,
                is_spaced: front.is_spaced,
            };
            Ok(Some(Fed::Word(token, false)))
        }
    }
}

/// Two tokens are one, at the place of the use.
pub fn joined<'a>(
    alloc: Global,
    pool: &'a Bump,
    site: Site,
    front: Fed<'_>,
    back: Fed<'_>,
) -> Result<Option<Fed<'a>>, MacroError>
    ensures { IfRead result (λ found. option_map fed_seen found ≡ meaning.joined (site_of site) (fed_seen front.entry) (fed_seen back.entry)) }
{
    match front {
        Fed::Behind => Ok(None),
        Fed::Word(first, _) => match back {
            Fed::Behind => Ok(None),
            Fed::Word(second, _) => joined_word(alloc, pool, site, first, second),
        },
    }
}
