//! What stands at the front of joined lines.

ghost use Rattle.std.specs.Prelude.{◌≡◌, ◌≤◌, ◌<◌, ◌-◌, drop, length, IfSome, false, codes};
ghost use Rattle.std.specs.List.{prefix_len, position_or_len, find};
ghost use Rattle.texts.specs.Tokens.{is_exponent, is_sum_sign, is_line_feed, begins_with, comment_end};
ghost use Rattle.lines.specs.Bytes.{is_letter, is_word_byte};
ghost use Rattle.opencl_tokens.specs.Signs.{signs};
ghost use Rattle.opencl_tokens.specs.Pieces.{is_blank, begins_number, goes_on, number_len, begins_wide, name_piece, word_piece, number_piece, ends_trigraph, is_trigraph, ends_quoted, closes, escapes, quoted_end, is_quote, quoted_kind, quoted_piece, comment_piece, sign_piece, mark_piece, spelt_piece, piece};
ghost use Rattle.opencl_tokens.specs.Seen.{piece_seen, token_kind};

use crate::numbers::is_decimal_digit;
use crate::spelling::signs;
use crate::{TextFault, TokenKind};

/// A piece with the number of its bytes; a fault is at its first byte.
#[derive(Clone, Copy)]
pub enum Piece<'a> {
    Blank(usize),
    Line,
    Has(TokenKind<'a>, usize),
    Bad(TextFault),
}

/// The piece at the front of bytes, of which `first` is the first.
pub fn piece_at(first: u8, bytes: &[u8]) -> Piece<'_>
    ensures { piece_seen result ≡ piece first bytes.now }
{
    if first == b'\n' {
        Piece::Line
    } else if is_blank(first) {
        Piece::Blank(1)
    } else {
        spelt_at(first, bytes)
    }
}

/// A word, a number, a character constant, a string, or what is none of these.
fn spelt_at(first: u8, bytes: &[u8]) -> Piece<'_>
    ensures { piece_seen result ≡ spelt_piece first bytes.now }
{
    if is_letter(first) {
        word_at(bytes)
    } else if begins_number(bytes) {
        number_at(bytes)
    } else if is_quote(first) {
        quoted_at(first, bytes)
    } else {
        mark_at(first, bytes)
    }
}

/// A comment, a trigraph or a sign.
fn mark_at(first: u8, bytes: &[u8]) -> Piece<'_>
    ensures { piece_seen result ≡ mark_piece first bytes.now }
{
    if bytes.starts_with(b"//") {
        Piece::Blank(line_len(bytes))
    } else if bytes.starts_with(b"/*") {
        comment_at(bytes)
    } else if is_trigraph(bytes) {
        Piece::Bad(TextFault::BadByte)
    } else {
        sign_at(first, bytes)
    }
}

fn is_blank(b: u8) -> bool
    ensures { result ≡ is_blank b }
{
    b == b' ' || b == b'\t' || (b == 11 || b == 12)
}

fn is_letter(b: u8) -> bool
    ensures { result ≡ is_letter b }
{
    97 <= b && b <= 122 || (65 <= b && b <= 90 || b == b'_')
}

fn is_word_byte(b: u8) -> bool
    ensures { result ≡ is_word_byte b }
{
    is_letter(b) || is_decimal_digit(b)
}

/// The number of bytes of a word.
fn word_len(bytes: &[u8]) -> usize
    ensures word { result ≡ prefix_len is_word_byte bytes.now }
    ensures within { result ≤ length bytes.now }
{
    for (i, b) in bytes.iter().enumerate() {
        if !is_word_byte(*b) {
            return i;
        }
    }
    bytes.len()
}

/// An `L` directly before a quote (C99 6.4.4.4, 6.4.5).
fn begins_wide(bytes: &[u8]) -> bool
    ensures { result ≡ begins_wide bytes.now }
{
    match bytes {
        [] | [_] => false,
        [a, b, ..] => *a == b'L' && is_quote(*b),
    }
}

/// The word at the front, unless it begins a constant of wide characters.
fn word_at(bytes: &[u8]) -> Piece<'_>
    ensures { piece_seen result ≡ word_piece bytes.now }
{
    if begins_wide(bytes) {
        Piece::Bad(TextFault::BadByte)
    } else {
        name_at(bytes)
    }
}

/// The word at the front.
fn name_at(bytes: &[u8]) -> Piece<'_>
    ensures { piece_seen result ≡ name_piece bytes.now (prefix_len is_word_byte bytes.now) }
{
    let count = word_len(bytes);
    match str::from_utf8(&bytes[..count]) {
        Ok(name) => Piece::Has(TokenKind::Name(name), count),
        Err(_) => unreachable!(),
    }
}

fn begins_number(bytes: &[u8]) -> bool
    ensures { result ≡ begins_number bytes.now }
{
    match bytes {
        [] => false,
        [a] => is_decimal_digit(*a),
        [a, b, ..] => is_decimal_digit(*a) || *a == b'.' && is_decimal_digit(*b),
    }
}

/// A letter with which an exponent begins (C99 6.4.8).
fn is_exponent(b: u8) -> bool
    ensures { result ≡ is_exponent b }
{
    b == b'e' || b == b'E' || (b == b'p' || b == b'P')
}

pub fn is_sum_sign(b: u8) -> bool
    ensures { result ≡ is_sum_sign b }
{
    b == b'+' || b == b'-'
}

/// A number goes on with this byte behind that one.
fn goes_on(before: u8, b: u8) -> bool
    ensures { result ≡ goes_on before b }
{
    is_word_byte(b) || b == b'.' || is_exponent(before) && is_sum_sign(b)
}

/// The number of bytes of a number.
fn number_len(bytes: &[u8]) -> usize
    ensures number { result ≡ number_len 0 bytes.now }
    ensures within { result ≤ length bytes.now }
{
    let mut before = 0;
    for (i, b) in bytes.iter().enumerate() {
        if !goes_on(before, *b) {
            return i;
        }
        before = *b;
    }
    bytes.len()
}

/// The number at the front.
fn number_at(bytes: &[u8]) -> Piece<'_>
    ensures { piece_seen result ≡ number_piece bytes.now (number_len 0 bytes.now) }
{
    let count = number_len(bytes);
    Piece::Has(TokenKind::Number(&bytes[..count]), count)
}

fn ends_trigraph(b: u8) -> bool
    ensures { result ≡ ends_trigraph b }
{
    b == b'='
        || b == b'('
        || (b == b'/' || b == b')')
        || (b == b'\'' || b == b'<' || (b == b'!' || (b == b'>' || b == b'-')))
}

/// A trigraph stands at the front (C99 5.2.1.1).
fn is_trigraph(bytes: &[u8]) -> bool
    ensures { result ≡ is_trigraph bytes.now }
{
    match bytes {
        [] | [_] | [_, _] => false,
        [a, b, c, ..] => *a == b'?' && *b == b'?' && ends_trigraph(*c),
    }
}

fn is_quote(b: u8) -> bool
    ensures { result ≡ is_quote b }
{
    b == b'\'' || b == b'"'
}

/// A byte that neither a character constant nor a string goes over.
fn ends_quoted(bytes: &[u8], b: u8) -> bool
    ensures { result ≡ ends_quoted b bytes.now }
{
    b == b'\n' || is_trigraph(bytes)
}

fn closes(quote: u8, escaped: bool, b: u8) -> bool
    ensures { result ≡ closes quote escaped b }
{
    !escaped && b == quote
}

fn escapes(escaped: bool, b: u8) -> bool
    ensures { result ≡ escapes escaped b }
{
    !escaped && b == b'\\'
}

/// The number of bytes of the character constant or string at the front, where it is closed.
fn quoted_len(quote: u8, bytes: &[u8]) -> Option<usize>
    ensures quoted { result ≡ quoted_end quote false 1 (drop 1 bytes.now) }
    ensures within { IfSome result (λ count. count ≤ length bytes.now) }
{
    let mut escaped = false;
    for i in 1..bytes.len() {
        let b = bytes[i];
        if ends_quoted(&bytes[i..], b) {
            return None;
        }
        if closes(quote, escaped, b) {
            return Some(i + 1);
        }
        escaped = escapes(escaped, b);
    }
    None
}

/// The character constant or the string at the front.
fn quoted_at(quote: u8, bytes: &[u8]) -> Piece<'_>
    ensures { piece_seen result ≡ quoted_piece quote bytes.now (quoted_end quote false 1 (drop 1 bytes.now)) }
{
    match quoted_len(quote, bytes) {
        Some(count) => Piece::Has(quoted_kind(quote, &bytes[..count]), count),
        None => Piece::Bad(TextFault::BadByte),
    }
}

fn quoted_kind(quote: u8, spelling: &[u8]) -> TokenKind<'_>
    ensures { token_kind result ≡ quoted_kind quote spelling.now }
{
    if quote == b'\'' {
        TokenKind::Character(spelling)
    } else {
        TokenKind::Text(spelling)
    }
}

/// The number of bytes before the line feed.
fn line_len(bytes: &[u8]) -> usize
    ensures { result ≡ position_or_len is_line_feed bytes.now }
{
    for (i, b) in bytes.iter().enumerate() {
        if *b == b'\n' {
            return i;
        }
    }
    bytes.len()
}

fn ends_comment(bytes: &[u8]) -> bool
    ensures { result ≡ begins_with bytes.now (codes "*/") }
{
    bytes.starts_with(b"*/")
}

/// The comment at the front, up to the first `*/`.
fn comment_at(bytes: &[u8]) -> Piece<'_>
    requires { 2 ≤ length bytes.now }
    ensures { piece_seen result ≡ comment_piece (comment_end 2 (drop 2 bytes.now)) }
{
    for i in 2..bytes.len() {
        if ends_comment(&bytes[i..]) {
            return Piece::Blank(i + 2);
        }
    }
    Piece::Bad(TextFault::OpenComment)
}

/// The sign at the front, the longest of all.
fn sign_at(first: u8, bytes: &[u8]) -> Piece<'_>
    ensures { piece_seen result ≡ sign_piece first (find (λ entry. begins_with bytes.now entry.0) signs) }
{
    for (text, sign) in signs() {
        if bytes.starts_with(text) {
            return Piece::Has(TokenKind::Mark(*sign), text.len());
        }
    }
    Piece::Has(TokenKind::Other(first), 1)
}
