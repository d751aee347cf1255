//! Section: Kernel text. Promises exactly the tokens of a text, or its first fault; stands on `texts`.
//!
//! Text to tokens. `lex` answers exactly the tokens that the grammar gives a text, each with its kind, its span and
//! the line and column of its first byte, or the grammar's first fault and where that begins. It copies none of the
//! text. No contract says that its work grows no faster than the text, though it does, or that there is memory enough:
//! where an allocation is refused the answer is `Memory`.
#![tactic(auto)]

ghost use Rattle.std.specs.Prelude.{◌≡◌, ℕ, ◌<◌, ◌≤◌, ◌+◌, ◌-◌, ◌^◌, length, fold};
ghost use Rattle.std.specs.List.{prefix_len, find};
ghost use Rattle.std.specs.Str.{bytes_eq};
ghost use Rattle.lines.specs.Bytes.{is_decimal_digit};
ghost use Rattle.texts.specs.Reserved.{reserved_words};
ghost use Rattle.texts.specs.Signs.{signs};
ghost use Rattle.texts.specs.Tokens.{is_blank, begins_with, word_kind, sign_piece, piece, past, tokens_of};
ghost use Rattle.lines.specs.Bytes.{is_letter, is_word_byte};
ghost use Rattle.lexer.specs.Seen.{kind, piece_seen, site, Gives};

mod comment;
mod number;
mod spelling;

use comment::{comment_at, line_at};
use number::{is_decimal_digit, literal_before};
pub use spelling::{Reserved, Sign};
use spelling::{reserved_words, signs};
use std::alloc::{AllocError, AllocFailed, Global};
use thiserror::Error;

/// The longest text that is read, in bytes.
pub const LIMIT: usize = 65_536;

/// A number with the kind that it is written in.
#[derive(Clone, Copy, Debug)]
pub enum Literal {
    Int(u32),
    Uint(u32),
}

/// The kind of a token; a name lends its text.
#[derive(Clone, Copy, Debug)]
pub enum TokenKind<'a> {
    Name(&'a str),
    Reserved(Reserved),
    Number(Literal),
    Sign(Sign),
    End,
}

/// A token: its text is `start..stop`, and its first byte stands at the line and column, each counted from 1.
#[derive(Clone, Copy)]
pub struct Token<'a> {
    pub kind: TokenKind<'a>,
    pub start: usize,
    pub stop: usize,
    pub line: u32,
    pub column: u32,
}

/// The faults for which a text has no tokens.
#[derive(Clone, Copy, Debug)]
pub enum TextFault {
    BadByte,
    OpenComment,
    NumberTooLarge,
    BadNumber,
    TextTooLong,
}

/// The first fault of a text and where it begins, or want of memory.
#[derive(Debug, Drop, Error)]
pub enum TextError {
    #[error("{} {line}:{column}", .fault.number())]
    At {
        fault: TextFault,
        line: u32,
        column: u32,
    },
    #[error("90")]
    Memory,
}

impl TextFault {
    ghost use Rattle.texts.specs.Faults.{fault_number};
    ghost use Rattle.lexer.specs.Seen.{fault};

    /// The number under which the fault is printed.
    pub fn number(self) -> u8
        ensures { result ≡ fault_number (fault self) }
    {
        match self {
            TextFault::BadByte => 1,
            TextFault::OpenComment => 2,
            TextFault::NumberTooLarge => 3,
            TextFault::BadNumber => 4,
            TextFault::TextTooLong => 5,
        }
    }
}

impl TextError {
    ghost use Rattle.lexer.specs.Seen.{error_number, error_place};

    /// The number under which the error is printed.
    pub fn number(&self) -> u8
        ensures { result ≡ error_number self.now }
    {
        match self {
            TextError::At { fault, .. } => fault.number(),
            TextError::Memory => 90,
        }
    }

    /// The line and the column of the fault.
    pub fn place(&self) -> Option<(u32, u32)>
        ensures { result ≡ error_place self.now }
    {
        match self {
            TextError::At { line, column, .. } => Some((*line, *column)),
            TextError::Memory => None,
        }
    }
}

impl From<AllocError> for TextError {
    ghost use Rattle.lexer.specs.declared.TextError.TheVariants.{Memory};

    ghost from_gives = { λ _ e. e ≡ Memory };

    fn from(_: AllocError) -> TextError {
        TextError::Memory
    }
}

impl<T: Drop> From<AllocFailed<T>> for TextError {
    ghost use Rattle.lexer.specs.declared.TextError.TheVariants.{Memory};

    ghost from_gives = { λ _ e. e ≡ Memory };

    fn from(_: AllocFailed<T>) -> TextError {
        TextError::Memory
    }
}

/// A piece at the front of a text, with the number of its bytes.
enum Piece<'a> {
    Gap(usize),
    Has(TokenKind<'a>, usize),
    /// A fault, which stands behind so many bytes of the piece.
    Bad(TextFault, usize),
}

#[derive(Clone, Copy)]
struct Site {
    line: u32,
    column: u32,
}

/// The tokens of a text, the last one `End`, or its first fault.
pub fn lex(alloc: Global, text: &[u8]) -> Result<Vec<Token<'_>>, TextError>
    ensures { Gives result (tokens_of text.now) }
{
    if text.len() > LIMIT {
        return Err(TextError::At {
            fault: TextFault::TextTooLong,
            line: 1,
            column: 1,
        });
    }
    let mut tokens = Vec::new(alloc);
    let mut next = Site { line: 1, column: 1 };
    // How many bytes of the piece that was read last are still to pass.
    let mut skip = 0;
    for (at, byte) in text.iter().enumerate() {
        let Site { line, column } = next;
        next = past_byte(next, *byte);
        if skip > 0 {
            skip -= 1;
            continue;
        }
        match piece_at(*byte, &text[at..]) {
            Piece::Gap(count) => skip = count.saturating_sub(1),
            Piece::Has(kind, count) => {
                let token = Token {
                    kind,
                    start: at,
                    stop: at + count,
                    line,
                    column,
                };
                tokens.push(token)?;
                skip = count.saturating_sub(1);
            }
            Piece::Bad(fault, count) => {
                let Site { line, column } = site_past(Site { line, column }, &text[at..at + count]);
                return Err(TextError::At {
                    fault,
                    line,
                    column,
                });
            }
        }
    }
    let end = Token {
        kind: TokenKind::End,
        start: text.len(),
        stop: text.len(),
        line: next.line,
        column: next.column,
    };
    tokens.push(end)?;
    Ok(tokens)
}

fn past_byte(before: Site, byte: u8) -> Site
    requires line { before.line < 2 ^ 32 - 1 }
    requires column { before.column < 2 ^ 32 - 1 }
    ensures site { site result ≡ past (site before) byte }
    ensures line { result.line ≤ before.line + 1 }
    ensures column { result.column ≤ before.column + 1 }
{
    if byte == b'\n' {
        Site {
            line: before.line + 1,
            column: 1,
        }
    } else {
        Site {
            line: before.line,
            column: before.column + 1,
        }
    }
}

/// The site of the byte that follows these bytes, of which the first is at `before`.
fn site_past(before: Site, bytes: &[u8]) -> Site
    requires line { before.line + length bytes.now < 2 ^ 32 }
    requires column { before.column + length bytes.now < 2 ^ 32 }
    ensures { site result ≡ fold past (site before) bytes.now }
{
    let mut site = before;
    for byte in bytes {
        site = past_byte(site, *byte);
    }
    site
}

/// The piece at the front of bytes, of which `first` is the first.
fn piece_at(first: u8, bytes: &[u8]) -> Piece<'_>
    ensures { piece_seen result ≡ piece first bytes.now }
{
    if is_blank(first) {
        Piece::Gap(1)
    } else if is_letter(first) {
        let count = word_len(bytes);
        Piece::Has(kind_of_word(&bytes[..count]), count)
    } else if is_decimal_digit(first) {
        let count = word_len(bytes);
        match literal_before(&bytes[..count], &bytes[count..]) {
            Ok(literal) => Piece::Has(TokenKind::Number(literal), count),
            Err(fault) => Piece::Bad(fault, 0),
        }
    } else if bytes.starts_with(b"//") {
        line_at(bytes)
    } else if bytes.starts_with(b"/*") {
        comment_at(bytes)
    } else {
        sign_at(bytes)
    }
}

fn is_blank(b: u8) -> bool
    ensures { result ≡ is_blank b }
{
    b == b' ' || b == b'\t' || (b == b'\n' || b == b'\r')
}

fn is_letter(b: u8) -> bool
    ensures { result ≡ is_letter b }
{
    97 <= b && b <= 122 || (65 <= b && b <= 90 || b == b'_')
}

/// The number of bytes of a word.
fn word_len(bytes: &[u8]) -> usize
    ensures word { result ≡ prefix_len is_word_byte bytes.now }
    ensures within { result ≤ length bytes.now }
{
    for (i, b) in bytes.iter().enumerate() {
        if !(is_letter(*b) || is_decimal_digit(*b)) {
            return i;
        }
    }
    bytes.len()
}

fn kind_of_word(word: &[u8]) -> TokenKind<'_>
    requires { prefix_len is_word_byte word.now ≡ length word.now }
    ensures { kind result ≡ word_kind word.now (find (λ entry. bytes_eq entry.0 word.now) reserved_words) }
{
    for (text, reserved) in reserved_words() {
        if *text == word {
            return TokenKind::Reserved(*reserved);
        }
    }
    match str::from_utf8(word) {
        Ok(name) => TokenKind::Name(name),
        Err(_) => unreachable!(),
    }
}

fn sign_at(bytes: &[u8]) -> Piece<'_>
    ensures { piece_seen result ≡ sign_piece (find (λ entry. begins_with bytes.now entry.0) signs) }
{
    for (text, sign) in signs() {
        if bytes.starts_with(text) {
            return Piece::Has(TokenKind::Sign(*sign), text.len());
        }
    }
    Piece::Bad(TextFault::BadByte, 0)
}
