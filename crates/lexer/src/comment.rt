//! Comments, and where a compiler would read one otherwise.

ghost use Rattle.std.specs.Prelude.{◌≡◌, ◌≤◌, drop, length};
ghost use Rattle.std.specs.List.{position_or_len};
ghost use Rattle.texts.specs.Tokens.{is_line_feed, is_padding, is_line_over, joins_lines, is_lone_return, comment_end, comment_piece, gap_without, leaves_line};
ghost use Rattle.lexer.specs.Seen.{piece_seen, leaves};

use crate::{Piece, TextFault};

/// The way in which a comment ends.
#[derive(Clone, Copy)]
pub enum Comment {
    /// The comment ends before a line feed.
    Line,
    /// The comment ends with `*/`.
    Block,
}

/// A byte that a compiler passes over between a `\` and its line's end.
fn is_padding(b: u8) -> bool
    ensures { result ≡ is_padding b }
{
    b == b' ' || b == b'\t' || (b == 11 || (b == 12 || b == 0))
}

/// Nothing else stands up to the end of the line or of the text.
fn is_line_over(bytes: &[u8]) -> bool
    ensures { result ≡ is_line_over bytes.now }
{
    for b in bytes {
        if *b == b'\n' || *b == b'\r' {
            return true;
        }
        if !is_padding(*b) {
            return false;
        }
    }
    true
}

/// A compiler joins the next line to this one (C99 5.1.1.2).
fn joins_lines(bytes: &[u8]) -> bool
    ensures { result ≡ joins_lines bytes.now }
{
    bytes.starts_with(b"\\") && is_line_over(&bytes[1..])
        || bytes.starts_with(b"??/") && is_line_over(&bytes[3..])
}

/// A carriage return that no line feed follows.
fn is_lone_return(bytes: &[u8]) -> bool
    ensures { result ≡ is_lone_return bytes.now }
{
    bytes.starts_with(b"\r") && !bytes.starts_with(b"\r\n")
}

/// A compiler reads the comment otherwise from here on.
fn leaves(comment: Comment, bytes: &[u8]) -> bool
    ensures { result ≡ leaves comment bytes.now }
{
    match comment {
        Comment::Line => joins_lines(bytes) || is_lone_return(bytes),
        Comment::Block => joins_lines(bytes),
    }
}

/// A comment of so many bytes, or the first place where a compiler reads it otherwise.
fn gap_of(comment: Comment, count: usize, bytes: &[u8]) -> Piece<'_>
    requires { count ≤ length bytes.now }
    ensures { piece_seen result ≡ gap_without (leaves comment) count bytes.now }
{
    for i in 0..count {
        if leaves(comment, &bytes[i..]) {
            return Piece::Bad(TextFault::BadByte, i);
        }
    }
    Piece::Gap(count)
}

/// The number of bytes before the line feed.
fn line_len(bytes: &[u8]) -> usize
    ensures line { result ≡ position_or_len is_line_feed bytes.now }
    ensures within { result ≤ length bytes.now }
{
    for (i, b) in bytes.iter().enumerate() {
        if *b == b'\n' {
            return i;
        }
    }
    bytes.len()
}

/// The line comment that begins with these bytes.
pub fn line_at(bytes: &[u8]) -> Piece<'_>
    ensures { piece_seen result ≡ gap_without leaves_line (position_or_len is_line_feed bytes.now) bytes.now }
{
    gap_of(Comment::Line, line_len(bytes), bytes)
}

/// The comment that begins with these bytes, up to the first `*/`.
pub fn comment_at(bytes: &[u8]) -> Piece<'_>
    requires { 2 ≤ length bytes.now }
    ensures { piece_seen result ≡ comment_piece bytes.now (comment_end 2 (drop 2 bytes.now)) }
{
    for i in 2..bytes.len() {
        if bytes[i..].starts_with(b"*/") {
            return gap_of(Comment::Block, i + 2, bytes);
        }
    }
    Piece::Bad(TextFault::OpenComment, 0)
}
