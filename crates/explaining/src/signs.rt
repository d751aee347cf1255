//! Where the signs of tests stand in the text of a kernel's statements. Nothing relies on it but the places that are told.

use crate::hints::order_of;
use crate::source::behind;
use core_code::tree::Site;
use std::alloc::{AllocError, Global};

/// A mark in a text: a bracket, the end of a statement, a sign or a name that makes a test, the word `for`, or another
/// word.
#[derive(Clone, Copy)]
enum Mark {
    Open,
    Close,
    End,
    Sign,
    For,
    Word,
}

#[derive(Clone, Copy)]
struct Token {
    mark: Mark,
    site: Site,
}

/// The tokens of a kernel's text that are looked at, in its order.
#[derive(Drop)]
pub struct Signs {
    tokens: Vec<Token>,
}

fn is_of_name(byte: u8) -> bool {
    byte.is_ascii_alphanumeric() || byte == b'_'
}

/// The number of bytes of the name or the number in front.
fn name_length(rest: &[u8]) -> usize {
    let mut count: usize = 0;
    for byte in rest {
        if !is_of_name(*byte) {
            return count;
        }
        count = count.saturating_add(1);
    }
    count
}

/// The number of bytes in front of the line's end.
fn line_length(rest: &[u8]) -> usize {
    let mut count: usize = 0;
    for byte in rest {
        if *byte == b'\n' {
            return count;
        }
        count = count.saturating_add(1);
    }
    count
}

/// The number of bytes of a comment that begins with a stroke and a star.
fn comment_length(rest: &[u8]) -> usize {
    let mut count: usize = 0;
    let mut before = b' ';
    for byte in rest {
        count = count.saturating_add(1);
        if count > 3 && before == b'*' && *byte == b'/' {
            return count;
        }
        before = *byte;
    }
    count
}

/// The mark of a word; none of the name of a kind, or of a number.
fn mark_of(word: &[u8]) -> Option<Mark> {
    match word {
        b"for" => Some(Mark::For),
        b"min" | b"max" => Some(Mark::Sign),
        b"int" | b"uint" | b"size_t" => None,
        [first, ..] if first.is_ascii_digit() => None,
        _ => Some(Mark::Word),
    }
}

/// The number of bytes that are passed over in front of a text, and their mark.
fn token_at(rest: &[u8]) -> (usize, Option<Mark>) {
    let first = rest.first().copied().unwrap_or(b' ');
    let second = rest.get(1).copied().unwrap_or(b' ');
    match (first, second) {
        (b'/', b'/') => (line_length(rest), None),
        (b'/', b'*') => (comment_length(rest), None),
        (b'<', b'<') | (b'>', b'>') => (2, None),
        (b'<' | b'>' | b'=' | b'!', b'=') | (b'&', b'&') | (b'|', b'|') => (2, Some(Mark::Sign)),
        (b'<' | b'>' | b'!' | b'?', _) => (1, Some(Mark::Sign)),
        (b'(', _) => (1, Some(Mark::Open)),
        (b')', _) => (1, Some(Mark::Close)),
        (b';', _) => (1, Some(Mark::End)),
        _ if is_of_name(first) => {
            let length = name_length(rest);
            (length, mark_of(rest.get(..length).unwrap_or(&[])))
        }
        _ => (1, None),
    }
}

/// The tokens of a kernel's text.
pub fn signs_of(alloc: Global, kernel: &[u8]) -> Result<Signs, AllocError> {
    let mut tokens = Vec::new(alloc);
    let mut site = Site { line: 1, column: 1 };
    let mut passed: usize = 0;
    for at in 0..kernel.len() {
        if passed == 0 {
            let (length, mark) = token_at(&kernel[at..]);
            if let Some(mark) = mark {
                tokens.push(Token { mark, site })?;
            }
            passed = length;
        }
        passed = passed.saturating_sub(1);
        site = behind(site, kernel[at]);
    }
    Ok(Signs { tokens })
}

impl Signs {
    /// The number of the first token that does not stand in front of a place.
    fn first_at(&self, site: Site) -> usize {
        let mut count: usize = 0;
        for token in self.tokens.iter() {
            if order_of(token.site) >= order_of(site) {
                return count;
            }
            count = count.saturating_add(1);
        }
        count
    }

    /// The number of the token in front of which the test of a statement begins: behind its bracket, or, of a `for`, behind its first part.
    fn test_at(&self, site: Site) -> usize {
        let first = self.first_at(site);
        let is_for = match self.tokens.get(first) {
            Some(token) => matches!(token.mark, Mark::For),
            None => false,
        };
        let mut count = first;
        for token in self.tokens.iter().skip(first) {
            count = count.saturating_add(1);
            match token.mark {
                Mark::Open if !is_for => return count,
                Mark::End => return count,
                _ => {}
            }
        }
        count
    }

    /// The signs from a token on, as far as the bracket round them, or the end of a statement.
    fn from(&self, alloc: Global, first: usize) -> Result<Vec<Site>, AllocError> {
        let mut signs = Vec::new(alloc);
        let mut depth: usize = 0;
        for token in self.tokens.iter().skip(first) {
            match token.mark {
                Mark::Open => depth = depth.saturating_add(1),
                Mark::Close if depth > 0 => depth = depth.saturating_sub(1),
                Mark::Close | Mark::End => return Ok(signs),
                Mark::Sign => signs.push(token.site)?,
                Mark::For | Mark::Word => {}
            }
        }
        Ok(signs)
    }

    /// The signs in the test of a statement that begins at a place.
    pub fn of_test(&self, alloc: Global, site: Site) -> Result<Vec<Site>, AllocError> {
        self.from(alloc, self.test_at(site))
    }

    /// The signs in a statement that begins at a place, and sets something.
    pub fn of_value(&self, alloc: Global, site: Site) -> Result<Vec<Site>, AllocError> {
        self.from(alloc, self.first_at(site))
    }

    /// The first name in the test of a statement that begins at a place.
    pub fn name_in_test(&self, site: Site) -> Option<Site> {
        for token in self.tokens.iter().skip(self.test_at(site)) {
            match token.mark {
                Mark::Word => return Some(token.site),
                Mark::End => return None,
                _ => {}
            }
        }
        None
    }
}
