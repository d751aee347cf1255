//! Joined lines.

ghost use Rattle.std.specs.Prelude.{◌≡◌, ◌+◌, ◌<◌, ◌≤◌, ◌^◌, ◌-◌, ◌∷◌, [], length, drop};
ghost use Rattle.texts.specs.Tokens.{is_padding, begins_with, past};
ghost use Rattle.opencl_tokens.specs.Joining.{line_end, joined_line, trigraph_line, fate_of, joined_of};
ghost use Rattle.opencl_tokens.specs.Seen.{site, fate, Joins};

use crate::{FIRST_SITE, Site, TextFault, TokenError};
use std::alloc::Global;

/// The longest text that is read, in bytes.
pub const LIMIT: usize = 1_048_576;

/// The bytes of a text without what joins lines. Each has its place in the file, and so has the end, behind the last one.
#[derive(Drop)]
pub struct Joined {
    pub bytes: Vec<u8>,
    pub sites: Vec<Site>,
}

/// The fate of the byte at the front of a text.
#[derive(Clone, Copy)]
pub enum Fate {
    Stays,
    /// It goes with those behind it, so many in all.
    Goes(usize),
    Faulty,
}

/// The bytes of a text with their places, or its first fault.
pub fn join(alloc: Global, text: &[u8]) -> Result<Joined, TokenError>
    ensures { Joins result (joined_of text.now) }
{
    if text.len() > LIMIT {
        return Err(TokenError::At {
            fault: TextFault::TextTooLong,
            site: FIRST_SITE,
        });
    }
    let mut bytes = Vec::new(alloc);
    let mut sites = Vec::new(alloc);
    let mut next = FIRST_SITE;
    // How many bytes go with the one before.
    let mut skip = 0;
    for (at, byte) in text.iter().enumerate() {
        let here = next;
        next = past_byte(next, *byte);
        if skip > 0 {
            skip -= 1;
            continue;
        }
        match fate_of(&text[at..]) {
            Fate::Stays => {
                bytes.push(*byte)?;
                sites.push(here)?;
            }
            Fate::Goes(count) => skip = count.saturating_sub(1),
            Fate::Faulty => {
                return Err(TokenError::At {
                    fault: TextFault::BadByte,
                    site: here,
                });
            }
        }
    }
    sites.push(next)?;
    Ok(Joined { bytes, sites })
}

/// The place behind a byte.
fn past_byte(before: Site, byte: u8) -> Site
    requires line { before.line < 2 ^ 32 - 1 }
    requires column { before.column < 2 ^ 32 - 1 }
    ensures site { site result ≡ past (site before) byte }
    ensures line { result.line ≤ before.line + 1 }
    ensures column { result.column ≤ before.column + 1 }
{
    if byte == b'\n' {
        Site {
            line: before.line + 1,
            column: 1,
        }
    } else {
        Site {
            line: before.line,
            column: before.column + 1,
        }
    }
}

/// What becomes of the byte at the front.
fn fate_of(bytes: &[u8]) -> Fate
    ensures { fate result ≡ fate_of bytes.now }
{
    if bytes.starts_with(b"\\") {
        match line_end(1, &bytes[1..]) {
            Some(count) => Fate::Goes(count),
            None => Fate::Stays,
        }
    } else if bytes.starts_with(b"??/") {
        match line_end(3, &bytes[3..]) {
            Some(_) => Fate::Faulty,
            None => Fate::Stays,
        }
    } else if begins_return(bytes) {
        Fate::Goes(1)
    } else if bytes.starts_with(b"\r") {
        Fate::Faulty
    } else {
        Fate::Stays
    }
}

/// A byte that a compiler passes over between a `\` and its line's end.
fn is_padding(b: u8) -> bool
    ensures { result ≡ is_padding b }
{
    b == b' ' || b == b'\t' || (b == 11 || (b == 12 || b == 0))
}

/// A carriage return and a line feed stand at the front.
fn begins_return(bytes: &[u8]) -> bool
    ensures { result ≡ begins_with bytes.now (13 ∷ 10 ∷ []) }
{
    bytes.starts_with(b"\r\n")
}

/// The offset behind a line's end that only padding stands before; the bytes begin at the offset `at`.
fn line_end(at: usize, bytes: &[u8]) -> Option<usize>
    requires { at ≤ 3 }
    ensures { result ≡ line_end at bytes.now }
{
    for (i, b) in bytes.iter().enumerate() {
        if *b == b'\n' {
            return Some(at + i + 1);
        }
        if begins_return(&bytes[i..]) {
            return Some(at + i + 2);
        }
        if !is_padding(*b) {
            return None;
        }
    }
    None
}
