//! Lines of the source, with carets below.

use core_code::tree::Site;
use std::alloc::{AllocError, Global};

/// The most bytes of a line that are shown.
const ROOM: usize = 92;

/// The number of signs that stand in front of the site, where the line is too long.
const BEFORE: usize = 30;

/// The place behind a byte.
pub fn behind(site: Site, byte: u8) -> Site {
    if byte == b'\n' {
        Site {
            line: site.line.saturating_add(1),
            column: 1,
        }
    } else {
        Site {
            line: site.line,
            column: site.column.saturating_add(1),
        }
    }
}

/// A byte as it is shown, in one column: what is neither a letter nor a sign is a blank or `?`.
fn sign_of(byte: u8) -> char {
    match byte {
        b'\t' | b'\r' => ' ',
        b' '..=b'~' => char::from(byte),
        _ => '?',
    }
}

/// A line of the source as it is shown, lines counted from 1.
fn line_of(alloc: Global, kernel: &[u8], wanted: u32) -> Result<Vec<char>, AllocError> {
    let mut number = 1u32;
    let mut line = Vec::new(alloc);
    for byte in kernel {
        if *byte == b'\n' {
            number = number.saturating_add(1);
        } else if number == wanted {
            line.push(sign_of(*byte))?;
        }
    }
    Ok(line)
}

/// Writes what stands in front of the bar: the number of a line, or as many blanks.
fn push_margin(out: &mut String, line: u32, is_numbered: bool) -> Result<(), AllocError> {
    if is_numbered {
        return write!(out, "{line:>4} | ");
    }
    out.push_str(if line > 9999 { "      | " } else { "     | " })
}

fn push_blanks(out: &mut String, count: usize) -> Result<(), AllocError> {
    for _blank in 0..count {
        out.push(' ')?;
    }
    Ok(())
}

/// Writes the part of a line that begins at a column and fits the room, and the line's end.
fn push_part(out: &mut String, line: &[char], first: usize) -> Result<(), AllocError> {
    for sign in line.iter().skip(first).take(ROOM) {
        out.push(*sign)?;
    }
    out.push_str("\n")
}

/// A caret and what it says, which stands below it where there is no room beside it.
fn push_caret(out: &mut String, line: u32, offset: usize, label: &str) -> Result<(), AllocError> {
    push_margin(out, line, false)?;
    push_blanks(out, offset)?;
    out.push_str("^")?;
    if offset.saturating_add(label.len()) >= ROOM {
        out.push_str("\n")?;
        push_margin(out, line, false)?;
    } else {
        out.push_str(" ")?;
    }
    out.push_str(label)?;
    out.push_str("\n")
}

/// The line of a site and, below it, a caret with what it says; the line is left out where it stands there already, unless it is long, and
/// so may be shown from another column on.
pub fn push_site(
    alloc: Global,
    out: &mut String,
    kernel: &[u8],
    site: Site,
    is_shown: bool,
    label: &str,
) -> Result<(), AllocError> {
    let line = line_of(alloc, kernel, site.line)?;
    let column = (site.column as usize).saturating_sub(1);
    let first = if line.len() > ROOM {
        column.saturating_sub(BEFORE)
    } else {
        0
    };
    if !is_shown || line.len() > ROOM {
        push_margin(out, site.line, true)?;
        push_part(out, line.as_slice(), first)?;
    }
    push_caret(out, site.line, column.saturating_sub(first), label)
}

/// Writes a label that belongs to no place in the source, as a line of its own.
pub fn push_label(out: &mut String, label: &str) -> Result<(), AllocError> {
    out.push_str("     = ")?;
    out.push_str(label)?;
    out.push_str("\n")
}
