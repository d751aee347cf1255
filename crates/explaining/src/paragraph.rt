//! Lines of at most 100 columns.

use std::alloc::AllocError;

/// The most columns of a line.
pub const WIDTH: usize = 100;

/// The most columns of a word; what is longer is cut.
const WORD: usize = 90;

/// A word that is longer than a line may be is cut.
fn push_cut(out: &mut String, word: &str) -> Result<(), AllocError> {
    for sign in word.chars().take(WORD) {
        out.push(sign)?;
    }
    Ok(())
}

/// A word behind a line's words, or in a new line where it does not fit; and the column behind it.
fn push_word(
    out: &mut String,
    indent: &str,
    column: usize,
    word: &str,
) -> Result<usize, AllocError> {
    let length = word.len().min(WORD);
    if column > 0 && column.saturating_add(length) < WIDTH {
        out.push_str(" ")?;
        push_cut(out, word)?;
        return Ok(column.saturating_add(length).saturating_add(1));
    }
    out.push_str(if column > 0 { "\n" } else { "" })?;
    out.push_str(indent)?;
    push_cut(out, word)?;
    Ok(indent.len().saturating_add(length))
}

/// Words in lines, each line behind an indent.
pub fn push_paragraph(out: &mut String, indent: &str, text: &str) -> Result<(), AllocError> {
    let mut column = 0;
    for word in text.split(' ') {
        column = push_word(out, indent, column, word)?;
    }
    out.push_str("\n")
}
