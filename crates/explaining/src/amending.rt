//! Conditions with other lines.

use std::alloc::{AllocError, Global};

/// The number of words that tell the subject of a line: two of an argument's or of a length, else one.
fn words_of(line: &[u8]) -> usize {
    if line.starts_with(b"arg ") || line.starts_with(b"length ") {
        2
    } else {
        1
    }
}

/// Two lines begin with the same words, so many of them.
fn begin_alike(one: &[u8], other: &[u8], words: usize) -> bool {
    let mut left = words;
    for (byte, second) in one.iter().zip(other.iter()) {
        if byte != second {
            return false;
        }
        if *byte == b' ' {
            left = left.saturating_sub(1);
        }
        if left == 0 {
            return true;
        }
    }
    false
}

/// The line stands in the place of one that is there.
fn takes_place(line: &[u8]) -> bool {
    words_of(line) == 2
}

/// The line that stands in the place of another one, of these.
fn instead<'a>(lines: &'a [String], of: &[u8]) -> Option<&'a String> {
    for line in lines {
        let bytes = line.as_bytes();
        if takes_place(bytes) && begin_alike(bytes, of, words_of(bytes)) {
            return Some(line);
        }
    }
    None
}

fn push_line(out: &mut Vec<u8>, line: &[u8]) -> Result<(), AllocError> {
    out.extend_from_slice(line)?;
    out.push(b'\n')?;
    Ok(())
}

/// Writes the lines that begin with a word.
fn push_all(out: &mut Vec<u8>, lines: &[String], word: &[u8]) -> Result<(), AllocError> {
    for line in lines {
        if line.as_bytes().starts_with(word) {
            push_line(out, line.as_bytes())?;
        }
    }
    Ok(())
}

/// A text of conditions that is written line by line: where requirements stand already, and whether it is of version 2.
#[derive(Drop)]
struct Writing<'a> {
    lines: &'a [String],
    out: Vec<u8>,
    has_required: bool,
    is_of_two: bool,
}

impl<'a> Writing<'a> {
    fn push_required(&mut self) -> Result<(), AllocError> {
        if self.has_required {
            return Ok(());
        }
        self.has_required = true;
        push_all(&mut self.out, self.lines, b"require ")
    }

    /// Writes a line of the text, with the lines that stand in front of it or in its place.
    fn push(&mut self, line: &[u8]) -> Result<(), AllocError> {
        if line.starts_with(b"conditions 1") && self.is_of_two {
            return push_line(&mut self.out, b"conditions 2");
        }
        if line.starts_with(b"values ") {
            self.push_required()?;
        }
        if line.starts_with(b"budget ") {
            self.push_required()?;
            push_all(&mut self.out, self.lines, b"values ")?;
        }
        match instead(self.lines, line) {
            Some(other) => push_line(&mut self.out, other.as_bytes()),
            None => push_line(&mut self.out, line),
        }
    }
}

/// Conditions with these lines: those of an argument or of a length in the place of what they say now, the others added.
pub fn amended(
    alloc: Global,
    conditions: &[u8],
    lines: &[String],
    is_of_two: bool,
) -> Result<Vec<u8>, AllocError> {
    let mut writing = Writing {
        lines,
        out: Vec::new(alloc),
        has_required: false,
        is_of_two,
    };
    let mut line: Vec<u8> = Vec::new(alloc);
    for byte in conditions {
        if *byte == b'\n' {
            writing.push(line.as_slice())?;
            line.clear();
        } else {
            line.push(*byte)?;
        }
    }
    Ok(writing.out)
}
