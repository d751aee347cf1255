// Texts of lines: the mark of a line, and what it tells.

use std::alloc::{AllocError, Global};

/// A line up to its first blank, and what stands behind that.
pub fn cut(line: &[u8]) -> (&[u8], &[u8]) {
    for (at, byte) in line.iter().enumerate() {
        if *byte == b' ' {
            let (mark, text) = line.split_at(at);
            return (mark, text.get(1..).unwrap_or(&[]));
        }
    }
    (line, &[])
}

/// The number of a decimal; 0 where the text is none.
pub fn number_of(text: &[u8]) -> u64 {
    let mut number = 0u64;
    for byte in text {
        if byte.is_ascii_digit() {
            number = number
                .saturating_mul(10)
                .saturating_add((*byte & 15) as u64);
        }
    }
    number
}

/// The half of a byte that a hexadecimal digit stands for.
fn half(digit: u8) -> u8 {
    match digit {
        b'0'..=b'9' => digit & 15,
        _ => (digit & 15).wrapping_add(9),
    }
}

/// Adds a line, with its end.
pub fn push_line(out: &mut Vec<u8>, text: &[u8]) -> Result<(), AllocError> {
    out.extend_from_slice(text)?;
    out.push(b'\n')?;
    Ok(())
}

/// A text with `\n`, `\r`, `\t`, `\\` and `\xHH`.
pub fn push_escaped(out: &mut Vec<u8>, text: &[u8]) -> Result<(), AllocError> {
    let mut bytes = text.iter();
    for _ in 0..text.len() {
        let Some(byte) = bytes.next() else {
            break;
        };
        let made = if *byte == b'\\' {
            match bytes.next() {
                Some(b'n') => b'\n',
                Some(b'r') => b'\r',
                Some(b't') => b'\t',
                Some(b'x') => {
                    let high = bytes.next().map_or(0, |digit| half(*digit));
                    let low = bytes.next().map_or(0, |digit| half(*digit));
                    (high << 4) | low
                }
                _ => b'\\',
            }
        } else {
            *byte
        };
        out.push(made)?;
    }
    Ok(())
}

/// A text so often, as `COUNT TEXT` says.
pub fn push_often(alloc: Global, out: &mut Vec<u8>, told: &[u8]) -> Result<(), AllocError> {
    let (count, text) = cut(told);
    let mut once = Vec::new(alloc);
    push_escaped(&mut once, text)?;
    for _ in 0..number_of(count) {
        out.extend_from_slice(&once)?;
    }
    Ok(())
}

/// The lines of a text from the first number to the last, each with its end.
pub fn push_lines(out: &mut Vec<u8>, text: &[u8], first: u64, last: u64) -> Result<(), AllocError> {
    let mut number = 0u64;
    for line in text.split(|byte| *byte == b'\n') {
        number = number.saturating_add(1);
        if number >= first && number <= last {
            push_line(out, line)?;
        }
    }
    Ok(())
}

/// The words of a command line.
pub fn words_of(alloc: Global, line: &[u8]) -> Result<Vec<String>, AllocError> {
    let mut words = Vec::new(alloc);
    for word in line.split(|byte| *byte == b' ') {
        if !word.is_empty() {
            words.push(String::from_utf8_lossy(alloc, word)?)?;
        }
    }
    Ok(words)
}
