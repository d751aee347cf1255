//! The lines `define` of conditions as words for a build.

ghost use Rattle.std.specs.Prelude.{◌≡◌, ◌≤◌, ◌<◌, ◌++◌, ◌⊎◌, [], length, map, IfOk, OnOk};
ghost use Rattle.std.specs.List.{prefix_len};
ghost use Rattle.lines.specs.Bytes.{is_word_byte as is_word};
ghost use Rattle.launch_text.specs.Answers as conditions;
ghost use Rattle.launch_text.specs.Answers.{bytes};
ghost use Rattle.launch_text.specs.View.{head as head_seen};
ghost use Rattle.kernel_reading.specs.Kernels.{head_in as head_meant};
ghost use Rattle.host_answers.specs.Building as rules;
ghost use Rattle.host_answers.specs.Putting.{IsPut};

use crate::putting::put;
use launch_text::error::LaunchTextError;
use launch_text::head::{Head, head_of};
use std::alloc::{AllocError, Global};

fn is_word_byte(b: u8) -> bool
    ensures { result ≡ is_word b }
{
    97 <= b && b <= 122 || (65 <= b && b <= 90 || b == b'_') || 48 <= b && b <= 57
}

fn name_length(line: &[u8]) -> usize
    ensures value { result ≡ rules.name_length line.now }
    ensures few { result ≤ length line.now }
{
    for (at, byte) in line.iter().enumerate() {
        if !is_word_byte(*byte) {
            return at;
        }
    }
    line.len()
}

fn length_within(bytes: &[u8]) -> usize
    ensures value { result ≡ prefix_len rules.is_within bytes.now }
    ensures few { result ≤ length bytes.now }
{
    for (at, byte) in bytes.iter().enumerate() {
        if *byte == b')' {
            return at;
        }
    }
    bytes.len()
}

fn state_behind(state: u32, byte: u8) -> u32
    requires { state < 512 }
    ensures value { result ≡ rules.state_behind state byte }
    ensures few { result < 512 }
{
    if 256 <= state {
        state - 256
    } else if state == 0 {
        if byte == b'"' || byte == b'\'' {
            byte as u32
        } else {
            0
        }
    } else if byte as u32 == state {
        0
    } else if byte == b'\\' {
        state + 256
    } else {
        state
    }
}

fn push_blank(state: u32, found: &mut Vec<u8>) -> Result<(), AllocError>
    ensures { OnOk result (found.new.items ≡ found.old.items ++ rules.blank_in state) }
{
    if state == 0 {
        found.extend_from_slice(b"/**/")
    } else {
        found.extend_from_slice(b"\\040")
    }
}

fn push_byte(state: u32, byte: u8, found: &mut Vec<u8>) -> Result<(), AllocError>
    ensures { OnOk result (found.new.items ≡ found.old.items ++ rules.spelled_byte state byte) }
{
    if byte == b' ' {
        push_blank(state, found)
    } else {
        found.push(byte)?;
        Ok(())
    }
}

fn push_spelled(text: &[u8], found: &mut Vec<u8>) -> Result<(), AllocError>
    ensures { OnOk result (found.new.items ≡ rules.spelled_behind found.old.items 0 text.now) }
{
    let mut state = 0;
    for byte in text {
        push_byte(state, *byte, found)?;
        state = state_behind(state, *byte);
    }
    Ok(())
}

fn parameters_length(rest: &[u8]) -> usize
    ensures value { result ≡ rules.parameters_length rest.now }
    ensures few { result ≤ length rest.now }
{
    match rest {
        [b'(', ..] => length_within(rest),
        _ => 0,
    }
}

fn begins_with(byte: u8, text: &[u8]) -> bool
    ensures { result ≡ rules.begins_with byte text.now }
{
    match text {
        [first, ..] => *first == byte,
        [] => false,
    }
}

fn without(byte: u8, text: &[u8]) -> &[u8]
    ensures { result.now ≡ rules.without byte text.now }
{
    match text {
        [first, others @ ..] if *first == byte => others,
        _ => text,
    }
}

fn close(rest: &[u8], found: &mut Vec<u8>) -> Result<(), AllocError>
    ensures { OnOk result (found.new.items ≡ rules.closed found.old.items rest.now) }
{
    if begins_with(b')', rest) {
        found.push(b')')?;
    }
    Ok(())
}

fn push_value(rest: &[u8], found: &mut Vec<u8>) -> Result<(), AllocError>
    ensures { OnOk result (found.new.items ≡ rules.value_behind found.old.items rest.now) }
{
    let count = parameters_length(rest);
    push_spelled(&rest[..count], found)?;
    let behind = &rest[count..];
    close(behind, found)?;
    found.push(b'=')?;
    push_spelled(without(b' ', without(b')', behind)), found)
}

fn push_opening(found: &mut Vec<u8>) -> Result<(), AllocError>
    ensures { OnOk result (found.new.items ≡ rules.opening found.old.items) }
{
    if found.len() == 0 {
        found.extend_from_slice(b"-D")
    } else {
        found.extend_from_slice(b" -D")
    }
}

fn push_rest(rest: &[u8], found: &mut Vec<u8>) -> Result<(), AllocError>
    ensures { OnOk result (found.new.items ≡ rules.or_alone found.old.items rest.now) }
{
    if rest.len() == 0 {
        Ok(())
    } else {
        push_value(rest, found)
    }
}

fn push_word(line: &[u8], found: &mut Vec<u8>) -> Result<(), AllocError>
    ensures { OnOk result (found.new.items ≡ rules.word_behind found.old.items line.now) }
{
    push_opening(found)?;
    let count = name_length(line);
    found.extend_from_slice(&line[..count])?;
    push_rest(&line[count..], found)
}

fn words_of(alloc: Global, lines: &[&[u8]]) -> Result<Vec<u8>, AllocError>
    ensures { IfOk result (λ v. v.items ≡ rules.words_behind [] (map bytes lines.now)) }
{
    let mut found = Vec::new(alloc);
    for line in lines {
        push_word(line, &mut found)?;
    }
    Ok(found)
}

/// The head of a text of conditions; one of another version has none.
fn head_in<'a>(alloc: Global, text: &'a [u8]) -> Result<Head<'a>, LaunchTextError>
    ensures { conditions.Gives head_seen result (head_meant text.now) }
{
    if text.starts_with(b"conditions 3\n") {
        return head_of(alloc, text);
    }
    Ok(Head {
        kernel: None,
        defines: Vec::new(alloc),
        sizes: None,
        locals: Vec::new(alloc),
    })
}

fn words_in(alloc: Global, text: &[u8]) -> Result<Vec<u8>, AllocError>
    ensures { IfOk result (λ v. v.items ≡ rules.words_of text.now) }
{
    match head_in(alloc, text) {
        Ok(head) => words_of(alloc, &head.defines),
        Err(LaunchTextError::Refused { .. }) => Ok(Vec::new(alloc)),
        Err(LaunchTextError::Memory) => Err(AllocError),
    }
}

/// Puts there, as far as there is room, the words for a build that the lines `define` of conditions are, and gives their length; 0 where there
/// are none, the head has a fault, or memory is refused.
pub fn build_words(alloc: Global, text: &[u8], room: &mut [u8]) -> u64
    ensures { (result ≡ 0) ⊎ IsPut (rules.words_of text.now) room.old room.new result }
{
    match words_in(alloc, text) {
        Ok(words) => put(&words, room),
        Err(AllocError) => 0,
    }
}
