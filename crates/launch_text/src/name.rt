//! Names at the front of what is left.

ghost use Rattle.std.specs.Prelude.{◌≡◌, ◌≤◌, length, map};
ghost use Rattle.std.specs.List.{prefix_len};
ghost use Rattle.std.specs.Str.{bytes_eq};
ghost use Rattle.lines.specs.Bytes.{is_letter, is_word_byte};
ghost use Rattle.launch_text.specs.LaunchWords as meaning;
ghost use Rattle.syntax.specs.View.{parameter as parameter_of};
ghost use Rattle.launch_text.specs.Answers.{cursor, read, bytes, Gives};

use crate::cursor::Cursor;
use crate::error::{LaunchFault, LaunchTextError};
use syntax::tree::Parameter;

fn is_letter(b: u8) -> bool
    ensures { result ≡ is_letter b }
{
    97 <= b && b <= 122 || (65 <= b && b <= 90 || b == b'_')
}

fn is_word_byte(b: u8) -> bool
    ensures { result ≡ is_word_byte b }
{
    is_letter(b) || 48 <= b && b <= 57
}

/// Whether a name stands at the front.
pub fn begins_name(bytes: &[u8]) -> bool
    ensures { result ≡ meaning.begins_name bytes.now }
{
    match bytes {
        [first, ..] => is_letter(*first),
        [] => false,
    }
}

fn name_length(bytes: &[u8]) -> usize
    ensures word { result ≡ prefix_len is_word_byte bytes.now }
    ensures within { result ≤ length bytes.now }
{
    for (i, b) in bytes.iter().enumerate() {
        if !is_word_byte(*b) {
            return i;
        }
    }
    bytes.len()
}

/// Reads a name at the cursor; a fault where no name begins there.
#[tactic(auto, unfolding(crate::specs::LaunchWords::name_at))]
pub fn name<'a>(at: Cursor<'a>) -> Result<(&'a [u8], Cursor<'a>), LaunchTextError>
    ensures { Gives (read bytes) result (meaning.name_at (cursor at.entry)) }
{
    if !begins_name(at.rest) {
        return Err(at.refused(LaunchFault::Expected));
    }
    let count = name_length(at.rest);
    let after = at.past(count);
    Ok((&at.rest[..count], after))
}

fn is_of(parameter: &Parameter, word: &[u8]) -> bool
    ensures { result ≡ bytes_eq (meaning.name_of (parameter_of parameter.now)) word.now }
{
    match parameter {
        Parameter::Buffer { name, .. } => name.as_bytes() == word,
        Parameter::Value { name, .. } => name.as_bytes() == word,
    }
}

/// Whether the kernel has a parameter of this name.
pub fn is_known(parameters: &[Parameter], word: &[u8]) -> bool
    ensures { result ≡ meaning.is_known (map parameter_of parameters.now) word.now }
{
    for parameter in parameters {
        if is_of(parameter, word) {
            return true;
        }
    }
    false
}

/// The name of the parameter that is due.
#[tactic(auto, unfolding(crate::specs::LaunchWords::parameter_at))]
pub fn parameter<'a>(
    at: Cursor<'a>,
    parameters: &[Parameter],
    due: &str,
) -> Result<Cursor<'a>, LaunchTextError>
    ensures { Gives cursor result (meaning.parameter_at (map parameter_of parameters.now) due.now (cursor at.entry)) }
{
    let (word, after) = name(at)?;
    if word == due.as_bytes() {
        Ok(after)
    } else if is_known(parameters, word) {
        Err(after.refused(LaunchFault::MissingLine))
    } else {
        Err(after.refused(LaunchFault::UnknownName))
    }
}
