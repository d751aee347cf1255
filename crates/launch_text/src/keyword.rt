//! Lines by their first words.

ghost use Rattle.std.specs.Prelude.{◌≡◌, ◌≤◌, length, map};
ghost use Rattle.std.specs.List.{prefix_len};
ghost use Rattle.std.specs.Str.{bytes_eq};
ghost use Rattle.launch_text.specs.LaunchWords as meaning;
ghost use Rattle.syntax.specs.View.{parameter as parameter_of};
ghost use Rattle.launch_text.specs.Answers.{cursor, same, Gives};
ghost use Rattle.launch_text.specs.Forms.{form as form_of};

use crate::cursor::Cursor;
use crate::error::{LaunchFault, LaunchTextError};
use crate::name::parameter;
use syntax::tree::Parameter;

/// The forms of a text in lines: that of conditions and that of a launch.
#[derive(Clone, Copy)]
pub enum Form {
    Conditions,
    Launch,
}

/// Whether a word has this spelling.
fn is(word: &[u8], spelling: &str) -> bool
    ensures { result ≡ bytes_eq word.now spelling.now }
{
    word == spelling.as_bytes()
}

fn is_keyword(form: Form, word: &[u8]) -> bool
    ensures { result ≡ meaning.is_keyword (form_of form) word.now }
{
    match form {
        Form::Conditions => {
            (is(word, "conditions") || is(word, "groups"))
                || ((is(word, "arg") || is(word, "length"))
                    || (is(word, "require") || is(word, "budget")))
        }
        Form::Launch => {
            (is(word, "launch") || is(word, "groups"))
                || (is(word, "arg") || (is(word, "buffer") || is(word, "fill")))
        }
    }
}

fn is_in_word(b: u8) -> bool
    ensures { result ≡ meaning.is_in_word b }
{
    !(b == b' ' || b == b'\n')
}

fn word_length(bytes: &[u8]) -> usize
    ensures word { result ≡ prefix_len meaning.is_in_word bytes.now }
    ensures within { result ≤ length bytes.now }
{
    for (i, b) in bytes.iter().enumerate() {
        if !is_in_word(*b) {
            return i;
        }
    }
    bytes.len()
}

fn first_word(bytes: &[u8]) -> &[u8]
    ensures { result.now ≡ meaning.first_word bytes.now }
{
    &bytes[..word_length(bytes)]
}

/// Whether a line of this first word stands next.
pub fn begins(at: Cursor<'_>, keyword: &str) -> bool
    ensures { result ≡ bytes_eq (meaning.first_word at.entry.rest.now) keyword.now }
{
    is(first_word(at.rest), keyword)
}

/// The cursor past the first word of the line that is due; a fault where that line is missing.
#[tactic(auto, unfolding(crate::specs::LaunchWords::due))]
pub fn due<'a>(at: Cursor<'a>, form: Form, keyword: &str) -> Result<Cursor<'a>, LaunchTextError>
    ensures { Gives cursor result (meaning.due (form_of form) keyword.now (cursor at.entry)) }
{
    if at.rest.is_empty() {
        return Err(at.refused(LaunchFault::MissingLine));
    }
    let word = first_word(at.rest);
    if is(word, keyword) {
        Ok(at.past(word.len()))
    } else if is_keyword(form, word) {
        Err(at.refused(LaunchFault::MissingLine))
    } else {
        Err(at.refused(LaunchFault::Expected))
    }
}

/// The cursor past the first word of the line that is due, and a blank; a fault where these do not stand there.
#[tactic(auto, unfolding(crate::specs::LaunchWords::due_blank))]
pub fn due_blank<'a>(
    at: Cursor<'a>,
    form: Form,
    keyword: &str,
) -> Result<Cursor<'a>, LaunchTextError>
    ensures { Gives cursor result (meaning.due_blank (form_of form) keyword.now (cursor at.entry)) }
{
    due(at, form, keyword)?.expect(" ")
}

/// The cursor past the first line, which is the form's keyword and the version 1; a fault for any other line.
#[tactic(auto, unfolding(crate::specs::LaunchWords::head_line))]
pub fn head_line<'a>(
    at: Cursor<'a>,
    form: Form,
    keyword: &str,
) -> Result<Cursor<'a>, LaunchTextError>
    ensures { Gives cursor result (meaning.head_line (form_of form) keyword.now (cursor at.entry)) }
{
    due(at, form, keyword)?.expect(" 1")?.end_line()
}

/// The cursor past the name of the parameter whose line is due, and a blank; a fault where these do not stand there.
#[tactic(auto, unfolding(crate::specs::LaunchWords::due_parameter))]
pub fn due_parameter<'a>(
    at: Cursor<'a>,
    form: Form,
    keyword: &str,
    parameters: &[Parameter],
    name: &str,
) -> Result<Cursor<'a>, LaunchTextError>
    ensures { Gives cursor result (meaning.due_parameter (form_of form) keyword.now (map parameter_of parameters.now) name.now (cursor at.entry)) }
{
    let after = due_blank(at, form, keyword)?;
    parameter(after, parameters, name)?.expect(" ")
}

/// Fails where the cursor is not at the text's end.
#[tactic(auto, unfolding(crate::specs::LaunchWords::end_text))]
pub fn end_text(at: Cursor<'_>) -> Result<(), LaunchTextError>
    ensures { Gives same result (meaning.end_text (cursor at.entry)) }
{
    if at.rest.is_empty() {
        Ok(())
    } else {
        Err(at.refused(LaunchFault::Expected))
    }
}
