//! Lines of a conditions text that say what buffers hold.

ghost use Rattle.std.specs.Prelude.{◌≡◌, ◌≤◌, [], codes, map, length};
ghost use Rattle.texts.specs.Declarations.{most_names};
ghost use Rattle.launch_text.specs.LaunchWords.{several};
ghost use Rattle.launch_text.specs.LaunchSums as sums;
ghost use Rattle.launch_text.specs.ConditionsReading as meaning;
ghost use Rattle.syntax.specs.View.{parameter as parameter_of};
ghost use Rattle.launch_text.specs.Answers.{cursor, read, same, Gives};
ghost use Rattle.launch_text.specs.View as view;

use crate::cursor::Cursor;
use crate::error::{LaunchFault, LaunchTextError};
use crate::keyword::{Form, begins, due_blank};
use crate::name::{is_known, name};
use crate::sum::sum;
use launch::conditions::Content;
use std::alloc::Global;
use syntax::tree::Parameter;

const MOST_CONTENTS: usize = 16;

/// The number of the buffer parameter with a name, counted from 0 among the buffers.
fn buffer_number(parameters: &[Parameter], word: &[u8]) -> Option<u32>
    requires { length parameters.now ≤ most_names }
    ensures { result ≡ sums.buffer_number 0 (map parameter_of parameters.now) word.now }
{
    let mut before = 0;
    for parameter in parameters {
        if let Parameter::Buffer { name, .. } = parameter {
            if name.as_bytes() == word {
                return Some(before);
            }
            before += 1;
        }
    }
    None
}

#[tactic(auto, unfolding(crate::specs::LaunchSums::buffer_at))]
fn buffer<'a>(
    at: Cursor<'a>,
    parameters: &[Parameter],
) -> Result<(u32, Cursor<'a>), LaunchTextError>
    requires { length parameters.now ≤ most_names }
    ensures { Gives (read same) result (sums.buffer_at (map parameter_of parameters.now) (cursor at.entry)) }
{
    let (word, after) = name(at)?;
    let Some(buffer) = buffer_number(parameters, word) else {
        if is_known(parameters, word) {
            return Err(after.refused(LaunchFault::Expected));
        }
        return Err(after.refused(LaunchFault::UnknownName));
    };
    Ok((buffer, after))
}

/// Whether the sum is the upper end.
#[tactic(auto, unfolding(crate::specs::ConditionsReading::end_at))]
fn is_upper(at: Cursor<'_>) -> Result<(bool, Cursor<'_>), LaunchTextError>
    ensures { Gives (read same) result (meaning.end_at (cursor at.entry)) }
{
    if let Some(after) = at.strip(" <= ") {
        return Ok((true, after));
    }
    let after = at.expect(" >= ")?;
    Ok((false, after))
}

#[tactic(auto, unfolding(crate::specs::ConditionsReading::content_line))]
fn content_line<'a>(
    alloc: Global,
    at: Cursor<'a>,
    parameters: &[Parameter],
) -> Result<(Content, Cursor<'a>), LaunchTextError>
    requires { length parameters.now ≤ most_names }
    ensures { Gives (read view.content) result (meaning.content_line (map parameter_of parameters.now) (cursor at.entry)) }
{
    let (buffer, after) = buffer(due_blank(at, Form::Conditions, "values")?, parameters)?;
    let (is_upper, after) = is_upper(after)?;
    let (sum, after) = sum(alloc, after, parameters, true)?;
    let after = after.end_line()?;
    let content = Content {
        buffer,
        is_upper,
        sum,
        line: at.line,
    };
    Ok((content, after))
}

fn several_lines<'a>(
    alloc: Global,
    at: Cursor<'a>,
    parameters: &[Parameter],
) -> Result<(Vec<Content>, Cursor<'a>), LaunchTextError>
    requires { length parameters.now ≤ most_names }
    ensures { Gives (read view.contents) result (several (codes "values") (meaning.content_line (map parameter_of parameters.now)) 16 [] (cursor at.entry)) }
{
    let mut contents = Vec::new(alloc);
    let mut room = MOST_CONTENTS;
    let mut rest = at;
    'lines: while begins(rest, "values") {
        if room == 0 {
            return Err(rest.refused(LaunchFault::LimitPassed));
        }
        let (content, after) = content_line(alloc, rest, parameters)?;
        contents.push(content)?;
        room -= 1;
        rest = after;
    }
    Ok((contents, rest))
}

/// The lines that say what buffers hold, of which texts of version 1 have none.
#[tactic(auto, unfolding(crate::specs::ConditionsReading::content_lines))]
pub fn content_lines<'a>(
    alloc: Global,
    at: Cursor<'a>,
    parameters: &[Parameter],
    is_two: bool,
) -> Result<(Vec<Content>, Cursor<'a>), LaunchTextError>
    requires { length parameters.now ≤ most_names }
    ensures { Gives (read view.contents) result (meaning.content_lines is_two (map parameter_of parameters.now) (cursor at.entry)) }
{
    if is_two {
        return several_lines(alloc, at, parameters);
    }
    Ok((Vec::new(alloc), at))
}
