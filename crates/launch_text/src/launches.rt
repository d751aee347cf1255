//! Launches of their text.

ghost use Rattle.std.specs.Prelude.{◌≡◌, ◌<◌, ◌^◌, [], map, IfOk};
ghost use Rattle.words.specs.View.{kind as kind_of};
ghost use Rattle.launch_text.specs.LaunchReading as meaning;
ghost use Rattle.syntax.specs.View.{parameter as parameter_of};
ghost use Rattle.launch_text.specs.Answers.{cursor, read, same, Gives};
ghost use Rattle.launch_text.specs.View as view;

use crate::cursor::Cursor;
use crate::error::{LaunchFault, LaunchTextError};
use crate::given::{argument_line, fill};
use crate::keyword::{Form, due_blank, due_parameter, end_text, head_line};
use crate::number::{natural, word};
use launch::launches::{Buffers, Counts, Launch};
use std::alloc::Global;
use syntax::tree::Parameter;
use words::{Kind, Word};

/// The longest text that is read, in bytes.
pub const LAUNCH_LIMIT: usize = 4_194_304;

/// The most words that the buffers of a launch text have in all.
const MOST_WORDS: usize = 1_048_576;

const MOST_GROUPS: u64 = 65_536;

const MOST_FILL: u64 = 2_147_483_647;

#[tactic(auto, unfolding(crate::specs::LaunchReading::groups_line))]
fn groups_line(at: Cursor<'_>) -> Result<(Counts, Cursor<'_>), LaunchTextError>
    ensures { Gives (read view.given_counts) result (meaning.groups_line (cursor at.entry)) }
{
    let after = due_blank(at, Form::Launch, "groups")?;
    let (x, after) = natural(after, 1, MOST_GROUPS)?;
    let (y, after) = natural(after.expect(" ")?, 1, MOST_GROUPS)?;
    let (z, after) = natural(after.expect(" ")?, 1, MOST_GROUPS)?;
    let after = after.end_line()?;
    let counts = Counts {
        x: x as u32,
        y: y as u32,
        z: z as u32,
    };
    Ok((counts, after))
}

fn argument_lines<'a>(
    alloc: Global,
    at: Cursor<'a>,
    parameters: &[Parameter],
) -> Result<(Vec<Word>, Cursor<'a>), LaunchTextError>
    ensures { Gives (read view.words) result (meaning.argument_lines (map parameter_of parameters.now) (cursor at.entry)) }
{
    let mut arguments = Vec::new(alloc);
    let mut rest = at;
    for parameter in parameters {
        let (kind, name) = match parameter {
            Parameter::Buffer { .. } => continue,
            Parameter::Value { kind, name, .. } => (*kind, name.as_str()),
        };
        let (argument, after) = argument_line(rest, parameters, kind, name)?;
        arguments.push(argument)?;
        rest = after;
    }
    Ok((arguments, rest))
}

fn list<'a>(
    alloc: Global,
    at: Cursor<'a>,
    kind: Kind,
    room: usize,
) -> Result<(Vec<Word>, Cursor<'a>), LaunchTextError>
    ensures { Gives (read view.words) result (meaning.list_at (kind_of kind) room [] (cursor at.entry)) }
{
    let mut words = Vec::new(alloc);
    let mut left = room;
    let mut rest = at;
    'words: while let Some(behind) = rest.strip(" ") {
        let (word, after) = word(behind, kind)?;
        if left == 0 {
            return Err(after.refused(LaunchFault::LimitPassed));
        }
        words.push(word)?;
        left -= 1;
        rest = after;
    }
    Ok((words, rest))
}

#[tactic(auto, unfolding(crate::specs::LaunchReading::words_at))]
fn words<'a>(
    alloc: Global,
    at: Cursor<'a>,
    kind: Kind,
    room: usize,
) -> Result<(Vec<Word>, Cursor<'a>), LaunchTextError>
    ensures { Gives (read view.words) result (meaning.words_at (kind_of kind) room (cursor at.entry)) }
{
    match at.strip("list") {
        Some(after) => list(alloc, after, kind, room),
        None => fill(alloc, at, kind, room),
    }
}

#[tactic(auto, unfolding(crate::specs::LaunchReading::buffer_line))]
fn buffer_line<'a>(
    alloc: Global,
    at: Cursor<'a>,
    parameters: &[Parameter],
    room: usize,
    kind: Kind,
    name: &str,
) -> Result<(Vec<Word>, Cursor<'a>), LaunchTextError>
    ensures { Gives (read view.words) result (meaning.buffer_line (map parameter_of parameters.now) room (kind_of kind) name.now (cursor at.entry)) }
{
    let after = due_parameter(at, Form::Launch, "buffer", parameters, name)?;
    let (words, after) = words(alloc, after, kind, room)?;
    Ok((words, after.end_line()?))
}

fn buffer_lines<'a>(
    alloc: Global,
    at: Cursor<'a>,
    parameters: &[Parameter],
) -> Result<(Vec<Vec<Word>>, Cursor<'a>), LaunchTextError>
    ensures { Gives (read view.buffers) result (meaning.buffer_lines (map parameter_of parameters.now) (cursor at.entry)) }
{
    let mut buffers = Vec::new(alloc);
    let mut room = MOST_WORDS;
    let mut rest = at;
    for parameter in parameters {
        let (kind, name) = match parameter {
            Parameter::Buffer { kind, name, .. } => (*kind, name.as_str()),
            Parameter::Value { .. } => continue,
        };
        let (buffer, after) = buffer_line(alloc, rest, parameters, room, kind, name)?;
        room = room.saturating_sub(buffer.len());
        buffers.push(buffer)?;
        rest = after;
    }
    Ok((buffers, rest))
}

#[tactic(auto, unfolding(crate::specs::LaunchReading::fill_line))]
fn fill_line(at: Cursor<'_>) -> Result<(u64, Cursor<'_>), LaunchTextError>
    ensures value { Gives (read same) result (meaning.fill_line (cursor at.entry)) }
    ensures fits { IfOk result (λ r. r.0 < 2 ^ 31) }
{
    let after = due_blank(at, Form::Launch, "fill")?;
    let (fill, after) = natural(after, 0, MOST_FILL)?;
    Ok((fill, after.end_line()?))
}

#[tactic(auto, unfolding(crate::specs::LaunchReading::launch_at))]
fn launch<'a>(
    alloc: Global,
    at: Cursor<'a>,
    parameters: &[Parameter],
) -> Result<Launch, LaunchTextError>
    ensures { Gives view.launch result (meaning.launch_at (map parameter_of parameters.now) (cursor at.entry)) }
{
    let after = head_line(at, Form::Launch, "launch")?;
    let (groups, after) = groups_line(after)?;
    let (arguments, after) = argument_lines(alloc, after, parameters)?;
    let (words, after) = buffer_lines(alloc, after, parameters)?;
    let (fill, after) = fill_line(after)?;
    end_text(after)?;
    Ok(Launch {
        groups,
        arguments,
        buffers: Buffers { words },
        fill: fill as u32,
    })
}

/// The launch of a text, for a kernel of these parameters.
pub fn launch_of(
    alloc: Global,
    parameters: &[Parameter],
    text: &[u8],
) -> Result<Launch, LaunchTextError>
    ensures { Gives view.launch result (meaning.launch_of (map parameter_of parameters.now) text.now) }
{
    if text.len() > LAUNCH_LIMIT {
        return Err(LaunchTextError::Refused {
            fault: LaunchFault::LimitPassed,
            line: 1,
        });
    }
    launch(
        alloc,
        Cursor {
            line: 1,
            rest: text,
        },
        parameters,
    )
}
