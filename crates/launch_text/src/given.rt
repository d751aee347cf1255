//! The line of an argument of a launch text, and fills.

ghost use Rattle.std.specs.Prelude.{◌≡◌, map, replicate, IfOk};
ghost use Rattle.words.specs.View.{kind as kind_of, word as word_seen};
ghost use Rattle.launch_text.specs.LaunchReading as meaning;
ghost use Rattle.syntax.specs.View.{parameter as parameter_of};
ghost use Rattle.launch_text.specs.Answers.{cursor, read, Gives};
ghost use Rattle.launch_text.specs.View as view;

use crate::cursor::Cursor;
use crate::error::LaunchTextError;
use crate::keyword::{Form, due_parameter};
use crate::number::{natural, word};
use std::alloc::{AllocError, Global};
use syntax::tree::Parameter;
use words::{Kind, Word};

/// The line of the value parameter that is due.
#[tactic(auto, unfolding(crate::specs::LaunchReading::argument_line))]
pub fn argument_line<'a>(
    at: Cursor<'a>,
    parameters: &[Parameter],
    kind: Kind,
    name: &str,
) -> Result<(Word, Cursor<'a>), LaunchTextError>
    ensures { Gives (read word_seen) result (meaning.argument_line (map parameter_of parameters.now) (kind_of kind) name.now (cursor at.entry)) }
{
    let after = due_parameter(at, Form::Launch, "arg", parameters, name)?;
    let (word, after) = word(after, kind)?;
    Ok((word, after.end_line()?))
}

#[tactic(auto, using(crate::proofs::Fills::filled))]
fn filled(alloc: Global, word: Word, count: usize) -> Result<Vec<Word>, AllocError>
    ensures { IfOk result (λ v. view.words v ≡ replicate count (word_seen word)) }
{
    Ok(vec![in alloc; word; count]?)
}

/// Reads `fill N W` at the cursor: so many times one word of the kind, at most as many as there is room for; a fault for any other text.
#[tactic(auto, unfolding(crate::specs::LaunchReading::fill_at))]
pub fn fill<'a>(
    alloc: Global,
    at: Cursor<'a>,
    kind: Kind,
    room: usize,
) -> Result<(Vec<Word>, Cursor<'a>), LaunchTextError>
    ensures { Gives (read view.words) result (meaning.fill_at (kind_of kind) room (cursor at.entry)) }
{
    let after = at.expect("fill ")?;
    let (count, after) = natural(after, 0, room as u64)?;
    let (word, after) = word(after.expect(" ")?, kind)?;
    Ok((filled(alloc, word, count as usize)?, after))
}
