//! What a head of conditions defines for the kernel's text.

ghost use Rattle.std.specs.Prelude.{◌≡◌, ◌≤◌, length};
ghost use Rattle.std.specs.List.{prefix_len};
ghost use Rattle.launch_text.specs.Answers.{bytes, cursor, read, Gives};
ghost use Rattle.launch_text.specs.HeadReading as meaning;
ghost use Rattle.launch_text.specs.View as view;

use crate::cursor::Cursor;
use crate::error::{LaunchFault, LaunchTextError};
use crate::keyword::{Form, begins, due_blank};
use crate::name::begins_name;
use std::alloc::Global;

const MOST_BYTES: usize = 255;

const MOST_DEFINES: usize = 256;

fn is_printable(b: u8) -> bool
    ensures { result ≡ meaning.is_printable b }
{
    32 <= b && b <= 126
}

fn printable_length(bytes: &[u8]) -> usize
    ensures printable { result ≡ prefix_len meaning.is_printable bytes.now }
    ensures within { result ≤ length bytes.now }
{
    for (i, b) in bytes.iter().enumerate() {
        if !is_printable(*b) {
            return i;
        }
    }
    bytes.len()
}

/// Reads what is defined at the cursor; a fault where no name begins there, or it is too long.
#[tactic(auto, unfolding(crate::specs::HeadReading::definition_at))]
fn definition<'a>(at: Cursor<'a>) -> Result<(&'a [u8], Cursor<'a>), LaunchTextError>
    ensures { Gives (read bytes) result (meaning.definition_at (cursor at.entry)) }
{
    if !begins_name(at.rest) {
        return Err(at.refused(LaunchFault::Expected));
    }
    let count = printable_length(at.rest);
    if count > MOST_BYTES {
        return Err(at.refused(LaunchFault::LimitPassed));
    }
    let after = at.past(count);
    Ok((&at.rest[..count], after))
}

#[tactic(auto, unfolding(crate::specs::HeadReading::define_line))]
fn define_line<'a>(at: Cursor<'a>) -> Result<(&'a [u8], Cursor<'a>), LaunchTextError>
    ensures { Gives (read bytes) result (meaning.define_line (cursor at.entry)) }
{
    let (line, after) = definition(due_blank(at, Form::Conditions, "define")?)?;
    Ok((line, after.end_line()?))
}

/// The lines of definitions at the cursor, each behind its first word, and the cursor past them; a fault where one of them has one.
pub fn define_lines<'a>(
    alloc: Global,
    at: Cursor<'a>,
) -> Result<(Vec<&'a [u8]>, Cursor<'a>), LaunchTextError>
    ensures { Gives (read view.defines) result (meaning.define_lines (cursor at.entry)) }
{
    let mut defines = Vec::new(alloc);
    let mut room = MOST_DEFINES;
    let mut rest = at;
    'lines: while begins(rest, "define") {
        if room == 0 {
            return Err(rest.refused(LaunchFault::LimitPassed));
        }
        let (define, after) = define_line(rest)?;
        defines.push(define)?;
        room -= 1;
        rest = after;
    }
    Ok((defines, rest))
}
