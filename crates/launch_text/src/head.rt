//! The head of a conditions text of version 3.

ghost use Rattle.std.specs.Prelude.{codes};
ghost use Rattle.launch_text.specs.ConditionsReading as conditions;
ghost use Rattle.launch_text.specs.HeadReading as meaning;
ghost use Rattle.launch_text.specs.LaunchWords.{name_at};
ghost use Rattle.launch_text.specs.Answers.{bytes, cursor, read, Gives};
ghost use Rattle.std.specs.Option.{option_map};
ghost use Rattle.launch_text.specs.View as view;

use crate::conditions::CONDITIONS_LIMIT;
use crate::cursor::Cursor;
use crate::define::define_lines;
use crate::error::{LaunchFault, LaunchTextError};
use crate::keyword::{Form, begins, due_blank};
use crate::name::name;
use crate::number::natural;
use std::alloc::Global;

const MOST_ITEMS: u64 = 1024;

const MOST_ELEMENTS: u64 = 1_048_576;

const MOST_LOCALS: usize = 64;

/// The length of the local buffer of a name, 1 to 1,048,576 elements.
#[derive(Drop)]
pub struct LocalCount<'a> {
    pub name: &'a str,
    pub count: u32,
}

/// The name of the kernel, and the work-items of a group in each dimension, each 1 to 1,024, where the head says them; what is defined for
/// its text, each as a line says it behind its first word, at most 256, and the lengths of local buffers, at most 64.
#[derive(Drop)]
pub struct Head<'a> {
    pub kernel: Option<&'a str>,
    pub defines: Vec<&'a [u8]>,
    pub sizes: Option<[u32; 3]>,
    pub locals: Vec<LocalCount<'a>>,
}

/// Reads a name at the cursor, as a text.
fn name_text<'a>(at: Cursor<'a>) -> Result<(&'a str, Cursor<'a>), LaunchTextError>
    ensures { Gives (read bytes) result (name_at (cursor at.entry)) }
{
    let (word, after) = name(at)?;
    let Ok(text) = str::from_utf8(word) else {
        return Err(at.refused(LaunchFault::Expected));
    };
    Ok((text, after))
}

#[tactic(auto, unfolding(crate::specs::HeadReading::kernel_line))]
fn kernel_line<'a>(at: Cursor<'a>) -> Result<(&'a str, Cursor<'a>), LaunchTextError>
    ensures { Gives (read bytes) result (meaning.kernel_line (cursor at.entry)) }
{
    let (name, after) = name_text(due_blank(at, Form::Conditions, "kernel")?)?;
    Ok((name, after.end_line()?))
}

#[tactic(auto, unfolding(crate::specs::HeadReading::optional))]
fn kernel<'a>(at: Cursor<'a>) -> Result<(Option<&'a str>, Cursor<'a>), LaunchTextError>
    ensures { Gives (read (option_map bytes)) result (meaning.optional (codes "kernel") meaning.kernel_line (cursor at.entry)) }
{
    if begins(at, "kernel") {
        let (name, after) = kernel_line(at)?;
        return Ok((Some(name), after));
    }
    Ok((None, at))
}

#[tactic(auto, unfolding(crate::specs::HeadReading::sizes_at))]
fn three_sizes(at: Cursor<'_>) -> Result<([u32; 3], Cursor<'_>), LaunchTextError>
    ensures { Gives (read view.sizes) result (meaning.sizes_at (cursor at.entry)) }
{
    let (x, after) = natural(at, 1, MOST_ITEMS)?;
    let (y, after) = natural(after.expect(" ")?, 1, MOST_ITEMS)?;
    let (z, after) = natural(after.expect(" ")?, 1, MOST_ITEMS)?;
    Ok(([x as u32, y as u32, z as u32], after))
}

#[tactic(auto, unfolding(crate::specs::HeadReading::size_line))]
fn size_line(at: Cursor<'_>) -> Result<([u32; 3], Cursor<'_>), LaunchTextError>
    ensures { Gives (read view.sizes) result (meaning.size_line (cursor at.entry)) }
{
    let (sizes, after) = three_sizes(due_blank(at, Form::Conditions, "local_size")?)?;
    Ok((sizes, after.end_line()?))
}

#[tactic(auto, unfolding(crate::specs::HeadReading::optional))]
fn sizes(at: Cursor<'_>) -> Result<(Option<[u32; 3]>, Cursor<'_>), LaunchTextError>
    ensures { Gives (read (option_map view.sizes)) result (meaning.optional (codes "local_size") meaning.size_line (cursor at.entry)) }
{
    if begins(at, "local_size") {
        let (sizes, after) = size_line(at)?;
        return Ok((Some(sizes), after));
    }
    Ok((None, at))
}

#[tactic(auto, unfolding(crate::specs::HeadReading::local_line))]
fn local_line<'a>(at: Cursor<'a>) -> Result<(LocalCount<'a>, Cursor<'a>), LaunchTextError>
    ensures { Gives (read view.local) result (meaning.local_line (cursor at.entry)) }
{
    let (name, after) = name_text(due_blank(at, Form::Conditions, "local")?)?;
    let (count, after) = natural(after.expect(" ")?, 1, MOST_ELEMENTS)?;
    let after = after.end_line()?;
    let local = LocalCount {
        name,
        count: count as u32,
    };
    Ok((local, after))
}

fn local_lines<'a>(
    alloc: Global,
    at: Cursor<'a>,
) -> Result<(Vec<LocalCount<'a>>, Cursor<'a>), LaunchTextError>
    ensures { Gives (read view.locals) result (meaning.local_lines (cursor at.entry)) }
{
    let mut locals = Vec::new(alloc);
    let mut room = MOST_LOCALS;
    let mut rest = at;
    'lines: while begins(rest, "local") {
        if room == 0 {
            return Err(rest.refused(LaunchFault::LimitPassed));
        }
        let (local, after) = local_line(rest)?;
        locals.push(local)?;
        room -= 1;
        rest = after;
    }
    Ok((locals, rest))
}

/// The head at the cursor, and the cursor past it; a fault where the head has one.
#[tactic(auto, unfolding(crate::specs::HeadReading::head_at))]
fn read_head<'a>(alloc: Global, at: Cursor<'a>) -> Result<(Head<'a>, Cursor<'a>), LaunchTextError>
    ensures { Gives (read view.head) result (meaning.head_at (cursor at.entry)) }
{
    let (kernel, after) = kernel(at)?;
    let (defines, after) = define_lines(alloc, after)?;
    let (sizes, after) = sizes(after)?;
    let (locals, after) = local_lines(alloc, after)?;
    let head = Head {
        kernel,
        defines,
        sizes,
        locals,
    };
    Ok((head, after))
}

/// The cursor past the head at the cursor; a fault where the head has one.
pub fn past_head<'a>(alloc: Global, at: Cursor<'a>) -> Result<Cursor<'a>, LaunchTextError>
    ensures { Gives cursor result (meaning.past_head (cursor at.entry)) }
{
    let (_, after) = read_head(alloc, at)?;
    Ok(after)
}

#[tactic(auto, unfolding(crate::specs::ConditionsReading::head_behind))]
fn head_behind<'a>(alloc: Global, at: Cursor<'a>) -> Result<Head<'a>, LaunchTextError>
    ensures { Gives view.head result (conditions.head_behind (cursor at.entry)) }
{
    let Some(rest) = at.rest.strip_prefix(b"conditions 3\n") else {
        return Ok(Head {
            kernel: None,
            defines: Vec::new(alloc),
            sizes: None,
            locals: Vec::new(alloc),
        });
    };
    let behind = Cursor {
        line: at.line + 1,
        rest,
    };
    let (head, _) = read_head(alloc, behind)?;
    Ok(head)
}

/// The head of a text of conditions whose first line says version 3, or the first fault up to the head's end, with its line. Another text
/// has no head, and its faults are told where its conditions are read. A text over 65,536 bytes is refused at line 1. Names are lent from
/// the text.
pub fn head_of<'a>(alloc: Global, text: &'a [u8]) -> Result<Head<'a>, LaunchTextError>
    ensures { Gives view.head result (conditions.head_of text.now) }
{
    if text.len() > CONDITIONS_LIMIT {
        return Err(LaunchTextError::Refused {
            fault: LaunchFault::LimitPassed,
            line: 1,
        });
    }
    head_behind(
        alloc,
        Cursor {
            line: 1,
            rest: text,
        },
    )
}
