// What conditions and launches say.

use launch::conditions::{Conditions, CountRange};
use launch::launches::Launch;
use launch_text::{read_conditions_as, write_buffers};
use std::alloc::{AllocError, Global};
use typed_kernels::Typed;
use words::Word;

fn push_range(out: &mut String, range: CountRange) -> Result<(), AllocError> {
    write!(out, " {}..{}", range.low, range.high)
}

fn push_word(out: &mut String, word: Word) -> Result<(), AllocError> {
    match word {
        Word::Int(value) => write!(out, "{value}"),
        Word::Uint(value) | Word::Size(value) => write!(out, "{value}u"),
    }
}

fn push_arguments(out: &mut String, conditions: &Conditions) -> Result<(), AllocError> {
    for range in &conditions.arguments {
        write!(out, "{}: arg ", range.line)?;
        push_word(out, range.low)?;
        out.push_str("..")?;
        push_word(out, range.high)?;
        out.push_str("\n")?;
    }
    Ok(())
}

fn push_sums(out: &mut String, conditions: &Conditions) -> Result<(), AllocError> {
    for length in &conditions.lengths {
        writeln!(
            out,
            "{}: length {:?} of {}",
            length.line,
            length.kind,
            length.least.terms.len()
        )?;
    }
    for required in &conditions.requirements {
        writeln!(
            out,
            "{}: require {} and {}",
            required.line,
            required.left.terms.len(),
            required.right.terms.len()
        )?;
    }
    Ok(())
}

fn push_contents(out: &mut String, conditions: &Conditions) -> Result<(), AllocError> {
    for content in &conditions.contents {
        let end = if content.is_upper { "<=" } else { ">=" };
        writeln!(
            out,
            "{}: values {} {end} of {}",
            content.line,
            content.buffer,
            content.sum.terms.len()
        )?;
    }
    Ok(())
}

/// Each line's number, ranges, and how many summands a sum has.
fn push_lines(out: &mut String, conditions: &Conditions) -> Result<(), AllocError> {
    write!(out, "{}: groups", conditions.groups_line)?;
    push_range(out, conditions.groups.x)?;
    push_range(out, conditions.groups.y)?;
    push_range(out, conditions.groups.z)?;
    out.push_str("\n")?;
    push_arguments(out, conditions)?;
    push_sums(out, conditions)?;
    push_contents(out, conditions)?;
    writeln!(out, "budget {}", conditions.budget)
}

/// Writes what conditions of either version say of a kernel, or their refusal.
pub fn push_conditions(
    alloc: Global,
    out: &mut String,
    typed: &Typed,
    text: &[u8],
) -> Result<(), AllocError> {
    match read_conditions_as(alloc, typed, text, true) {
        Ok(conditions) => push_lines(out, &conditions),
        Err(error) => writeln!(out, "refused {error}"),
    }
}

fn push_buffers(
    alloc: Global,
    out: &mut String,
    typed: &Typed,
    launch: &Launch,
) -> Result<(), AllocError> {
    let buffers = write_buffers(alloc, typed, &launch.buffers)?;
    out.push_str(&buffers)
}

/// Groups, arguments and the fill of a launch, then the buffers as they are written.
pub fn push_launch(
    alloc: Global,
    out: &mut String,
    typed: &Typed,
    launch: &Launch,
) -> Result<(), AllocError> {
    let groups = launch.groups;
    write!(out, "groups {} {} {}\nargs", groups.x, groups.y, groups.z)?;
    for argument in &launch.arguments {
        out.push_str(" ")?;
        push_word(out, *argument)?;
    }
    write!(out, "\nfill {}\n", launch.fill)?;
    push_buffers(alloc, out, typed, launch)
}
