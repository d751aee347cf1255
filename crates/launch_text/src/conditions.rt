//! Conditions of their text.

ghost use Rattle.std.specs.Prelude.{◌≡◌, ◌≤◌, ◌&&◌, true, false, map, length, MatchOption};
ghost use Rattle.words.specs.View.{kind as kind_of, value_of};
ghost use Rattle.texts.specs.Declarations.{most_names};
ghost use Rattle.launch_text.specs.LaunchFaults.{sees, past};
ghost use Rattle.launch_text.specs.ConditionsReading as meaning;
ghost use Rattle.syntax.specs.View.{parameter as parameter_of};
ghost use Rattle.launch_text.specs.Answers.{cursor, read, same, Gives};
ghost use Rattle.launch_text.specs.View as view;

use crate::contents::content_lines;
use crate::cursor::Cursor;
use crate::error::{LaunchFault, LaunchTextError};
use crate::groups::groups_line;
use crate::head::past_head;
use crate::keyword::{Form, begins, due, due_blank, due_parameter, end_text};
use crate::number::{natural, word};
use crate::sum::sum;
use launch::conditions::{ArgumentRange, Conditions, Length, Requirement};
use std::alloc::Global;
use syntax::tree::Parameter;
use words::Kind;

/// The longest text that is read, in bytes.
pub const CONDITIONS_LIMIT: usize = 65_536;

const MOST_REQUIREMENTS: usize = 16;

const MOST_STEPS: u64 = 1_000_000_000_000;

#[tactic(auto, unfolding(crate::specs::ConditionsReading::argument_at))]
fn argument(at: Cursor<'_>, kind: Kind) -> Result<(ArgumentRange, Cursor<'_>), LaunchTextError>
    ensures { Gives (read view.argument) result (meaning.argument_at (kind_of kind) (cursor at.entry)) }
{
    let (low, after) = word(at, kind)?;
    let (high, after) = word(after.expect("..")?, kind)?;
    if low.value() > high.value() {
        return Err(after.refused(LaunchFault::EmptyRange));
    }
    let range = ArgumentRange {
        low,
        high,
        line: at.line,
    };
    Ok((range, after))
}

#[tactic(auto, unfolding(crate::specs::ConditionsReading::argument_line))]
fn argument_line<'a>(
    at: Cursor<'a>,
    parameters: &[Parameter],
    kind: Kind,
    name: &str,
) -> Result<(ArgumentRange, Cursor<'a>), LaunchTextError>
    ensures { Gives (read view.argument) result (meaning.argument_line (map parameter_of parameters.now) (kind_of kind) name.now (cursor at.entry)) }
{
    let after = due_parameter(at, Form::Conditions, "arg", parameters, name)?;
    let (range, after) = argument(after, kind)?;
    Ok((range, after.end_line()?))
}

fn argument_lines<'a>(
    alloc: Global,
    at: Cursor<'a>,
    parameters: &[Parameter],
) -> Result<(Vec<ArgumentRange>, Cursor<'a>), LaunchTextError>
    ensures { Gives (read view.arguments) result (meaning.argument_lines (map parameter_of parameters.now) (cursor at.entry)) }
{
    let mut ranges = Vec::new(alloc);
    let mut rest = at;
    for parameter in parameters {
        let (kind, name) = match parameter {
            Parameter::Buffer { .. } => continue,
            Parameter::Value { kind, name, .. } => (*kind, name.as_str()),
        };
        let (range, after) = argument_line(rest, parameters, kind, name)?;
        ranges.push(range)?;
        rest = after;
    }
    Ok((ranges, rest))
}

#[tactic(auto, unfolding(crate::specs::ConditionsReading::length_line))]
fn length_line<'a>(
    alloc: Global,
    at: Cursor<'a>,
    parameters: &[Parameter],
    kind: Kind,
    name: &str,
    has_products: bool,
) -> Result<(Length, Cursor<'a>), LaunchTextError>
    requires { length parameters.now ≤ most_names }
    ensures { Gives (read view.length) result (meaning.length_line has_products (map parameter_of parameters.now) (kind_of kind) name.now (cursor at.entry)) }
{
    let after = due_parameter(at, Form::Conditions, "length", parameters, name)?;
    let (least, after) = sum(alloc, after.expect(">= ")?, parameters, has_products)?;
    let after = after.end_line()?;
    let length = Length {
        kind,
        least,
        line: at.line,
    };
    Ok((length, after))
}

fn length_lines<'a>(
    alloc: Global,
    at: Cursor<'a>,
    parameters: &[Parameter],
    has_products: bool,
) -> Result<(Vec<Length>, Cursor<'a>), LaunchTextError>
    requires { length parameters.now ≤ most_names }
    ensures { Gives (read view.lengths) result (meaning.length_lines has_products (map parameter_of parameters.now) (cursor at.entry)) }
{
    let mut lengths = Vec::new(alloc);
    let mut rest = at;
    for parameter in parameters {
        let (kind, name) = match parameter {
            Parameter::Buffer { kind, name, .. } => (*kind, name.as_str()),
            Parameter::Value { .. } => continue,
        };
        let (length, after) = length_line(alloc, rest, parameters, kind, name, has_products)?;
        lengths.push(length)?;
        rest = after;
    }
    Ok((lengths, rest))
}

#[tactic(auto, unfolding(crate::specs::ConditionsReading::requirement_line))]
fn requirement_line<'a>(
    alloc: Global,
    at: Cursor<'a>,
    parameters: &[Parameter],
    has_products: bool,
) -> Result<(Requirement, Cursor<'a>), LaunchTextError>
    requires { length parameters.now ≤ most_names }
    ensures { Gives (read view.requirement) result (meaning.requirement_line has_products (map parameter_of parameters.now) (cursor at.entry)) }
{
    let after = due_blank(at, Form::Conditions, "require")?;
    let (left, after) = sum(alloc, after, parameters, has_products)?;
    let (right, after) = sum(alloc, after.expect(" >= ")?, parameters, has_products)?;
    let after = after.end_line()?;
    let requirement = Requirement {
        left,
        right,
        line: at.line,
    };
    Ok((requirement, after))
}

fn requirement_lines<'a>(
    alloc: Global,
    at: Cursor<'a>,
    parameters: &[Parameter],
    has_products: bool,
) -> Result<(Vec<Requirement>, Cursor<'a>), LaunchTextError>
    requires { length parameters.now ≤ most_names }
    ensures { Gives (read view.requirements) result (meaning.requirement_lines has_products (map parameter_of parameters.now) (cursor at.entry)) }
{
    let mut requirements = Vec::new(alloc);
    let mut room = MOST_REQUIREMENTS;
    let mut rest = at;
    'lines: while begins(rest, "require") {
        if room == 0 {
            return Err(rest.refused(LaunchFault::LimitPassed));
        }
        let (requirement, after) = requirement_line(alloc, rest, parameters, has_products)?;
        requirements.push(requirement)?;
        room -= 1;
        rest = after;
    }
    Ok((requirements, rest))
}

#[tactic(auto, unfolding(crate::specs::ConditionsReading::budget_line))]
fn budget_line(at: Cursor<'_>) -> Result<(u64, Cursor<'_>), LaunchTextError>
    ensures { Gives (read same) result (meaning.budget_line (cursor at.entry)) }
{
    let after = due_blank(at, Form::Conditions, "budget")?;
    let (budget, after) = natural(after, 1, MOST_STEPS)?;
    Ok((budget, after.end_line()?))
}

// The budget of a text whose last line may be left out, and then is the greatest.
#[tactic(auto, unfolding(crate::specs::ConditionsReading::budget_at))]
fn budget(at: Cursor<'_>, may_lack: bool) -> Result<(u64, Cursor<'_>), LaunchTextError>
    ensures { Gives (read same) result (meaning.budget_at may_lack (cursor at.entry)) }
{
    if may_lack && at.rest.is_empty() {
        return Ok((MOST_STEPS, at));
    }
    budget_line(at)
}

/// Whether a text is one of version 3, where it may be.
fn is_third(at: Cursor<'_>, may_be_two: bool) -> bool
    ensures { result ≡ meaning.is_third may_be_two (cursor at.entry) }
{
    may_be_two && at.strip("conditions 3").is_some()
}

/// The cursor past the mark of version 2 or 3, where the text may be of that version.
fn strip_mark<'a>(at: Cursor<'a>, mark: &str, may_be_two: bool) -> Option<Cursor<'a>>
    ensures { MatchOption result ((may_be_two && sees mark.now (cursor at.entry)) ≡ false) (λ after. ((may_be_two && sees mark.now (cursor at.entry)) ≡ true) × (cursor after ≡ past (length mark.now) (cursor at.entry))) }
{
    if may_be_two {
        return at.strip(mark);
    }
    None
}

/// The version of the text: whether it is 2.
#[tactic(auto, unfolding(crate::specs::ConditionsReading::version_at))]
fn version(at: Cursor<'_>, may_be_two: bool) -> Result<(bool, Cursor<'_>), LaunchTextError>
    ensures { Gives (read same) result (meaning.version_at may_be_two (cursor at.entry)) }
{
    if let Some(after) = strip_mark(at, " 2", may_be_two) {
        return Ok((true, after));
    }
    let after = at.expect(" 1")?;
    Ok((false, after))
}

/// The first line behind its first word, in texts of versions 1 and 2.
#[tactic(auto, unfolding(crate::specs::ConditionsReading::numbered_line))]
fn numbered_line(at: Cursor<'_>, may_be_two: bool) -> Result<(bool, Cursor<'_>), LaunchTextError>
    ensures { Gives (read same) result (meaning.numbered_line may_be_two (cursor at.entry)) }
{
    let (is_two, after) = version(at, may_be_two)?;
    let after = after.end_line()?;
    Ok((is_two, after))
}

/// The end of the first line of a text of version 3, and its head, which is passed over.
#[tactic(auto, unfolding(crate::specs::ConditionsReading::headed_line))]
fn headed_line<'a>(alloc: Global, at: Cursor<'a>) -> Result<(bool, Cursor<'a>), LaunchTextError>
    ensures { Gives (read same) result (meaning.headed_line (cursor at.entry)) }
{
    let after = past_head(alloc, at.end_line()?)?;
    Ok((true, after))
}

/// The first line, and the head behind it.
#[tactic(auto, unfolding(crate::specs::ConditionsReading::version_line))]
fn version_line<'a>(
    alloc: Global,
    at: Cursor<'a>,
    may_be_two: bool,
) -> Result<(bool, Cursor<'a>), LaunchTextError>
    ensures { Gives (read same) result (meaning.version_line may_be_two (cursor at.entry)) }
{
    let after = due(at, Form::Conditions, "conditions")?;
    match strip_mark(after, " 3", may_be_two) {
        Some(behind) => headed_line(alloc, behind),
        None => numbered_line(after, may_be_two),
    }
}

#[tactic(auto, unfolding(crate::specs::ConditionsReading::conditions_at))]
fn conditions<'a>(
    alloc: Global,
    at: Cursor<'a>,
    parameters: &[Parameter],
    may_be_two: bool,
) -> Result<Conditions, LaunchTextError>
    requires { length parameters.now ≤ most_names }
    ensures { Gives view.lined result (meaning.conditions_at may_be_two (map parameter_of parameters.now) (cursor at.entry)) }
{
    let (is_two, head) = version_line(alloc, at, may_be_two)?;
    let (groups, after) = groups_line(head)?;
    let (arguments, after) = argument_lines(alloc, after, parameters)?;
    let (lengths, after) = length_lines(alloc, after, parameters, is_two)?;
    let (requirements, after) = requirement_lines(alloc, after, parameters, is_two)?;
    let (contents, after) = content_lines(alloc, after, parameters, is_two)?;
    let (budget, after) = budget(after, is_third(at, may_be_two))?;
    end_text(after)?;
    Ok(Conditions {
        groups,
        groups_line: head.line,
        arguments,
        lengths,
        requirements,
        contents,
        budget,
    })
}

/// The conditions of a text, for a kernel of these parameters; of version 2 or 3 only where it may be.
pub fn conditions_of(
    alloc: Global,
    parameters: &[Parameter],
    text: &[u8],
    may_be_two: bool,
) -> Result<Conditions, LaunchTextError>
    requires { length parameters.now ≤ most_names }
    ensures { Gives view.lined result (meaning.conditions_of may_be_two (map parameter_of parameters.now) text.now) }
{
    if text.len() > CONDITIONS_LIMIT {
        return Err(LaunchTextError::Refused {
            fault: LaunchFault::LimitPassed,
            line: 1,
        });
    }
    conditions(
        alloc,
        Cursor {
            line: 1,
            rest: text,
        },
        parameters,
        may_be_two,
    )
}
