//! The line of groups of a conditions text.

ghost use Rattle.std.specs.Prelude.{◌≡◌, ◌*◌};
ghost use Rattle.launch_text.specs.ConditionsReading as meaning;
ghost use Rattle.launch_text.specs.Answers.{cursor, read, Gives};
ghost use Rattle.launch_text.specs.View as view;

use crate::cursor::Cursor;
use crate::error::{LaunchFault, LaunchTextError};
use crate::keyword::{Form, due_blank};
use crate::number::natural;
use launch::conditions::{CountRange, CountRanges};

const MOST_GROUPS: u64 = 65_536;

const MOST_GROUPS_TOGETHER: u64 = 1_048_576;

#[tactic(auto, unfolding(crate::specs::ConditionsReading::counts_at))]
fn counts(at: Cursor<'_>) -> Result<(CountRange, Cursor<'_>), LaunchTextError>
    ensures { Gives (read view.counts) result (meaning.counts_at (cursor at.entry)) }
{
    let (low, after) = natural(at, 1, MOST_GROUPS)?;
    let (high, after) = natural(after.expect("..")?, 1, MOST_GROUPS)?;
    if high < low {
        return Err(after.refused(LaunchFault::EmptyRange));
    }
    let range = CountRange {
        low: low as u32,
        high: high as u32,
    };
    Ok((range, after))
}

#[tactic(auto, unfolding(crate::specs::ConditionsReading::three_counts_at))]
fn three_counts(at: Cursor<'_>) -> Result<(CountRanges, Cursor<'_>), LaunchTextError>
    ensures { Gives (read view.three_counts) result (meaning.three_counts_at (cursor at.entry)) }
{
    let (x, after) = counts(at)?;
    let (y, after) = counts(after.expect(" ")?)?;
    let (z, after) = counts(after.expect(" ")?)?;
    Ok((CountRanges { x, y, z }, after))
}

#[tactic(auto, using(crate::proofs::Counts::fits))]
fn most_groups(x: CountRange, y: CountRange, z: CountRange) -> u64
    ensures { result ≡ x.high * y.high * z.high }
{
    x.high as u64 * y.high as u64 * z.high as u64
}

/// The line of the counts of groups.
#[tactic(auto, unfolding(crate::specs::ConditionsReading::groups_line))]
pub fn groups_line(at: Cursor<'_>) -> Result<(CountRanges, Cursor<'_>), LaunchTextError>
    ensures { Gives (read view.three_counts) result (meaning.groups_line (cursor at.entry)) }
{
    let (ranges, after) = three_counts(due_blank(at, Form::Conditions, "groups")?)?;
    if most_groups(ranges.x, ranges.y, ranges.z) > MOST_GROUPS_TOGETHER {
        return Err(after.refused(LaunchFault::LimitPassed));
    }
    Ok((ranges, after.end_line()?))
}
