//! Dives: look for a whole point of a tableau by a bound on one symbol after the other.

use super::answer::Point;
use super::whole::point_of;
use crate::row::{Row, Variable};
use crate::stop::Stop;
use crate::tableau::{Origin, Tableau};
use linear::Symbol;
use std::alloc::Global;

/// The most symbols that are bounded.
const DEPTH: u32 = 14;

/// The most pivots for one bound.
const PIVOTS: u32 = 60;

/// A symbol whose value is between two whole numbers.
#[derive(Clone, Copy)]
struct Choice {
    symbol: Symbol,
    below: i64,
    is_nearer_above: bool,
}

/// The symbol of a row between two whole numbers.
fn choice_of(row: &Row) -> Option<Choice> {
    let Variable::Free(symbol) = row.basic else {
        return None;
    };
    let (Some(below), Some(rest)) = (
        row.constant.checked_div_euclid(row.denominator),
        row.constant.checked_rem_euclid(row.denominator),
    ) else {
        return None;
    };
    if rest == 0 {
        return None;
    }
    Some(Choice {
        symbol,
        below,
        is_nearer_above: rest >= row.denominator.saturating_sub(rest),
    })
}

/// The first row of the smallest denominator whose symbol is between two whole numbers.
fn choose(solved: &[Row]) -> Option<Choice> {
    let mut best: Option<(i64, Choice)> = None;
    for row in solved {
        if let Some(found) = choice_of(row) {
            if best.is_none_or(|old| row.denominator < old.0) {
                best = Some((row.denominator, found));
            }
        }
    }
    best.map(|found| found.1)
}

/// A slack that says of a symbol to be above a number, or not to be.
fn bound(alloc: Global, slack: u32, choice: &Choice, is_above: bool) -> Result<Row, Stop> {
    let (coefficient, constant) = if is_above {
        (
            1,
            choice
                .below
                .checked_neg()
                .and_then(|number| number.checked_sub(1)),
        )
    } else {
        (-1, Some(choice.below))
    };
    let Some(constant) = constant else {
        return Err(Stop::GivenUp);
    };
    Row::of_symbol(alloc, slack, choice.symbol, coefficient, constant)
}

/// The tableau with a symbol bounded and solved, if that is possible.
fn bounded(
    alloc: Global,
    start: &Tableau,
    choice: &Choice,
    is_above: bool,
) -> Result<Option<Tableau>, Stop> {
    let mut tableau = start.copy(alloc, PIVOTS)?;
    let row = bound(alloc, tableau.next_slack()?, choice, is_above)?;
    tableau.enter(row, Origin::Guess)?;
    match tableau.solve(alloc)? {
        Some(_) => Ok(None),
        None => Ok(Some(tableau)),
    }
}

/// The tableau with a symbol bounded on its nearer side, or else on the other one.
fn narrowed(alloc: Global, tableau: &Tableau, choice: &Choice) -> Result<Option<Tableau>, Stop> {
    match bounded(alloc, tableau, choice, choice.is_nearer_above)? {
        Some(tableau) => Ok(Some(tableau)),
        None => bounded(alloc, tableau, choice, !choice.is_nearer_above),
    }
}

fn dive_down(alloc: Global, start: &Tableau) -> Result<Option<Point>, Stop> {
    let mut tableau = start.copy(alloc, 0)?;
    for _ in 0..DEPTH {
        let Some(choice) = choose(tableau.solved.as_slice()) else {
            return point_of(alloc, tableau.solved.as_slice());
        };
        let Some(next) = narrowed(alloc, &tableau, &choice)? else {
            return Ok(None);
        };
        tableau = next;
    }
    Ok(None)
}

/// A whole point near the tableau's own, if one is found soon.
pub fn dive(alloc: Global, tableau: &Tableau) -> Result<Option<Point>, Stop> {
    match dive_down(alloc, tableau) {
        Err(Stop::GivenUp) => Ok(None),
        outcome => outcome,
    }
}
