//! Gomory cuts (1958): a sum of slacks with coefficients that divide and a constant that does not is rounded down.

use crate::row::{Entry, Row, Variable};
use crate::stop::Stop;
use crate::tableau::{Origin, Part, Tableau};
use linear::{Fact, Symbol};
use std::alloc::Global;

/// The number of cuts before the tableau is solved again.
const CUTS: usize = 4;

/// The outcome of an attempt to cut the point of a tableau off.
#[derive(Drop)]
pub enum Cuts {
    /// New slacks were added to the tableau, one for each cut.
    Made,
    /// The parts of a sum that is below 0.
    Refuting(Vec<Part>),
    /// No row can be cut by.
    Exhausted,
}

/// A row to cut by: those of small denominators and few entries come first.
#[derive(Clone, Copy, PartialEq, Eq, PartialOrd, Ord)]
struct Source {
    denominator: i64,
    length: usize,
    is_solved: bool,
    place: usize,
}

/// Whether a number is no multiple of another one.
pub fn is_fraction(number: i64, denominator: i64) -> bool {
    match number.checked_rem(denominator) {
        Some(rest) => rest != 0,
        None => false,
    }
}

/// A symbol of the row whose coefficient is a fraction.
fn loose_symbol(row: &Row) -> Option<Symbol> {
    for entry in row.entries.iter() {
        if let Variable::Free(symbol) = entry.variable {
            if is_fraction(entry.coefficient, row.denominator) {
                return Some(symbol);
            }
        }
    }
    None
}

fn is_fractional(row: &Row) -> bool {
    is_fraction(row.constant, row.denominator)
}

/// A symbol that has to enter before cuts can be made.
fn loose_in(rows: &[Row]) -> Option<Symbol> {
    for row in rows {
        if is_fractional(row) {
            let found = loose_symbol(row);
            if found.is_some() {
                return found;
            }
        }
    }
    None
}

/// Adds the rows that can be cut by.
fn add_sources(out: &mut Vec<Source>, rows: &[Row], is_solved: bool) -> Result<(), Stop> {
    for (place, row) in rows.iter().enumerate() {
        if is_fractional(row) && loose_symbol(row).is_none() {
            out.push(Source {
                denominator: row.denominator,
                length: row.entries.len(),
                is_solved,
                place,
            })?;
        }
    }
    Ok(())
}

/// The remainder, from 0 on, of a coefficient with a sign by a denominator; none where it is too large.
fn rest_of(coefficient: i64, sign: i64, denominator: i64) -> Option<i64> {
    let Some(number) = coefficient.checked_mul(sign) else {
        return None;
    };
    number.checked_rem_euclid(denominator)
}

/// The parts of the cut by a row, or by its opposite.
fn cut_parts(alloc: Global, row: &Row, sign: i64) -> Result<Vec<Part>, Stop> {
    let mut parts = Vec::new(alloc);
    for entry in row.entries.iter() {
        let Some(weight) = rest_of(entry.coefficient, sign, row.denominator) else {
            return Err(Stop::GivenUp);
        };
        if let Variable::Slack(slack) = entry.variable {
            if weight > 0 {
                parts.push(Part { weight, slack })?;
            }
        }
    }
    Ok(parts)
}

/// Whether one of the cuts has these parts.
fn has_parts(origins: &[Origin], parts: &[Part]) -> bool {
    origins.iter().any(|origin| match origin {
        Origin::Cut(other, _, _) => other.as_slice() == parts,
        _ => false,
    })
}

/// The form over symbols that a slack says to be at least 0, as a row with the denominator 1; gives up on a slack of a tried bound.
pub fn form_of(alloc: Global, tableau: &Tableau, facts: &[Fact], slack: u32) -> Result<Row, Stop> {
    match tableau.origins.get(slack as usize) {
        Some(Origin::Given(number, _)) => {
            let Some(fact) = facts.get((*number as usize).saturating_sub(1)) else {
                return Err(Stop::GivenUp);
            };
            let (row, _) = Row::of_fact(alloc, slack, fact)?;
            Ok(row)
        }
        Some(Origin::Cut(_, _, form)) => Ok(form.copy(alloc)?),
        _ => Err(Stop::GivenUp),
    }
}

/// The sum of the parts.
fn sum_of(alloc: Global, tableau: &Tableau, facts: &[Fact], parts: &[Part]) -> Result<Row, Stop> {
    let mut scratch: Vec<Entry> = Vec::new(alloc);
    let mut sum = Row::empty(alloc, tableau.next_slack()?);
    for part in parts {
        let form = form_of(alloc, tableau, facts, part.slack)?;
        sum.add_times(&form, part.weight, &mut scratch)?;
    }
    Ok(sum)
}

/// Takes in the cut of these parts, or answers them where their sum is below 0.
fn enter_cut(
    alloc: Global,
    tableau: &mut Tableau,
    facts: &[Fact],
    parts: Vec<Part>,
) -> Result<Option<Vec<Part>>, Stop> {
    let mut form = sum_of(alloc, tableau, facts, parts.as_slice())?;
    if form.entries.is_empty() {
        return Ok(if form.constant < 0 { Some(parts) } else { None });
    }
    let divisor = form.round();
    let row = form.copy(alloc)?;
    tableau.enter(row, Origin::Cut(parts, divisor, form))?;
    Ok(None)
}

/// Takes in a cut as `enter_cut` does, and drops it where a number leaves `i64`.
pub fn try_cut(
    alloc: Global,
    tableau: &mut Tableau,
    facts: &[Fact],
    parts: Vec<Part>,
) -> Result<Option<Vec<Part>>, Stop> {
    match enter_cut(alloc, tableau, facts, parts) {
        Err(Stop::GivenUp) => Ok(None),
        outcome => outcome,
    }
}

/// The row of a slack that a symbol's growth or fall brings to 0 first.
fn tightest(tableau: &Tableau, symbol: Symbol) -> Option<usize> {
    let mut best: Option<(usize, i64, i64)> = None;
    for (place, row) in tableau.rows.iter().enumerate() {
        let coefficient = row.coefficient(Variable::Free(symbol)).saturating_abs();
        if coefficient > 0
            && best.is_none_or(|old| is_less(row.constant, coefficient, old.1, old.2))
        {
            best = Some((place, row.constant, coefficient));
        }
    }
    best.map(|found| found.0)
}

/// Lets in the symbols that keep fractional rows from being cut by.
fn settle(tableau: &mut Tableau) -> Result<(), Stop> {
    for _ in 0..tableau.rows.len() {
        let found = match loose_in(tableau.solved.as_slice()) {
            Some(symbol) => Some(symbol),
            None => loose_in(tableau.rows.as_slice()),
        };
        let Some(symbol) = found else {
            return Ok(());
        };
        let Some(place) = tightest(tableau, symbol) else {
            return Ok(());
        };
        tableau.pivot(place, Variable::Free(symbol))?;
    }
    Ok(())
}

/// The parts of the cut by a row, unless they were taken since.
fn parts_by(
    alloc: Global,
    tableau: &Tableau,
    source: &Source,
    sign: i64,
    since: usize,
) -> Result<Option<Vec<Part>>, Stop> {
    let rows = if source.is_solved {
        tableau.solved.as_slice()
    } else {
        tableau.rows.as_slice()
    };
    let Some(row) = rows.get(source.place) else {
        return Err(Stop::GivenUp);
    };
    let parts = cut_parts(alloc, row, sign)?;
    let Some(taken) = tableau.origins.get(since..) else {
        return Err(Stop::GivenUp);
    };
    if parts.is_empty() || has_parts(taken, parts.as_slice()) {
        Ok(None)
    } else {
        Ok(Some(parts))
    }
}

/// The rows that can be cut by, the best first.
fn sources_of(alloc: Global, tableau: &Tableau) -> Result<Vec<Source>, Stop> {
    let mut sources = Vec::new(alloc);
    add_sources(&mut sources, tableau.solved.as_slice(), true)?;
    add_sources(&mut sources, tableau.rows.as_slice(), false)?;
    sources.sort_unstable();
    Ok(sources)
}

/// Makes the two cuts by a row.
fn cut_by(
    alloc: Global,
    tableau: &mut Tableau,
    facts: &[Fact],
    source: &Source,
    since: usize,
) -> Result<Option<Vec<Part>>, Stop> {
    for sign in [1, -1] {
        if let Some(parts) = parts_by(alloc, tableau, source, sign, since)? {
            if let Some(found) = try_cut(alloc, tableau, facts, parts)? {
                return Ok(Some(found));
            }
        }
    }
    Ok(None)
}

/// Adds up to four cuts as slacks of the tableau, or finds one that refutes the facts.
pub fn cut(alloc: Global, tableau: &mut Tableau, facts: &[Fact]) -> Result<Cuts, Stop> {
    settle(tableau)?;
    let since = tableau.origins.len();
    let sources = sources_of(alloc, tableau)?;
    for source in sources.iter() {
        if let Some(found) = cut_by(alloc, tableau, facts, source, since)? {
            return Ok(Cuts::Refuting(found));
        }
        if tableau.origins.len() >= since.saturating_add(CUTS) {
            break;
        }
    }
    if tableau.origins.len() == since {
        Ok(Cuts::Exhausted)
    } else {
        Ok(Cuts::Made)
    }
}

/// Whether one fraction is less than another one.
fn is_less(constant: i64, coefficient: i64, other: i64, of: i64) -> bool {
    match (constant.checked_mul(of), other.checked_mul(coefficient)) {
        (Some(first), Some(second)) => first < second,
        _ => false,
    }
}
