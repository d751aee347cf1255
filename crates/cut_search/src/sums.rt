//! Sums of two facts that round: the coefficients of the sum have a common divisor, and the constant does not have it.

use super::cuts::{form_of, is_fraction, try_cut};
use crate::row::{Entry, Row};
use crate::stop::Stop;
use crate::tableau::{Part, Tableau};
use linear::Fact;
use std::alloc::{AllocError, Global};

/// The most symbols that such a sum has.
const SYMBOLS: usize = 4;

/// The number of sums that are taken in, about and at most.
const MOST: u32 = 400;

/// Whether a coefficient of one row is the opposite of the other's.
fn cancels(one: &Row, other: &Row) -> bool {
    for entry in one.entries.iter() {
        if other.coefficient(entry.variable) == entry.coefficient.saturating_neg() {
            return true;
        }
    }
    false
}

/// The sum of two rows, rounded, where it has few symbols and that says more than the sum.
fn rounded_sum(
    alloc: Global,
    one: &Row,
    other: &Row,
    scratch: &mut Vec<Entry>,
) -> Result<Option<Row>, Stop> {
    let mut sum = one.copy(alloc)?;
    sum.add_times(other, 1, scratch)?;
    let constant = sum.constant;
    let is_short = !sum.entries.is_empty() && sum.entries.len() <= SYMBOLS;
    let divisor = sum.round();
    if is_short && is_fraction(constant, divisor) {
        Ok(Some(sum))
    } else {
        Ok(None)
    }
}

/// Whether one of the rows says as much.
fn is_said(rows: &[Row], sum: &Row) -> bool {
    for row in rows {
        if row.constant <= sum.constant && row.entries.as_slice() == sum.entries.as_slice() {
            return true;
        }
    }
    false
}

/// The form over symbols of each slack of a tableau, as a row.
#[derive(Drop)]
struct Said {
    rows: Vec<Row>,
    scratch: Vec<Entry>,
}

impl Said {
    fn of(alloc: Global, tableau: &Tableau, facts: &[Fact]) -> Result<Said, Stop> {
        let mut said = Said {
            rows: Vec::new(alloc),
            scratch: Vec::new(alloc),
        };
        for slack in 0..tableau.next_slack()? {
            said.rows.push(form_of(alloc, tableau, facts, slack)?)?;
        }
        Ok(said)
    }

    /// The sum of two slacks, rounded, where they cancel a symbol.
    fn sum(&mut self, alloc: Global, first: u32, second: u32) -> Result<Option<Row>, Stop> {
        match (
            self.rows.get(first as usize),
            self.rows.get(second as usize),
        ) {
            (Some(one), Some(other)) if cancels(one, other) => {
                // (a sum that leaves `i64` is not taken in)
                match rounded_sum(alloc, one, other, &mut self.scratch) {
                    Err(Stop::GivenUp) => Ok(None),
                    outcome => outcome,
                }
            }
            _ => Ok(None),
        }
    }
}

/// The parts of the sum of two slacks.
fn parts_of(alloc: Global, first: u32, second: u32) -> Result<Vec<Part>, AllocError> {
    let parts = [first, second].map(|slack| Part { weight: 1, slack });
    Vec::from_slice(alloc, &parts)
}

/// Takes in the sum of two slacks, where it rounds and nothing says as much, or answers its parts where it is below 0.
fn enter_sum(
    alloc: Global,
    tableau: &mut Tableau,
    facts: &[Fact],
    said: &mut Said,
    first: u32,
    second: u32,
) -> Result<Option<Vec<Part>>, Stop> {
    let Some(sum) = said.sum(alloc, first, second)? else {
        return Ok(None);
    };
    if is_said(said.rows.as_slice(), &sum) {
        return Ok(None);
    }
    let parts = parts_of(alloc, first, second)?;
    let found = try_cut(alloc, tableau, facts, parts)?;
    // (a cut that leaves `i64` is not taken in)
    if tableau.origins.len() > said.rows.len() {
        said.rows.push(sum)?;
    }
    Ok(found)
}

/// Takes in sums of two slacks that round, these sums among them, or answers the parts of one that is below 0.
pub fn enter_sums(
    alloc: Global,
    tableau: &mut Tableau,
    facts: &[Fact],
) -> Result<Option<Vec<Part>>, Stop> {
    let mut said = Said::of(alloc, tableau, facts)?;
    let most = tableau.next_slack()?.saturating_add(MOST);
    for second in 0..most {
        let count = tableau.next_slack()?;
        if second >= count || count >= most {
            break;
        }
        for first in 0..second {
            let found = enter_sum(alloc, tableau, facts, &mut said, first, second)?;
            if found.is_some() {
                return Ok(found);
            }
        }
    }
    Ok(None)
}
