//! What is known where a loop is entered, as it is in a later turn: of `o + run` that is at most 64 there, where `o` steps by one with a
//! counter `q` from 0, that `o - q + run` is at most 64 in each turn.

use crate::courses::Courses;
use crate::gathering::Gathering;
use crate::single_values::Given;
use crate::stride_lines::first_ways;
use crate::turns::{Counter, Turns};
use guesses::{Leaf, index_of, is_global, is_variable, try_difference, try_multiple};
use linear::{Form, Symbol};
use std::alloc::{AllocError, Global};

/// The rank of the candidates that this file tells.
const DRIFTED: u32 = 3;

/// The most candidates that are looked at.
const LOOKED_AT: usize = 500;

/// The one number, perhaps 0, by which a symbol steps in each turn.
fn step_of(alloc: Global, turns: Turns<'_>, symbol: Symbol) -> Result<Option<i64>, AllocError> {
    if is_global(symbol) {
        return Ok(Some(0));
    }
    if !is_variable(symbol) {
        return Ok(None);
    }
    let Ok(slot) = u32::try_from(index_of(symbol)) else {
        return Ok(None);
    };
    match turns.reach(alloc, slot)? {
        Some(reach) if reach.low == reach.high => Ok(Some(reach.low)),
        _ => Ok(None),
    }
}

/// The one number by which a form changes in each turn.
fn drift_of(alloc: Global, turns: Turns<'_>, form: &Form) -> Result<Option<i64>, AllocError> {
    let mut sum: i64 = 0;
    for term in form.terms() {
        let Some(step) = step_of(alloc, turns, term.symbol)? else {
            return Ok(None);
        };
        let change = step.checked_mul(term.coefficient);
        let Some(next) = change.and_then(|change| sum.checked_add(change)) else {
            return Ok(None);
        };
        sum = next;
    }
    Ok(Some(sum))
}

/// The form without what it falls by in the turns that a counter's way tells, if it falls.
fn without_drift(
    alloc: Global,
    turns: Turns<'_>,
    counter: Counter,
    way: &Form,
    form: &Form,
) -> Result<Option<Form>, AllocError> {
    let Some(drift) = drift_of(alloc, turns, form)? else {
        return Ok(None);
    };
    let (Some(size), Some(times)) = (
        counter.stride.checked_abs(),
        drift.checked_mul(counter.stride.signum()),
    ) else {
        return Ok(None);
    };
    if drift >= 0 {
        return Ok(None);
    }
    let (Some(left), Some(right)) = (
        try_multiple(alloc, form, size)?,
        try_multiple(alloc, way, times)?,
    ) else {
        return Ok(None);
    };
    try_difference(alloc, &left, &right)
}

/// Adds the facts of a place as they are in later turns, by the way that one of its counters has gone.
fn tell_by(
    told: &mut Gathering<'_>,
    turns: Turns<'_>,
    counter: Counter,
    way: &Form,
    count: usize,
) -> Result<(), AllocError> {
    for index in 0..count {
        if let Some(fact) = told.shelf.fact_of(index, turns.sight) {
            if let Some(form) = without_drift(told.alloc, turns, counter, way, fact)? {
                told.add_fact(turns.place, &form, DRIFTED)?;
            }
        }
    }
    Ok(())
}

/// Adds the facts of a place as they are in later turns, by each variable that steps by one number.
fn tell_place(
    told: &mut Gathering<'_>,
    turns: Turns<'_>,
    courses: &Courses,
    count: usize,
) -> Result<(), AllocError> {
    for slot in turns.sight.slots.iter() {
        if let Some(stride) = turns.stride_to(told.alloc, turns.place, *slot)? {
            let counter = Counter {
                slot: *slot,
                stride,
            };
            let ways = first_ways(told.alloc, turns.sight, courses, *slot)?;
            if let Some(way) = ways.first() {
                tell_by(told, turns, counter, way, count)?;
            }
        }
    }
    Ok(())
}

/// Adds, for each place, its facts as they are in later turns.
pub fn tell_drifts(
    told: &mut Gathering<'_>,
    courses: &Courses,
    leaves: &[Leaf],
    values: &[Given],
) -> Result<(), AllocError> {
    let sights = told.sights;
    let count = told.shelf.len().min(LOOKED_AT);
    for (place, sight) in sights.iter().enumerate() {
        let turns = Turns {
            place,
            sight,
            leaves,
            values,
        };
        tell_place(told, turns, courses, count)?;
    }
    Ok(())
}
