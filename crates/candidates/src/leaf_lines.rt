//! What the end of one path tells of the place that it reaches.

use crate::courses::{Courses, steps_of};
use crate::gathering::Gathering;
use crate::names::Except;
use crate::naming::Naming;
use crate::single_values::{Given, has_slot};
use guesses::{Leaf, Line, Sight, one_of, speaks_of, turns, variable};
use linear::{Form, Symbol};
use std::alloc::AllocError;

/// Adds that a symbol of the place equals a form over symbols of the place, unless the form has that symbol.
fn tell_value(
    told: &mut Gathering<'_>,
    place: usize,
    symbol: Symbol,
    value: &Form,
) -> Result<(), AllocError> {
    if speaks_of(value, symbol) {
        return Ok(());
    }
    let own = one_of(told.alloc, symbol)?;
    told.add_equal(place, &own, value, 0)
}

/// A value along a path from that place makes a variable begin anew.
fn is_start(from: &Sight, slot: u32, value: &Form) -> bool {
    !has_slot(from, slot) || !speaks_of(value, variable(slot))
}

/// The value of a variable, rewritten without it, and that it begins so.
fn tell_variable(
    told: &mut Gathering<'_>,
    courses: &mut Courses,
    from: &Sight,
    leaf: &Leaf,
    naming: &Naming,
    slot: u32,
) -> Result<(), AllocError> {
    let Some(value) = leaf.variables.get(slot as usize) else {
        return Ok(());
    };
    let symbol = variable(slot);
    let Some(form) = naming.rewrite(told.alloc, value, Except::Of(symbol))? else {
        return Ok(());
    };
    tell_value(told, leaf.to, symbol, &form)?;
    if is_start(from, slot, value) {
        courses.add_start(slot, form)?;
    }
    Ok(())
}

/// The values of variables and of what ranked loops.
fn tell_values(
    told: &mut Gathering<'_>,
    courses: &mut Courses,
    from: &Sight,
    to: &Sight,
    leaf: &Leaf,
    naming: &Naming,
) -> Result<(), AllocError> {
    for slot in to.slots.iter() {
        tell_variable(told, courses, from, leaf, naming, *slot)?;
    }
    let zeros = naming.coincidences(told.alloc)?;
    for zero in zeros.iter() {
        told.add_zero(leaf.to, zero, 0)?;
    }
    for (number, value) in leaf.ranks.iter() {
        let symbol = turns(*number);
        if let Some(form) = naming.rewrite(told.alloc, value, Except::Of(symbol))? {
            tell_value(told, leaf.to, symbol, &form)?;
        }
    }
    Ok(())
}

/// Adds, at a barrier, that the items of a group have each of its variables alike.
fn tell_alike(told: &mut Gathering<'_>, place: usize, to: &Sight) -> Result<(), AllocError> {
    if to.head.is_some() {
        return Ok(());
    }
    for slot in to.slots.iter() {
        told.add_line(place, Line::Same(*slot), 0)?;
    }
    Ok(())
}

/// Facts of variables as they are at a loop's test, where the best names are those of the barrier before: a fact without these can be
/// carried past the next barrier.
fn tell_here(
    told: &mut Gathering<'_>,
    to: &Sight,
    leaf: &Leaf,
    facts: &[Form],
    naming: &Naming,
) -> Result<(), AllocError> {
    if to.before.is_empty() {
        return Ok(());
    }
    for fact in facts {
        if let Some(form) = naming.rewrite(told.alloc, fact, Except::AtAnchor)? {
            told.add_fact(leaf.to, &form, 2)?;
        }
    }
    Ok(())
}

/// Adds the facts that a path found after it began, in the terms of the place that it reaches, and sums of these.
fn tell_facts(
    told: &mut Gathering<'_>,
    to: &Sight,
    leaf: &Leaf,
    naming: &Naming,
) -> Result<(), AllocError> {
    let Some(facts) = leaf.facts.get(leaf.begun..) else {
        return Ok(());
    };
    if told.shelf.is_crowded() {
        return Ok(());
    }
    for fact in facts {
        if let Some(form) = naming.project(told.alloc, fact)? {
            told.add_fact(leaf.to, &form, 1)?;
        }
    }
    tell_here(told, to, leaf, facts, naming)?;
    let sums = naming.eliminated(told.alloc, facts)?;
    for form in sums.iter() {
        told.add_fact(leaf.to, form, 1)?;
    }
    Ok(())
}

/// Adds the candidates that the end of one path tells by itself, and its steps to the courses.
pub fn tell_leaf(
    told: &mut Gathering<'_>,
    courses: &mut Courses,
    values: &[Given],
    leaf: &Leaf,
    naming: &Naming,
) -> Result<(), AllocError> {
    let sights = told.sights;
    let (Some(from), Some(to)) = (sights.get(leaf.from), sights.get(leaf.to)) else {
        return Ok(());
    };
    let steps = steps_of(told.alloc, from, to, leaf, values, told.known.as_slice())?;
    courses.add_steps(steps.as_slice())?;
    if told.is_wide {
        let known = told.known.as_slice();
        courses.add_forms(told.alloc, (from, to), leaf, values, known)?;
    }
    tell_values(told, courses, from, to, leaf, naming)?;
    tell_alike(told, leaf.to, to)?;
    tell_facts(told, to, leaf, naming)
}
