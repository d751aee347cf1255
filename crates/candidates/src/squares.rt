//! What two ways to one place tell together: where one comes with `a` below `b` and another one with `a` above `b`, whoever is there has
//! them apart. No sum of the two says so, but a product does: `(a - b) * (a - b)` is not below 1.

use crate::gathering::Gathering;
use crate::names::Except;
use crate::naming::Naming;
use guesses::{Leaf, has_product, is_same, plus, try_product};
use linear::Form;
use std::alloc::{AllocError, Global};

/// The most facts of the ways to one place that are looked at.
const FACTS: usize = 128;

/// The most differences that are told.
const MOST: usize = 16;

/// The most terms that a difference has.
const TERMS: usize = 3;

/// The number of passes over all paths that carry differences on.
const PASSES: u32 = 2;

/// A form that is not 0 at a place.
#[derive(Drop)]
struct Apart {
    place: usize,
    difference: Form,
}

/// The form has few terms, and no product among them.
fn is_plain(form: &Form) -> bool {
    !form.terms().is_empty() && form.terms().len() <= TERMS && !has_product(form)
}

/// The second form is below -1 where the first one is not above -1, and the other way round: `d - 1` and `-d - 1`.
fn are_apart(one: &Form, other: &Form) -> bool {
    one.constant_part().checked_add(other.constant_part()) == Some(-2)
        && one.terms().len() == other.terms().len()
        && one.terms().iter().zip(other.terms().iter()).all(|(left, right)| {
            left.symbol == right.symbol && left.coefficient.checked_neg() == Some(right.coefficient)
        })
}

/// Takes up the facts that a path found after it began, in the terms of the place that it reaches.
fn enter_facts(
    alloc: Global,
    leaf: &Leaf,
    naming: &Naming,
    found: &mut Vec<Form>,
) -> Result<(), AllocError> {
    let Some(facts) = leaf.facts.get(leaf.begun..) else {
        return Ok(());
    };
    for fact in facts {
        if is_plain(fact) && found.len() < FACTS {
            if let Some(form) = naming.rewrite(alloc, fact, Except::Nothing)? {
                if is_plain(&form) && !found.iter().any(|other| is_same(other, &form)) {
                    found.push(form)?;
                }
            }
        }
    }
    Ok(())
}

/// The facts that the ways to a place found, each once.
fn facts_at(
    alloc: Global,
    place: usize,
    leaves: &[Leaf],
    namings: &[Naming],
) -> Result<Vec<Form>, AllocError> {
    let mut found = Vec::new(alloc);
    for (leaf, naming) in leaves.iter().zip(namings.iter()) {
        if leaf.to == place {
            enter_facts(alloc, leaf, naming, &mut found)?;
        }
    }
    Ok(found)
}

/// Takes up a difference of a place that is not there yet.
fn enter(all: &mut Vec<Apart>, place: usize, difference: Form) -> Result<(), AllocError> {
    let is_there = all.iter().any(|other| other.place == place
        && is_same(&other.difference, &difference));
    if !is_there && all.len() < MOST {
        all.push(Apart { place, difference })?;
    }
    Ok(())
}

/// Takes up what the ways to a place have apart.
fn enter_place(
    alloc: Global,
    place: usize,
    facts: &[Form],
    all: &mut Vec<Apart>,
) -> Result<(), AllocError> {
    for (number, fact) in facts.iter().enumerate() {
        if facts
            .iter()
            .take(number)
            .any(|other| are_apart(other, fact))
        {
            if let Some(difference) = plus(alloc, fact, 1)? {
                enter(all, place, difference)?;
            }
        }
    }
    Ok(())
}

/// Carries the differences of the place where a path begins on to the one that it reaches.
fn carry_on(
    alloc: Global,
    leaf: &Leaf,
    naming: &Naming,
    all: &mut Vec<Apart>,
) -> Result<(), AllocError> {
    let mut carried = Vec::new(alloc);
    for apart in all.iter() {
        if apart.place == leaf.from {
            if let Some(form) = naming.rewrite(alloc, &apart.difference, Except::Nothing)? {
                if is_plain(&form) {
                    carried.push(form)?;
                }
            }
        }
    }
    for form in carried {
        enter(all, leaf.to, form)?;
    }
    Ok(())
}

/// Adds that the square of a difference is not below 1 at its place.
fn tell_square(told: &mut Gathering<'_>, apart: &Apart) -> Result<(), AllocError> {
    let difference = &apart.difference;
    let Some(square) = try_product(told.alloc, difference, difference)? else {
        return Ok(());
    };
    match plus(told.alloc, &square, -1)? {
        Some(form) => told.add_last(apart.place, form),
        None => Ok(()),
    }
}

/// Adds, at each place, what the ways to it have apart, and what those to the places before it had.
pub fn tell_squares(
    told: &mut Gathering<'_>,
    leaves: &[Leaf],
    namings: &[Naming],
) -> Result<(), AllocError> {
    let mut all = Vec::new(told.alloc);
    for place in 0..told.sights.len() {
        let facts = facts_at(told.alloc, place, leaves, namings)?;
        enter_place(told.alloc, place, facts.as_slice(), &mut all)?;
    }
    for _ in 0..PASSES {
        for (leaf, naming) in leaves.iter().zip(namings.iter()) {
            carry_on(told.alloc, leaf, naming, &mut all)?;
        }
    }
    for apart in all.iter() {
        tell_square(told, apart)?;
    }
    Ok(())
}
