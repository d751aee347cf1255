//! Equalities of sums with large coefficients, taken apart as numbers are into digits: what a coefficient multiplies, and what is left.

use crate::hashes::hash_of_opposite;
use crate::menu::Menu;
use guesses::{one_of, try_multiple, try_sum};
use linear::{Form, Term};
use std::alloc::{AllocError, Global};

/// The most equalities that are taken apart, and the most ways to do so for each.
const EQUALITIES: usize = 4;

const WAYS: usize = 4;

/// A coefficient is a multiple of a number.
fn is_multiple(coefficient: i64, of: i64) -> bool {
    coefficient.checked_rem(of) == Some(0)
}

/// A sum, and a term divided by a number.
fn with_term(alloc: Global, sum: &Form, term: &Term, by: i64) -> Result<Option<Form>, AllocError> {
    let times = term.coefficient.checked_div(by).unwrap_or(0);
    let one = one_of(alloc, term.symbol)?;
    match try_multiple(alloc, &one, times)? {
        Some(part) => try_sum(alloc, sum, &part),
        None => Ok(None),
    }
}

/// The part of a form that is a multiple of a number, divided by it: the terms whose coefficients it divides.
fn share_of(alloc: Global, form: &Form, by: i64) -> Result<Option<Form>, AllocError> {
    let mut sum = Form::constant(alloc, 0);
    for term in form.terms() {
        if is_multiple(term.coefficient, by) {
            match with_term(alloc, &sum, term, by)? {
                Some(next) => sum = next,
                None => return Ok(None),
            }
        }
    }
    Ok(Some(sum))
}

/// The greatest size of a coefficient of a form that is below a number, if it is 2 at least.
fn next_below(form: &Form, below: i64) -> Option<i64> {
    let mut best = 1;
    for term in form.terms() {
        let size = term.coefficient.saturating_abs();
        if size < below && size > best {
            best = size;
        }
    }
    if best > 1 { Some(best) } else { None }
}

/// A number divides some coefficients of a form, and not all.
fn parts(form: &Form, by: i64) -> bool {
    !form
        .terms()
        .iter()
        .all(|term| is_multiple(term.coefficient, by))
}

/// Adds what the greatest coefficients of an equality multiply, both ways.
fn add_digits_of(alloc: Global, menu: &mut Menu, equality: &Form) {
    let mut below = i64::MAX;
    for _ in 0..WAYS {
        if let Some(by) = next_below(equality, below) {
            if parts(equality, by) {
                menu.add_both_made(alloc, share_of(alloc, equality, by));
            }
            below = by;
        }
    }
}

/// A form begins above 0, and is 0 by facts of these rising hashes.
fn is_equality(form: &Form, hashes: &[u64]) -> bool {
    match form.terms() {
        [first, _, _, ..] => {
            first.coefficient > 0 && hashes.binary_search(&hash_of_opposite(form)).is_ok()
        }
        _ => false,
    }
}

/// Adds what coefficients multiply in equalities of three terms and more, the last ones first. The hashes are those of the facts, and rise.
pub fn add_digits(alloc: Global, menu: &mut Menu, facts: &[Form], hashes: &[u64]) {
    let mut count = 0usize;
    for fact in facts.iter().rev() {
        if count < EQUALITIES && is_equality(fact, hashes) && next_below(fact, i64::MAX).is_some() {
            add_digits_of(alloc, menu, fact);
            count = count.saturating_add(1);
        }
    }
}
