//! Forms that are above 0 where a test goes one way.

use crate::affine::affine;
use crate::frame::Frame;
use crate::limits::{Limit, Side, limits_of};
use core_code::tree::{Relation, Term};
use guesses::{is_same, plus, try_difference, try_multiple};
use linear::Form;
use std::alloc::{AllocError, Global};

/// How many forms of one test are kept.
const ROOM: usize = 12;

/// A form that is above 0 where the test goes that way; a turn that changes the test's numbers by 1 changes it by the scale at least.
#[derive(Drop)]
pub struct TestForm {
    pub form: Form,
    pub scale: i64,
}

fn holds(forms: &[TestForm], form: &Form) -> bool {
    for other in forms {
        if is_same(&other.form, form) {
            return true;
        }
    }
    false
}

/// Takes up a form that is not constant and not there yet.
fn keep(forms: &mut Vec<TestForm>, form: Form, scale: i64) -> Result<(), AllocError> {
    if form.terms().is_empty() || forms.len() >= ROOM || holds(forms.as_slice(), &form) {
        return Ok(());
    }
    forms.push(TestForm { form, scale })?;
    Ok(())
}

/// The number to add to the difference of two limits, so that it is above 0 where the test goes that way.
fn added(scale: i64, strict: bool) -> Option<i64> {
    if strict {
        1i64.checked_sub(scale)
    } else {
        Some(1)
    }
}

/// `above` limits the greater one, `below` the smaller one.
fn gap(alloc: Global, above: &Limit, below: &Limit, more: i64) -> Result<Option<Form>, AllocError> {
    let Some(greater) = try_multiple(alloc, &above.form, below.factor)? else {
        return Ok(None);
    };
    let Some(smaller) = try_multiple(alloc, &below.form, above.factor)? else {
        return Ok(None);
    };
    match try_difference(alloc, &greater, &smaller)? {
        Some(difference) => plus(alloc, &difference, more),
        None => Ok(None),
    }
}

fn keep_gap(
    alloc: Global,
    above: &Limit,
    below: &Limit,
    strict: bool,
    forms: &mut Vec<TestForm>,
) -> Result<(), AllocError> {
    let Some(scale) = above.factor.checked_mul(below.factor) else {
        return Ok(());
    };
    let Some(more) = added(scale, strict) else {
        return Ok(());
    };
    match gap(alloc, above, below, more)? {
        Some(form) => keep(forms, form, scale),
        None => Ok(()),
    }
}

/// The first term is less than the second one, or at most that where it is not `strict`.
fn keep_less(
    alloc: Global,
    frame: &Frame,
    smaller: &Term,
    greater: &Term,
    strict: bool,
    forms: &mut Vec<TestForm>,
) -> Result<(), AllocError> {
    let above = limits_of(alloc, frame, greater, Side::Above)?;
    let below = limits_of(alloc, frame, smaller, Side::Below)?;
    for upper in above.as_slice() {
        for lower in below.as_slice() {
            keep_gap(alloc, upper, lower, strict, forms)?;
        }
    }
    Ok(())
}

/// The relation that holds exactly where the given one does not.
fn opposite(relation: Relation) -> Relation {
    match relation {
        Relation::Less => Relation::AtLeast,
        Relation::AtMost => Relation::More,
        Relation::More => Relation::AtMost,
        Relation::AtLeast => Relation::Less,
        Relation::Equal => Relation::Unequal,
        Relation::Unequal => Relation::Equal,
    }
}

fn keep_related(
    alloc: Global,
    frame: &Frame,
    relation: Relation,
    left: &Term,
    right: &Term,
    forms: &mut Vec<TestForm>,
) -> Result<(), AllocError> {
    match relation {
        Relation::Less => keep_less(alloc, frame, left, right, true, forms),
        Relation::AtMost => keep_less(alloc, frame, left, right, false, forms),
        Relation::More => keep_less(alloc, frame, right, left, true, forms),
        Relation::AtLeast => keep_less(alloc, frame, right, left, false, forms),
        Relation::Equal => Ok(()),
        Relation::Unequal => {
            keep_less(alloc, frame, right, left, true, forms)?;
            keep_less(alloc, frame, left, right, true, forms)
        }
    }
}

/// Keeps the form of a term that is a test by itself, where the test is true: not 0, it is taken to be above 0.
fn keep_number(
    alloc: Global,
    frame: &Frame,
    term: &Term,
    truth: bool,
    forms: &mut Vec<TestForm>,
) -> Result<(), AllocError> {
    if !truth {
        return Ok(());
    }
    match affine(alloc, frame, term)? {
        Some(form) => keep(forms, form, 1),
        None => Ok(()),
    }
}

/// Takes up the forms that are above 0 where the test is true, or false where `truth` is.
pub fn keep_test(
    alloc: Global,
    frame: &Frame,
    test: &Term,
    truth: bool,
    forms: &mut Vec<TestForm>,
) -> Result<(), AllocError> {
    match test {
        Term::Not { of } => keep_test(alloc, frame, of, !truth, forms),
        Term::Convert { of, .. } | Term::Within { index: of, .. } => {
            keep_test(alloc, frame, of, truth, forms)
        }
        Term::And { left, right } => {
            if !truth {
                return Ok(());
            }
            keep_test(alloc, frame, left, truth, forms)?;
            keep_test(alloc, frame, right, truth, forms)
        }
        Term::Or { left, right } => {
            if truth {
                return Ok(());
            }
            keep_test(alloc, frame, left, truth, forms)?;
            keep_test(alloc, frame, right, truth, forms)
        }
        Term::Compare {
            relation,
            left,
            right,
            ..
        } => {
            let relation = if truth {
                *relation
            } else {
                opposite(*relation)
            };
            keep_related(alloc, frame, relation, left, right, forms)
        }
        _ => keep_number(alloc, frame, test, truth, forms),
    }
}
