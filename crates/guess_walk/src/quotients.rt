//! Congruences, shown from both sides with one quotient.

use cut_proof::Derivation;
use cut_search::{Answer, Point, Questions, quotients};
use guesses::{plus, try_difference, try_multiple, try_product};
use linear::Form;
use std::alloc::{AllocError, Global};

/// A quotient with what shows that the form is as often the modulus at least, and at most.
#[derive(Drop)]
pub struct Shown {
    pub quotient: Form,
    pub least: Derivation,
    pub most: Derivation,
}

/// Whether a number divides a form, by facts (without a denial), with the congruences known where the path begins.
#[derive(Clone, Copy)]
pub struct Division<'a> {
    pub facts: &'a [Form],
    pub form: &'a Form,
    pub modulus: u64,
    pub known: &'a [(u64, Form)],
}

/// The denial that a form is at least 0; none where a number is too large.
fn denial_of(alloc: Global, form: &Form) -> Result<Option<Form>, AllocError> {
    match try_multiple(alloc, form, -1)? {
        Some(negative) => plus(alloc, &negative, -1),
        None => Ok(None),
    }
}

/// A derivation that the form is at least 0; a point where it is not goes to the points.
fn side(
    alloc: Global,
    facts: &[Form],
    form: &Form,
    questions: &mut Questions<'_>,
    points: &mut Vec<Point>,
) -> Result<Option<Derivation>, AllocError> {
    let Some(denial) = denial_of(alloc, form)? else {
        return Ok(None);
    };
    match questions.ask_denied(alloc, facts, denial)? {
        Answer::Proof(derivation) => Ok(Some(derivation)),
        Answer::Model(point) => {
            points.push(point)?;
            Ok(None)
        }
        Answer::Undecided => Ok(None),
    }
}

/// Derivations that a form is at least and at most the modulus times this quotient, by the form's rest; none where one is not found.
fn tried(
    alloc: Global,
    facts: &[Form],
    rest: &Form,
    quotient: Form,
    questions: &mut Questions<'_>,
    points: &mut Vec<Point>,
) -> Result<Option<Shown>, AllocError> {
    let Some(least) = side(alloc, facts, rest, questions, points)? else {
        return Ok(None);
    };
    let Some(negative) = try_multiple(alloc, rest, -1)? else {
        return Ok(None);
    };
    let Some(most) = side(alloc, facts, &negative, questions, points)? else {
        return Ok(None);
    };
    Ok(Some(Shown {
        quotient,
        least,
        most,
    }))
}

/// The form less so many times the quotient.
fn remainder(
    alloc: Global,
    form: &Form,
    modulus: u64,
    quotient: &Form,
) -> Result<Option<Form>, AllocError> {
    if modulus > i64::MAX as u64 {
        return Ok(None);
    }
    let Some(product) = try_multiple(alloc, quotient, modulus as i64)? else {
        return Ok(None);
    };
    try_difference(alloc, form, &product)
}

/// Derivations that a number divides a form, by the given facts (without a denial) and the congruences known where the path begins; none
/// where the search finds none.
pub fn both_sides(
    alloc: Global,
    division: Division<'_>,
    questions: &mut Questions<'_>,
    points: &mut Vec<Point>,
) -> Result<Option<Shown>, AllocError> {
    let Division {
        facts,
        form,
        modulus,
        known,
    } = division;
    for quotient in quotients(alloc, form, modulus, known)? {
        let found = tried_by(alloc, division, quotient, questions, points)?;
        if found.is_some() {
            return Ok(found);
        }
    }
    match questions.quotient(alloc, facts, form, modulus)? {
        Some(quotient) => tried_by(alloc, division, quotient, questions, points),
        None => Ok(None),
    }
}

/// Derivations that a number divides a form this often; none where one is not found.
fn tried_by(
    alloc: Global,
    division: Division<'_>,
    quotient: Form,
    questions: &mut Questions<'_>,
    points: &mut Vec<Point>,
) -> Result<Option<Shown>, AllocError> {
    match remainder(alloc, division.form, division.modulus, &quotient)? {
        Some(rest) => tried(alloc, division.facts, &rest, quotient, questions, points),
        None => Ok(None),
    }
}

/// Whether a form is a multiple of another one, by facts (without a denial), with the multiples of that one known where the path begins,
/// each with the index of its quotient among new symbols.
#[derive(Clone, Copy)]
pub struct FormDivision<'a> {
    pub facts: &'a [Form],
    pub form: &'a Form,
    pub of: &'a Form,
    pub known: &'a [(u32, Form)],
}

/// The form less the quotient times another one.
fn remainder_by(
    alloc: Global,
    form: &Form,
    of: &Form,
    quotient: &Form,
) -> Result<Option<Form>, AllocError> {
    let Some(product) = try_product(alloc, of, quotient)? else {
        return Ok(None);
    };
    try_difference(alloc, form, &product)
}

/// Derivations that a form is a multiple of another one, by the given facts (without a denial) and the multiples known where the path
/// begins; none where the search finds none.
pub fn both_sides_by(
    alloc: Global,
    division: FormDivision<'_>,
    questions: &mut Questions<'_>,
    points: &mut Vec<Point>,
) -> Result<Option<Shown>, AllocError> {
    let FormDivision {
        facts,
        form,
        of,
        known,
    } = division;
    let tries = questions.quotients_by(alloc, facts, form, of, known)?;
    for quotient in tries {
        let Some(rest) = remainder_by(alloc, form, of, &quotient)? else {
            continue;
        };
        let found = tried(alloc, facts, &rest, quotient, questions, points)?;
        if found.is_some() {
            return Ok(found);
        }
    }
    Ok(None)
}
