//! Quotients for a form that a number is to divide.

use crate::equalities::Equalities;
use guesses::{Factors, is_same, new_symbol, one_of, try_difference, try_multiple, try_sum};
use linear::{Form, Symbol, Term};
use std::alloc::{AllocError, Global};

/// Quotients to be tried, the best first: of the form, where the modulus divides its coefficients; of the form less that of a
/// congruence that is known where the path begins, and its quotient, the new symbol of its number.
pub fn quotients(
    alloc: Global,
    form: &Form,
    modulus: u64,
    known: &[(u64, Form)],
) -> Result<Vec<Form>, AllocError> {
    let mut found = Vec::new(alloc);
    let Ok(divisor) = i64::try_from(modulus) else {
        return Ok(found);
    };
    push_divided(alloc, &mut found, form, divisor)?;
    push_known(alloc, &mut found, form, divisor, known)?;
    Ok(found)
}

/// Adds a quotient to those found, unless it is among them.
fn push_new(found: &mut Vec<Form>, form: Form) -> Result<(), AllocError> {
    for other in found.as_slice() {
        if is_same(other, &form) {
            return Ok(());
        }
    }
    found.push(form)?;
    Ok(())
}

/// The form divided, its constant rounded down, if its coefficients divide.
fn divided(alloc: Global, form: &Form, divisor: i64) -> Result<Option<Form>, AllocError> {
    if divisor < 1 {
        return Ok(None);
    }
    form.divided(alloc, divisor)
}

fn push_divided(
    alloc: Global,
    found: &mut Vec<Form>,
    form: &Form,
    divisor: i64,
) -> Result<(), AllocError> {
    match divided(alloc, form, divisor)? {
        Some(quotient) => push_new(found, quotient),
        None => Ok(()),
    }
}

/// Adds the quotients that the known congruences of the same modulus give.
fn push_known(
    alloc: Global,
    found: &mut Vec<Form>,
    form: &Form,
    divisor: i64,
    known: &[(u64, Form)],
) -> Result<(), AllocError> {
    let mut index = 0u32;
    for congruence in known {
        if congruence.0 == divisor.unsigned_abs() {
            push_beside(alloc, found, form, divisor, &congruence.1, index)?;
        }
        index = index.saturating_add(1);
    }
    Ok(())
}

/// Adds the quotient that one known congruence gives, whose own quotient is the new symbol of this index.
fn push_beside(
    alloc: Global,
    found: &mut Vec<Form>,
    form: &Form,
    divisor: i64,
    known: &Form,
    index: u32,
) -> Result<(), AllocError> {
    let Some(rest) = quotient_of_difference(alloc, form, known, divisor)? else {
        return Ok(());
    };
    let symbol = one_of(alloc, new_symbol(index))?;
    match try_sum(alloc, &rest, &symbol)? {
        Some(quotient) => push_new(found, quotient),
        None => Ok(()),
    }
}

/// The difference of two forms divided, if all of it divides.
fn quotient_of_difference(
    alloc: Global,
    form: &Form,
    known: &Form,
    divisor: i64,
) -> Result<Option<Form>, AllocError> {
    let Some(difference) = try_difference(alloc, form, known)? else {
        return Ok(None);
    };
    if difference
        .constant_part()
        .unsigned_abs()
        .checked_rem(divisor.unsigned_abs())
        != Some(0)
    {
        return Ok(None);
    }
    divided(alloc, &difference, divisor)
}

/// The quotient of the form with equalities put in; none where the modulus does not divide its coefficients.
pub fn quotient_reduced(
    alloc: Global,
    equalities: &Equalities,
    form: &Form,
    modulus: u64,
) -> Result<Option<Form>, AllocError> {
    let Ok(divisor) = i64::try_from(modulus) else {
        return Ok(None);
    };
    match equalities.reduce(alloc, form)? {
        Some(reduced) => divided(alloc, &reduced, divisor),
        None => Ok(None),
    }
}

/// Quotients to be tried by a form, the best first: of the form less a multiple that is known where the path begins, and its quotient, the
/// new symbol of its index; of the form itself; each also with the equalities of the facts put in.
pub fn quotients_by(
    alloc: Global,
    equalities: &Equalities,
    form: &Form,
    of: &Form,
    known: &[(u32, Form)],
) -> Result<Vec<Form>, AllocError> {
    let mut found = Vec::new(alloc);
    for multiple in known {
        if let Some(difference) = try_difference(alloc, form, &multiple.1)? {
            let quotient = one_of(alloc, new_symbol(multiple.0))?;
            push_by(alloc, &mut found, equalities, &difference, of, &quotient)?;
        }
    }
    let none = Form::constant(alloc, 0);
    push_by(alloc, &mut found, equalities, form, of, &none)?;
    Ok(found)
}

/// Adds a form and the quotient of another one, also of that one with equalities put in.
fn push_by(
    alloc: Global,
    found: &mut Vec<Form>,
    equalities: &Equalities,
    form: &Form,
    of: &Form,
    rest: &Form,
) -> Result<(), AllocError> {
    push_sum(alloc, found, divided_by(alloc, form, of)?, rest)?;
    match equalities.reduce(alloc, form)? {
        Some(reduced) => push_sum(alloc, found, divided_by(alloc, &reduced, of)?, rest),
        None => Ok(()),
    }
}

/// Adds the sum of a quotient, where there is one, and another form.
fn push_sum(
    alloc: Global,
    found: &mut Vec<Form>,
    quotient: Option<Form>,
    rest: &Form,
) -> Result<(), AllocError> {
    let Some(quotient) = quotient else {
        return Ok(());
    };
    match try_sum(alloc, &quotient, rest)? {
        Some(sum) => push_new(found, sum),
        None => Ok(()),
    }
}

/// The quotient of two forms, where the first is a multiple of the second, or each of its terms is one of the second's
/// only term.
fn divided_by(alloc: Global, form: &Form, of: &Form) -> Result<Option<Form>, AllocError> {
    if let Some(times) = times_of(form, of) {
        return Ok(Some(Form::constant(alloc, times)));
    }
    match of.terms() {
        [term] if of.constant_part() == 0 && form.constant_part() == 0 => {
            divided_by_term(alloc, form, *term)
        }
        _ => Ok(None),
    }
}

/// The number that a form is a multiple of another one by, as a whole.
fn times_of(form: &Form, of: &Form) -> Option<i64> {
    let first = of.terms().first()?;
    if form.terms().is_empty() && form.constant_part() == 0 {
        return Some(0);
    }
    let times = form
        .coefficient(first.symbol)
        .checked_div(first.coefficient)?;
    if form.terms().len() != of.terms().len()
        || form.constant_part() != of.constant_part().checked_mul(times)?
    {
        return None;
    }
    for term in of.terms() {
        if form.coefficient(term.symbol) != term.coefficient.checked_mul(times)? {
            return None;
        }
    }
    Some(times)
}

/// The sum of the quotients of each term of a form by another term.
fn divided_by_term(alloc: Global, form: &Form, of: Term) -> Result<Option<Form>, AllocError> {
    let mut sum = Form::constant(alloc, 0);
    for term in form.terms() {
        let Some(part) = term_by(alloc, *term, of)? else {
            return Ok(None);
        };
        let Some(next) = try_sum(alloc, &sum, &part)? else {
            return Ok(None);
        };
        sum = next;
    }
    Ok(Some(sum))
}

/// The quotient of two terms; none where the second does not divide the first.
fn term_by(alloc: Global, term: Term, of: Term) -> Result<Option<Form>, AllocError> {
    let (Some(times), Some(0)) = (
        term.coefficient.checked_div(of.coefficient),
        term.coefficient.checked_rem(of.coefficient),
    ) else {
        return Ok(None);
    };
    let Some(rest) = rest_of(term.symbol, of.symbol) else {
        return Ok(None);
    };
    if rest.first == 0 {
        return Ok(Some(Form::constant(alloc, times)));
    }
    let one = one_of(alloc, rest.symbol())?;
    try_multiple(alloc, &one, times)
}

/// The factors of a symbol but for those of another one, if it has them all.
fn rest_of(symbol: Symbol, of: Symbol) -> Option<Factors> {
    let mut rest = Factors::of(symbol);
    let gone = Factors::of(of);
    for factor in [gone.first, gone.second, gone.third] {
        if factor != 0 {
            if !rest.each().contains(&factor) {
                return None;
            }
            rest = rest.without(factor);
        }
    }
    Some(rest)
}
