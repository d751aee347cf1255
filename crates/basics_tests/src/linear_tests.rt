//! Sums, multiples and substitutions, also at the ends of `i64`.

use linear::{Form, LinearError, Symbol, Term};
use std::alloc::Global;
use std::test::Fail;

fn weighted(alloc: Global, parts: &[(Symbol, i64)], constant: i64) -> Result<Form, LinearError> {
    let mut form = Form::constant(alloc, constant);
    for part in parts {
        let scaled = Form::symbol(alloc, part.0)?.times(alloc, part.1)?;
        form = form.add(alloc, &scaled)?;
    }
    Ok(form)
}

fn is_term(term: Option<&Term>, told: (u64, i64)) -> bool {
    match term {
        Some(term) => term.symbol.number == told.0 && term.coefficient == told.1,
        None => false,
    }
}

fn is_sum(form: &Form, terms: &[(u64, i64)], constant: i64) -> bool {
    if form.constant_part() != constant || form.terms().len() != terms.len() {
        return false;
    }
    for i in 0..terms.len() {
        if !is_term(form.terms().get(i), terms[i]) {
            return false;
        }
    }
    true
}

fn gives(found: Result<Form, LinearError>, terms: &[(u64, i64)], constant: i64) -> bool {
    match found {
        Ok(form) => is_sum(&form, terms, constant),
        Err(_) => false,
    }
}

/// The number under which a form is refused, and 0 where it is not.
fn refusal(found: Result<Form, LinearError>) -> u32 {
    match found {
        Ok(_) => 0,
        Err(error) => error.number(),
    }
}

fn constant_of(found: Result<Form, LinearError>) -> Option<i64> {
    match found {
        Ok(form) => Some(form.constant_part()),
        Err(_) => None,
    }
}

const X: Symbol = Symbol { number: 4 };

const Y: Symbol = Symbol { number: 2 };

#[test]
fn terms_are_in_order(rt: HostRuntime) {
    let sum = weighted(rt.alloc(), &[(X, 6), (Y, 1)], 0);
    assert!(rt; gives(sum, &[(2, 1), (4, 6)], 0));
}

fn third(alloc: Global, parts: &[(Symbol, i64)]) -> Result<Option<Form>, LinearError> {
    Ok(weighted(alloc, parts, 0)?.divided(alloc, 3)?)
}

fn half(alloc: Global, parts: &[(Symbol, i64)]) -> Result<Option<Form>, LinearError> {
    Ok(weighted(alloc, parts, 0)?.divided(alloc, 2)?)
}

/// Whether a quotient is one term; none where there is no quotient.
fn is_term_alone(found: Result<Option<Form>, LinearError>, told: (u64, i64)) -> Option<bool> {
    match found {
        Ok(Some(quotient)) => Some(is_sum(&quotient, &[told], 0)),
        Ok(None) | Err(_) => None,
    }
}

#[test]
fn quotients_are_whole(rt: HostRuntime) {
    let third = is_term_alone(third(rt.alloc(), &[(X, 6)]), (4, 2));
    let half = is_term_alone(half(rt.alloc(), &[(X, 6), (Y, 1)]), (4, 3));
    assert_eq!(rt; (third, half), (Some(true), None));
}

fn nothing(alloc: Global) -> Result<Form, LinearError> {
    let x = Form::symbol(alloc, X)?;
    Ok(x.sub(alloc, &x)?.copy(alloc)?)
}

/// `3*x + 2*y + 1` with `2*y - 5` in place of `x`.
fn replaced(alloc: Global) -> Result<Form, LinearError> {
    let form = weighted(alloc, &[(X, 3), (Y, 2)], 1)?;
    form.substitute(alloc, X, &weighted(alloc, &[(Y, 2)], -5)?)
}

/// Whether `x` is gone, and the rest is as told.
fn is_without_x(found: Result<Form, LinearError>) -> bool {
    match found {
        Ok(form) => is_sum(&form, &[(2, 8)], -14) && form.coefficient(X) == 0,
        Err(_) => false,
    }
}

#[test]
fn forms_are_subtracted_and_substituted(rt: HostRuntime) {
    let is_nothing = gives(nothing(rt.alloc()), &[], 0);
    let is_replaced = is_without_x(replaced(rt.alloc()));
    assert!(rt; is_nothing && is_replaced);
}

/// `2*x - 9223372036854775807` with a number in place of `x`.
fn at(alloc: Global, number: i64) -> Result<Form, LinearError> {
    let form = weighted(alloc, &[(X, 2)], -i64::MAX)?;
    form.substitute(alloc, X, &Form::constant(alloc, number))
}

fn less(alloc: Global, number: i64, other: i64) -> Result<Form, LinearError> {
    Form::constant(alloc, number).sub(alloc, &Form::constant(alloc, other))
}

/// Numbers on the way may leave `i64`, and those at the end may not.
#[test]
fn numbers_at_the_end_are_of_64_bits(rt: HostRuntime) {
    let alloc = rt.alloc();
    let most = Form::constant(alloc, i64::MAX);
    let kept = [
        constant_of(at(alloc, i64::MAX)),
        constant_of(less(alloc, -1, i64::MIN)),
    ];
    let refused = [
        refusal(most.times(alloc, 2)),
        refusal(most.add(alloc, &Form::constant(alloc, 1))),
        refusal(at(alloc, i64::MIN)),
    ];
    assert_eq!(rt; (kept, refused), ([Some(i64::MAX); 2], [54; 3]));
}
