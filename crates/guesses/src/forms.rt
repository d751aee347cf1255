//! Forms, where a number that is too large only means that there is none.

use crate::factors::{Factors, is_product, plain};
use linear::{Form, LinearError, Symbol};
use std::alloc::{AllocError, Global};

fn some(given: Result<Form, LinearError>) -> Result<Option<Form>, AllocError> {
    match given {
        Ok(form) => Ok(Some(form)),
        Err(LinearError::TooLarge) => Ok(None),
        Err(LinearError::Memory) => Err(AllocError),
    }
}

/// The form that is a symbol, once.
pub fn one_of(alloc: Global, symbol: Symbol) -> Result<Form, AllocError> {
    Form::symbol(alloc, symbol)
}

/// A copy of a form.
pub fn copied(alloc: Global, form: &Form) -> Result<Form, AllocError> {
    form.copy(alloc)
}

/// The sum of two forms; none where a number is too large for `i64`.
pub fn try_sum(alloc: Global, left: &Form, right: &Form) -> Result<Option<Form>, AllocError> {
    some(left.add(alloc, right))
}

/// The first form less the second one; none where a number is too large for `i64`.
pub fn try_difference(
    alloc: Global,
    left: &Form,
    right: &Form,
) -> Result<Option<Form>, AllocError> {
    some(left.sub(alloc, right))
}

/// The form so many times, if it is of `i64`.
pub fn try_multiple(alloc: Global, form: &Form, factor: i64) -> Result<Option<Form>, AllocError> {
    some(form.times(alloc, factor))
}

/// The form and a number, if it is of `i64`.
pub fn plus(alloc: Global, form: &Form, number: i64) -> Result<Option<Form>, AllocError> {
    let number = Form::constant(alloc, number);
    some(form.add(alloc, &number))
}

/// A form has a product of symbols.
pub fn has_product(form: &Form) -> bool {
    for term in form.terms() {
        if is_product(term.symbol) {
            return true;
        }
    }
    false
}

/// A form has a symbol, or a product of it.
pub fn speaks_of(form: &Form, symbol: Symbol) -> bool {
    for term in form.terms() {
        if Factors::of(term.symbol).symbols().contains(&Some(symbol)) {
            return true;
        }
    }
    false
}

/// Two forms have the same constant and the same terms, in their order.
pub fn is_same(left: &Form, right: &Form) -> bool {
    left.constant_part() == right.constant_part() && left.terms() == right.terms()
}

/// The greatest common divisor of two numbers, by Euclid's algorithm, which takes fewer than 128 steps for numbers of 64 bits.
pub fn divisor_of(left: u64, right: u64) -> u64 {
    let mut left = left;
    let mut right = right;
    for _ in 0..128 {
        if right == 0 {
            return left;
        }
        let rest = left % right;
        left = right;
        right = rest;
    }
    left
}

/// The greatest number that divides all coefficients; 0 of a constant.
pub fn common_divisor(form: &Form) -> u64 {
    let mut found = 0;
    for term in form.terms() {
        found = divisor_of(found, term.coefficient.unsigned_abs());
    }
    found
}

/// A fact with its coefficients' common divisor taken out; nothing of a constant.
pub fn reduced(alloc: Global, fact: &Form) -> Result<Option<Form>, AllocError> {
    let divisor = common_divisor(fact);
    if divisor == 0 || divisor > i64::MAX as u64 {
        return Ok(None);
    }
    fact.divided(alloc, divisor as i64)
}

/// The product of two forms, if there is one.
pub fn try_product(alloc: Global, left: &Form, right: &Form) -> Result<Option<Form>, AllocError> {
    left.product(alloc, right)
}

fn value_of(symbol: Symbol, values: &[(Symbol, i64)]) -> Option<i64> {
    for entry in values {
        if entry.0 == symbol {
            return Some(entry.1);
        }
    }
    None
}

/// The value of a factor, 1 in the place of one that is not there.
fn value_of_factor(factor: u64, values: &[(Symbol, i64)]) -> Option<i64> {
    if factor == 0 {
        return Some(1);
    }
    value_of(plain(factor), values)
}

/// The symbol's value, that of a product by its factors, if they have one and no number on the way leaves `i64`.
fn value_of_symbol(symbol: Symbol, values: &[(Symbol, i64)]) -> Option<i64> {
    if !is_product(symbol) {
        return value_of(symbol, values);
    }
    let factors = Factors::of(symbol);
    let first = value_of_factor(factors.first, values)?;
    let second = value_of_factor(factors.second, values)?;
    let third = value_of_factor(factors.third, values)?;
    first.checked_mul(second)?.checked_mul(third)
}

/// The form's value, if each of its symbols has one and no number on the way leaves `i64`.
pub fn value_in(form: &Form, values: &[(Symbol, i64)]) -> Option<i64> {
    let mut sum = form.constant_part();
    for term in form.terms() {
        let value = value_of_symbol(term.symbol, values)?;
        let product = term.coefficient.checked_mul(value)?;
        sum = sum.checked_add(product)?;
    }
    Some(sum)
}
