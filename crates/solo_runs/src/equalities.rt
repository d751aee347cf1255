//! Equalities that all states share which were seen at a place.

use crate::basis::Basis;
use crate::modular::{nearest, product, residue};
use crate::seen::State;
use guesses::{is_global, one_of, try_multiple, try_sum, value_in};
use linear::{Form, Symbol};
use std::alloc::{AllocError, Global};

/// The most terms that an equality has.
const TERMS: usize = 5;

/// The largest coefficient, in size, that an equality has.
const COEFFICIENT: u64 = 65_536;

/// The largest constant, in size, that an equality has.
const CONSTANT: u64 = 0x2_0000_0000;

/// The largest number by which weights are multiplied to make them whole.
const SCALE: u64 = 4_096;

fn value_of(values: &[(Symbol, i64)], symbol: Symbol) -> Option<i64> {
    for entry in values {
        if entry.0 == symbol {
            return Some(entry.1);
        }
    }
    None
}

fn have_value(states: &[State], place: usize, symbol: Symbol) -> bool {
    for state in states {
        if state.place == place && value_of(state.values.as_slice(), symbol).is_none() {
            return false;
        }
    }
    true
}

/// The symbols that have values in all states of a place.
fn symbols_of(alloc: Global, states: &[State], place: usize) -> Result<Vec<Symbol>, AllocError> {
    let mut symbols = Vec::new(alloc);
    for state in states {
        if state.place == place {
            for entry in state.values.iter() {
                if have_value(states, place, entry.0) {
                    symbols.push(entry.0)?;
                }
            }
            return Ok(symbols);
        }
    }
    Ok(symbols)
}

/// A 1 and the values of the symbols in a state.
fn row_of(alloc: Global, state: &State, symbols: &[Symbol]) -> Result<Vec<u64>, AllocError> {
    let mut row = Vec::new(alloc);
    row.push(1)?;
    for symbol in symbols {
        let value = value_of(state.values.as_slice(), *symbol).unwrap_or(0);
        row.push(residue(value))?;
    }
    Ok(row)
}

fn basis_of(
    alloc: Global,
    states: &[State],
    place: usize,
    symbols: &[Symbol],
) -> Result<Basis, AllocError> {
    let mut basis = Basis::new(alloc);
    for state in states {
        if state.place == place {
            let row = row_of(alloc, state, symbols)?;
            basis.enter(row)?;
        }
    }
    Ok(basis)
}

/// The weight so many times is a small number; column 0 is that of the constant.
fn is_small(weight: &(usize, u64), scale: u64) -> bool {
    let size = nearest(product(weight.1, scale)).unsigned_abs();
    if weight.0 == 0 {
        size < CONSTANT
    } else {
        size <= COEFFICIENT
    }
}

fn are_small(weights: &[(usize, u64)], scale: u64) -> bool {
    for weight in weights {
        if !is_small(weight, scale) {
            return false;
        }
    }
    true
}

/// The least number that makes all weights small whole numbers.
fn scale_of(weights: &[(usize, u64)]) -> Option<u64> {
    for scale in 1..=SCALE {
        if are_small(weights, scale) {
            return Some(scale);
        }
    }
    None
}

/// The form of a column's weight: so many times its symbol, or the constant; none where a number is too large.
fn part_of(
    alloc: Global,
    weight: &(usize, u64),
    scale: u64,
    symbols: &[Symbol],
) -> Result<Option<Form>, AllocError> {
    let coefficient = nearest(product(weight.1, scale));
    let Some(column) = weight.0.checked_sub(1) else {
        return Ok(Some(Form::constant(alloc, coefficient)));
    };
    let Some(symbol) = symbols.get(column) else {
        return Ok(None);
    };
    let once = one_of(alloc, *symbol)?;
    try_multiple(alloc, &once, coefficient)
}

fn sum_with(alloc: Global, sum: Form, part: Option<Form>) -> Result<Option<Form>, AllocError> {
    match part {
        None => Ok(None),
        Some(part) => try_sum(alloc, &sum, &part),
    }
}

fn form_of(
    alloc: Global,
    weights: &[(usize, u64)],
    scale: u64,
    symbols: &[Symbol],
) -> Result<Option<Form>, AllocError> {
    let mut sum = Form::constant(alloc, 0);
    for weight in weights {
        let part = part_of(alloc, weight, scale, symbols)?;
        let Some(more) = sum_with(alloc, sum, part)? else {
            return Ok(None);
        };
        sum = more;
    }
    Ok(Some(sum))
}

/// The form is of few symbols, one of which changes on the way.
fn is_fit(form: &Form) -> bool {
    if form.terms().len() > TERMS {
        return false;
    }
    for term in form.terms() {
        if !is_global(term.symbol) {
            return true;
        }
    }
    false
}

fn is_zero_in(states: &[State], place: usize, form: &Form) -> bool {
    for state in states {
        if state.place == place && value_in(form, state.values.as_slice()) != Some(0) {
            return false;
        }
    }
    true
}

/// The form that is 0 by the dependency of a column on earlier ones; none where there is none, or its numbers are too many or too large.
fn equality_of(
    alloc: Global,
    basis: &Basis,
    column: usize,
    symbols: &[Symbol],
) -> Result<Option<Form>, AllocError> {
    let Some(weights) = basis.dependency(alloc, column)? else {
        return Ok(None);
    };
    if weights.len() > TERMS + 1 {
        return Ok(None);
    }
    let Some(scale) = scale_of(weights.as_slice()) else {
        return Ok(None);
    };
    form_of(alloc, weights.as_slice(), scale, symbols)
}

/// Forms that are 0 in all states of a place: for each symbol that depends on earlier ones, one.
pub fn equalities(alloc: Global, states: &[State], place: usize) -> Result<Vec<Form>, AllocError> {
    let symbols = symbols_of(alloc, states, place)?;
    let basis = basis_of(alloc, states, place, symbols.as_slice())?;
    let mut found = Vec::new(alloc);
    for column in 0..symbols.len() {
        if let Some(form) = equality_of(alloc, &basis, column + 1, symbols.as_slice())? {
            if is_fit(&form) && is_zero_in(states, place, &form) {
                found.push(form)?;
            }
        }
    }
    Ok(found)
}
