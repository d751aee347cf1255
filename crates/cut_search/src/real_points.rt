//! Points at which products are the products of their factors: nothing refutes facts that such a point meets.

use crate::answer::{Answer, Point};
use crate::deciding::decide_soon;
use crate::monomials::products_of;
use crate::point::meets;
use crate::replacing::{Replacement, replaced_all};
use crate::stop::Stop;
use guesses::{Factors, copied, has_product, is_launch, is_product, plain};
use linear::{Form, Symbol};
use std::alloc::{AllocError, Global};

/// The value of a symbol at a point, 0 where it has none.
fn value_at(point: &[(Symbol, i64)], symbol: Symbol) -> i64 {
    for entry in point {
        if entry.0 == symbol {
            return entry.1;
        }
    }
    0
}

/// The value of a factor at a point, 1 in the place of one that is not there.
fn value_of_factor(point: &[(Symbol, i64)], factor: u64) -> i64 {
    if factor == 0 {
        1
    } else {
        value_at(point, plain(factor))
    }
}

/// The product of the values of a product's factors, if no number on the way leaves `i64`.
fn value_of_product(point: &[(Symbol, i64)], product: Symbol) -> Option<i64> {
    let factors = Factors::of(product);
    let first = value_of_factor(point, factors.first);
    let second = value_of_factor(point, factors.second);
    let third = value_of_factor(point, factors.third);
    match first.checked_mul(second) {
        Some(both) => both.checked_mul(third),
        None => None,
    }
}

/// The point with the value of each product that facts have; none where a number leaves `i64`.
pub fn with_values(
    alloc: Global,
    facts: &[Form],
    point: &[(Symbol, i64)],
) -> Result<Option<Point>, AllocError> {
    let mut all = Vec::new(alloc);
    for entry in point {
        if !is_product(entry.0) {
            all.push(*entry)?;
        }
    }
    for product in products_of(alloc, facts)?.as_slice() {
        let Some(value) = value_of_product(point, *product) else {
            return Ok(None);
        };
        all.push((*product, value))?;
    }
    Ok(Some(all))
}

/// A symbol has a value that is put in its place.
fn is_fixed(fixed: &[Replacement], symbol: Symbol) -> bool {
    fixed.iter().any(|other| other.symbol == symbol)
}

/// A factor of a product that is to get a value, one of the launch before others; none where at most one has none.
fn next_to_fix(fixed: &[Replacement], product: Symbol) -> Option<Symbol> {
    let Factors {
        first,
        second,
        third,
    } = Factors::of(product);
    let mut count = 0u32;
    let mut best = None;
    for factor in [first, second, third] {
        let symbol = plain(factor);
        if factor != 0 && !is_fixed(fixed, symbol) {
            count = count.saturating_add(1);
            if best.is_none() || is_launch(symbol) {
                best = Some(symbol);
            }
        }
    }
    if count > 1 { best } else { None }
}

/// Values, as at a point, for so many symbols that no product has two others.
fn fixed_of(
    alloc: Global,
    facts: &[Form],
    point: &[(Symbol, i64)],
) -> Result<Vec<Replacement>, AllocError> {
    let mut fixed = Vec::new(alloc);
    for product in products_of(alloc, facts)?.as_slice() {
        for _ in 0..2 {
            if let Some(symbol) = next_to_fix(fixed.as_slice(), *product) {
                let value = Form::constant(alloc, value_at(point, symbol));
                fixed.push(Replacement { symbol, value })?;
            }
        }
    }
    Ok(fixed)
}

/// Facts with values in the place of symbols.
fn with_fixed(
    alloc: Global,
    facts: &[Form],
    fixed: &[Replacement],
) -> Result<Vec<Form>, AllocError> {
    let mut found = Vec::new(alloc);
    for fact in facts {
        found.push(replaced_all(alloc, fact, fixed)?)?;
    }
    Ok(found)
}

/// Adds the values that were put in the place of symbols to a point.
fn add_fixed(point: &mut Point, fixed: &[Replacement]) -> Result<(), AllocError> {
    for one in fixed {
        point.push((one.symbol, one.value.constant_part()))?;
    }
    Ok(())
}

/// A point that meets facts as they are, with the values of products.
pub fn met_by(
    alloc: Global,
    facts: &[Form],
    point: &[(Symbol, i64)],
) -> Result<Option<Point>, AllocError> {
    match with_values(alloc, facts, point)? {
        Some(all) if meets(facts, all.as_slice()) => Ok(Some(all)),
        _ => Ok(None),
    }
}

/// Whole numbers that are found soon for facts; none where there are none, or none are found.
fn found_soon(alloc: Global, facts: &[Form]) -> Result<Option<Point>, AllocError> {
    match decide_soon(alloc, facts) {
        Ok(Answer::Model(point)) => Ok(Some(point)),
        Err(Stop::Memory) => Err(AllocError),
        _ => Ok(None),
    }
}

/// A point that meets facts, where so many symbols have the values of another point that the products are linear.
fn real_beside(
    alloc: Global,
    facts: &[Form],
    beside: &[(Symbol, i64)],
) -> Result<Option<Point>, AllocError> {
    let fixed = fixed_of(alloc, facts, beside)?;
    let linear = with_fixed(alloc, facts, fixed.as_slice())?;
    match found_soon(alloc, linear.as_slice())? {
        Some(mut point) => {
            add_fixed(&mut point, fixed.as_slice())?;
            met_by(alloc, facts, point.as_slice())
        }
        None => Ok(None),
    }
}

/// The facts without products.
fn without_products(alloc: Global, facts: &[Form]) -> Result<Vec<Form>, AllocError> {
    let mut found = Vec::new(alloc);
    for fact in facts {
        if !has_product(fact) {
            found.push(copied(alloc, fact)?)?;
        }
    }
    Ok(found)
}

/// A point that meets facts, products being products, near the one that an outcome has; none where none is found soon.
pub fn real_point(
    alloc: Global,
    facts: &[Form],
    outcome: &Result<Answer, Stop>,
) -> Result<Option<Point>, AllocError> {
    if let Ok(Answer::Model(point)) = outcome {
        return real_beside(alloc, facts, point.as_slice());
    }
    let plain_facts = without_products(alloc, facts)?;
    match found_soon(alloc, plain_facts.as_slice())? {
        Some(point) => real_beside(alloc, facts, point.as_slice()),
        None => Ok(None),
    }
}
