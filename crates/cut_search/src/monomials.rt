//! Products of symbols that may stand in facts.

use crate::hashes::{hash_of_opposite, hashes_of};
use guesses::{Factors, has_product, is_product, plain, times};
use linear::{Form, Symbol};
use std::alloc::{AllocError, Global};

/// So many products are closed under equalities, about and at most.
const MOST: usize = 200;

/// So many products are at hand with one symbol more, at most.
const WIDE: usize = 160;

/// Two symbols that are equal, or stand in one short fact.
#[derive(Clone, Copy, PartialEq, Eq, PartialOrd, Ord)]
pub struct Couple {
    pub one: Symbol,
    pub other: Symbol,
}

/// One of the forms has a product of symbols.
pub fn have_products(forms: &[Form]) -> bool {
    for form in forms {
        if has_product(form) {
            return true;
        }
    }
    false
}

/// Puts a symbol in its place among rising ones, unless it is there.
fn put(all: &mut Vec<Symbol>, symbol: Symbol) -> Result<(), AllocError> {
    match all.binary_search(&symbol) {
        Ok(_) => Ok(()),
        Err(place) => {
            let place = place.min(all.len());
            all.insert(place, symbol)?;
            Ok(())
        }
    }
}

/// Puts the products that a form has among others.
pub fn put_products(all: &mut Vec<Symbol>, form: &Form) -> Result<(), AllocError> {
    for term in form.terms() {
        if is_product(term.symbol) {
            put(all, term.symbol)?;
        }
    }
    Ok(())
}

/// The products that stand in forms, in rising order.
pub fn products_of(alloc: Global, forms: &[Form]) -> Result<Vec<Symbol>, AllocError> {
    let mut all = Vec::new(alloc);
    for form in forms {
        put_products(&mut all, form)?;
    }
    Ok(all)
}

/// The symbols of a form of two terms that are no products, of which one is a multiple of the other where the form is 0.
fn couple_of(form: &Form) -> Option<Couple> {
    let terms = form.terms();
    if terms.len() != 2 || form.constant_part() != 0 {
        return None;
    }
    let (one, other) = (terms.first()?, terms.get(1)?);
    let is_one = one.coefficient == 1 || other.coefficient == 1;
    let is_apart = (one.coefficient > 0) != (other.coefficient > 0);
    if is_product(one.symbol) || is_product(other.symbol) || !is_one || !is_apart {
        return None;
    }
    Some(Couple {
        one: one.symbol,
        other: other.symbol,
    })
}

/// The symbols that equalities of two terms make multiples of one another.
pub fn equal_couples(alloc: Global, facts: &[Form]) -> Result<Vec<Couple>, AllocError> {
    let mut hashes = hashes_of(alloc, facts)?;
    hashes.sort_unstable();
    let mut found = Vec::new(alloc);
    for fact in facts {
        if let Some(couple) = couple_of(fact) {
            if hashes.binary_search(&hash_of_opposite(fact)).is_ok() {
                found.push(couple)?;
            }
        }
    }
    Ok(found)
}

/// Puts the product in which a factor is replaced among others.
fn put_replaced(
    all: &mut Vec<Symbol>,
    factors: Factors,
    from: Symbol,
    to: Symbol,
) -> Result<(), AllocError> {
    let factor = from.number.saturating_add(1);
    if !factors.each().contains(&factor) {
        return Ok(());
    }
    match times(factors.without(factor).symbol(), to) {
        Some(symbol) => put(all, symbol),
        None => Ok(()),
    }
}

/// Puts the products that a couple gives of one among others.
fn put_couple(all: &mut Vec<Symbol>, symbol: Symbol, couple: Couple) -> Result<(), AllocError> {
    let factors = Factors::of(symbol);
    put_replaced(all, factors, couple.one, couple.other)?;
    put_replaced(all, factors, couple.other, couple.one)
}

/// Puts the products that couples give of one among others.
fn put_couples(
    all: &mut Vec<Symbol>,
    symbol: Symbol,
    couples: &[Couple],
) -> Result<(), AllocError> {
    for couple in couples {
        put_couple(all, symbol, *couple)?;
    }
    Ok(())
}

/// The products, and those that come of them where one symbol of a couple is put in the place of the other.
pub fn replaced(
    alloc: Global,
    products: &[Symbol],
    couples: &[Couple],
) -> Result<Vec<Symbol>, AllocError> {
    let mut all = Vec::from_slice(alloc, products)?;
    for symbol in products {
        put_couples(&mut all, *symbol, couples)?;
    }
    Ok(all)
}

/// The products with those that equalities give, in two rounds.
pub fn closed(
    alloc: Global,
    products: Vec<Symbol>,
    couples: &[Couple],
) -> Result<Vec<Symbol>, AllocError> {
    let mut all = products;
    for _ in 0..2 {
        if couples.is_empty() || all.len() > MOST {
            return Ok(all);
        }
        all = replaced(alloc, all.as_slice(), couples)?;
    }
    Ok(all)
}

/// Adds the two ways of parting a product at one of its factors.
fn add_parting(pairs: &mut Vec<Couple>, factors: Factors, factor: u64) -> Result<(), AllocError> {
    if factor == 0 {
        return Ok(());
    }
    let one = plain(factor);
    let other = factors.without(factor).symbol();
    pairs.push(Couple { one, other })?;
    pairs.push(Couple {
        one: other,
        other: one,
    })?;
    Ok(())
}

/// Of each symbol with which others it makes one of the products, in rising order.
pub fn partings(alloc: Global, products: &[Symbol]) -> Result<Vec<Couple>, AllocError> {
    let mut pairs = Vec::new(alloc);
    for symbol in products {
        let factors = Factors::of(*symbol);
        for factor in factors.each() {
            add_parting(&mut pairs, factors, factor)?;
        }
    }
    pairs.sort_unstable();
    pairs.dedup();
    Ok(pairs)
}

/// Adds the pairs of symbols of a short fact without products.
fn add_near(couples: &mut Vec<Couple>, fact: &Form) -> Result<(), AllocError> {
    let terms = fact.terms();
    if terms.len() < 2 || terms.len() > 3 || has_product(fact) {
        return Ok(());
    }
    for (place, one) in terms.iter().enumerate() {
        for other in terms.iter().skip(place.saturating_add(1)) {
            couples.push(Couple {
                one: one.symbol,
                other: other.symbol,
            })?;
        }
    }
    Ok(())
}

/// The products, and those in which one symbol is another one that stands beside it in a short fact; the same where those are too many.
pub fn widened(
    alloc: Global,
    products: Vec<Symbol>,
    facts: &[Form],
) -> Result<Vec<Symbol>, AllocError> {
    let mut near = Vec::new(alloc);
    for fact in facts {
        add_near(&mut near, fact)?;
    }
    near.sort_unstable();
    near.dedup();
    let wide = replaced(alloc, products.as_slice(), near.as_slice())?;
    if wide.len() > WIDE {
        return Ok(products);
    }
    Ok(wide)
}
