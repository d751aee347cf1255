//! Which facts are multiplied: those whose product has no symbol but those at hand.

use crate::hashes::{hash_of_opposite, hashes_of};
use crate::monomials::Couple;
use linear::{Form, Symbol};
use std::alloc::{AllocError, Global};

/// Facts with such a constant, mostly ends of a type's range, are not multiplied: what comes of them leaves `i64` soon.
pub const LARGE: u64 = 1 << 31;

/// At first facts with such a constant, mostly ends of the ranges of arguments and counts, are not multiplied either: few derivations want
/// them, and their coefficients, multiplied with one another, soon leave `i64` too.
pub const MIDDLE: u64 = 1 << 6;

/// Facts are left out at first that may be multiplied later.
pub fn leave_some(facts: &[Form]) -> bool {
    for fact in facts {
        let constant = fact.constant_part().unsigned_abs();
        if constant >= MIDDLE && constant < LARGE {
            return true;
        }
    }
    false
}

/// The fact of a number, or the product of the facts of two numbers, where the second one is not 0. Lemmas count on behind the facts.
#[derive(Clone, Copy)]
pub struct Source {
    pub first: u32,
    pub second: u32,
}

/// A fact that may be a factor, by its number from 1: its symbols, and those with which each of its symbols makes a product at hand.
#[derive(Drop)]
pub struct Factor {
    pub number: u32,
    symbols: Vec<Symbol>,
    partners: Vec<Symbol>,
}

/// All of some rising symbols are among others.
fn are_among(symbols: &[Symbol], others: &[Symbol]) -> bool {
    for symbol in symbols {
        if others.binary_search(symbol).is_err() {
            return false;
        }
    }
    true
}

impl Factor {
    /// The product of two facts has no symbol but those at hand.
    pub fn goes_with(&self, other: &Factor) -> bool {
        are_among(other.symbols.as_slice(), self.partners.as_slice())
    }
}

/// The place of the first couple of a symbol among rising ones.
fn first_of(pairs: &[Couple], symbol: Symbol) -> usize {
    pairs.partition_point(|couple| couple.one < symbol)
}

/// The symbols with which a symbol makes a product at hand.
fn partners_of(alloc: Global, pairs: &[Couple], symbol: Symbol) -> Result<Vec<Symbol>, AllocError> {
    let mut partners = Vec::new(alloc);
    for couple in pairs.iter().skip(first_of(pairs, symbol)) {
        if couple.one != symbol {
            break;
        }
        partners.push(couple.other)?;
    }
    Ok(partners)
}

/// Keeps of rising symbols those with which another symbol makes a product at hand.
fn keep_partners(partners: &mut Vec<Symbol>, pairs: &[Couple], symbol: Symbol) {
    partners.retain(|other| {
        pairs
            .binary_search(&Couple {
                one: symbol,
                other: *other,
            })
            .is_ok()
    });
}

/// A symbol makes a product at hand with each symbol of a fact.
fn goes_with_each(pairs: &[Couple], symbol: Symbol, fact: &Form) -> bool {
    for term in fact.terms() {
        let couple = Couple {
            one: term.symbol,
            other: symbol,
        };
        if pairs.binary_search(&couple).is_err() {
            return false;
        }
    }
    true
}

/// The fact says that a symbol is at least a number above 0, which is not too large for products.
fn is_low_end(fact: &Form) -> bool {
    let constant = fact.constant_part();
    match fact.terms() {
        [only] => { only.coefficient == 1 && constant < 0 && constant.unsigned_abs() < LARGE }
        _ => false,
    }
}

/// The symbols that make products at hand with one another, and the least constant with which a fact is not multiplied.
#[derive(Clone, Copy)]
pub struct Multiplied<'a> {
    pub partings: &'a [Couple],
    pub large: u64,
}

impl<'a> Multiplied<'a> {
    /// A fact may be multiplied: its constant is not large, and a symbol makes products at hand with each of its symbols.
    pub fn may(&self, fact: &Form) -> bool {
        let Some(first) = fact.terms().first() else {
            return false;
        };
        if fact.constant_part().unsigned_abs() >= self.large && !is_low_end(fact) {
            return false;
        }
        for couple in self
            .partings
            .iter()
            .skip(first_of(self.partings, first.symbol))
        {
            if couple.one != first.symbol {
                return false;
            }
            if goes_with_each(self.partings, couple.other, fact) {
                return true;
            }
        }
        false
    }
}

/// A fact as a factor; none where one of its symbols has no partner in common with the others.
pub fn factor_of(
    alloc: Global,
    pairs: &[Couple],
    number: u32,
    fact: &Form,
    large: u64,
) -> Result<Option<Factor>, AllocError> {
    if fact.constant_part().unsigned_abs() >= large {
        return Ok(None);
    }
    let Some(first) = fact.terms().first() else {
        return Ok(None);
    };
    let mut partners = partners_of(alloc, pairs, first.symbol)?;
    let mut symbols = Vec::new(alloc);
    for term in fact.terms() {
        keep_partners(&mut partners, pairs, term.symbol);
        symbols.push(term.symbol)?;
    }
    if partners.is_empty() {
        return Ok(None);
    }
    Ok(Some(Factor {
        number,
        symbols,
        partners,
    }))
}

/// Another of the facts has the same terms, and says more, or comes first and says as much.
fn is_implied(facts: &[Form], place: usize, fact: &Form) -> bool {
    for (at, other) in facts.iter().enumerate() {
        let is_tighter = other.constant_part() < fact.constant_part()
            || (other.constant_part() == fact.constant_part() && at < place);
        if is_tighter && other.terms() == fact.terms() {
            return true;
        }
    }
    false
}

/// From which constant on a fact is not multiplied: a later one where it is half of an equality, as of an argument that has one value, or
/// says that a symbol is at least a number. (Where an argument may be 1, its low end is multiplied; so it is where the argument is larger.)
fn limit_of(fact: &Form, hashes: &[u64], large: u64) -> u64 {
    let is_small = fact.constant_part().unsigned_abs() < large;
    if is_small {
        return large;
    }
    if is_low_end(fact) || hashes.binary_search(&hash_of_opposite(fact)).is_ok() {
        LARGE
    } else {
        large
    }
}

/// The facts that may be factors, and the lemmas behind the first `given` ones, whose constants may be large, as those of equalities may.
pub fn factors_of(
    alloc: Global,
    pairs: &[Couple],
    facts: &[Form],
    given: usize,
    large: u64,
) -> Result<Vec<Factor>, AllocError> {
    let mut hashes = hashes_of(alloc, facts)?;
    hashes.sort_unstable();
    let mut factors = Vec::new(alloc);
    let mut number = 0u32;
    for (place, fact) in facts.iter().enumerate() {
        number = number.saturating_add(1);
        let large = if place < given { large } else { LARGE };
        let limit = limit_of(fact, hashes.as_slice(), large);
        if let Some(factor) = factor_of(alloc, pairs, number, fact, limit)? {
            if !is_implied(facts, place, fact) {
                factors.push(factor)?;
            }
        }
    }
    Ok(factors)
}

/// Adds the pairs of a factor with others that make products at hand.
fn add_pairs(
    pairs: &mut Vec<Source>,
    factor: &Factor,
    others: &[Factor],
) -> Result<(), AllocError> {
    for other in others {
        if factor.goes_with(other) {
            pairs.push(Source {
                first: other.number,
                second: factor.number,
            })?;
        }
    }
    Ok(())
}

/// The pairs of factors, also of one with itself, that make products at hand.
pub fn pairs_of(alloc: Global, factors: &[Factor]) -> Result<Vec<Source>, AllocError> {
    let mut pairs = Vec::new(alloc);
    for (place, factor) in factors.iter().enumerate() {
        let others = factors.get(..=place).unwrap_or(&[]);
        add_pairs(&mut pairs, factor, others)?;
    }
    Ok(pairs)
}

/// The pairs of the last factor with all of them.
pub fn pairs_with_last(alloc: Global, factors: &[Factor]) -> Result<Vec<Source>, AllocError> {
    let mut pairs = Vec::new(alloc);
    if let Some(last) = factors.last() {
        add_pairs(&mut pairs, last, factors)?;
    }
    Ok(pairs)
}

/// The same factors once more.
pub fn copy_factors(alloc: Global, factors: &[Factor]) -> Result<Vec<Factor>, AllocError> {
    let mut copies = Vec::new(alloc);
    for factor in factors {
        copies.push(Factor {
            number: factor.number,
            symbols: factor.symbols.clone()?,
            partners: factor.partners.clone()?,
        })?;
    }
    Ok(copies)
}
