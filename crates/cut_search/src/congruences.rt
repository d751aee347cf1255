//! Congruences in a list: two facts with a symbol that no other fact has, so many times.

use linear::{Fact, Symbol, Term};
use std::alloc::{AllocError, Global};

/// The moduli of so many congruences are tried.
const MOST: usize = 4;

/// The number of facts that have the symbol.
fn occurrences(facts: &[Fact], symbol: Symbol) -> u32 {
    let mut count: u32 = 0;
    for fact in facts {
        if fact.coefficient(symbol) != 0 {
            count = count.saturating_add(1);
        }
    }
    count
}

/// The term is that of a quotient: only two facts have its symbol, and not just once.
fn is_quotient(facts: &[Fact], term: &Term) -> bool {
    term.coefficient.unsigned_abs() > 1 && occurrences(facts, term.symbol) == 2
}

/// The modulus of the congruence of which the fact is one half.
fn modulus_of(facts: &[Fact], fact: &Fact) -> Option<u64> {
    for term in fact.terms() {
        if is_quotient(facts, term) {
            return Some(term.coefficient.unsigned_abs());
        }
    }
    None
}

/// The modulus of each fact that is one half of a congruence; none of another fact.
pub fn moduli_of(alloc: Global, facts: &[Fact]) -> Result<Vec<Option<u64>>, AllocError> {
    let mut moduli = Vec::new(alloc);
    for fact in facts {
        moduli.push(modulus_of(facts, fact))?;
    }
    Ok(moduli)
}

/// The first of the moduli without repeats; none where all are alike.
pub fn several(alloc: Global, moduli: &[Option<u64>]) -> Result<Vec<u64>, AllocError> {
    let mut found: Vec<u64> = Vec::new(alloc);
    for modulus in moduli.iter().flatten() {
        if found.len() < MOST && !found.as_slice().contains(modulus) {
            found.push(*modulus)?;
        }
    }
    if found.len() < 2 {
        found.clear();
    }
    Ok(found)
}
