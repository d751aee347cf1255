//! Variables of which a lemma cannot speak, and what equalities say of them in the place of their names.

use crate::hashes::{hash_of_opposite, hashes_of};
use crate::monomials::Couple;
use crate::replacing::{Replacement, replaced_all, value_of};
use facts::Family;
use guesses::{Factors, index_of, is_product};
use linear::{Form, Symbol};
use std::alloc::{AllocError, Global};

/// The symbol is a variable of one of the slots, of either item, where a path begins or at the anchor.
fn is_unnamed(slots: &[u64], symbol: Symbol) -> bool {
    match Family::of(symbol) {
        Family::Variable(_) | Family::AtAnchor(_) => slots.contains(&index_of(symbol)),
        _ => false,
    }
}

/// A factor of the symbol is a variable of one of the slots.
fn has_unnamed(slots: &[u64], symbol: Symbol) -> bool {
    for factor in Factors::of(symbol).symbols() {
        if factor.is_some_and(|one| is_unnamed(slots, one)) {
            return true;
        }
    }
    false
}

/// The form speaks of no variable of the slots.
pub fn is_named(slots: &[u64], form: &Form) -> bool {
    for term in form.terms() {
        if has_unnamed(slots, term.symbol) {
            return false;
        }
    }
    true
}

/// The one variable of the slots for which a form without products, which is 0, is solved; none where it has two, or has one more than
/// once.
fn solvable(slots: &[u64], form: &Form) -> Option<Symbol> {
    let mut found = None;
    for term in form.terms() {
        if is_product(term.symbol) {
            return None;
        }
        if is_unnamed(slots, term.symbol) {
            if found.is_some() || term.coefficient.unsigned_abs() != 1 {
                return None;
            }
            found = Some(term.symbol);
        }
    }
    found
}

/// Adds what a form, which is 0, says of a variable of the slots.
fn add_value(
    alloc: Global,
    found: &mut Vec<Replacement>,
    slots: &[u64],
    form: &Form,
) -> Result<(), AllocError> {
    let Some(symbol) = solvable(slots, form) else {
        return Ok(());
    };
    if found.iter().any(|other| other.symbol == symbol) {
        return Ok(());
    }
    if let Some(value) = value_of(alloc, form, symbol)? {
        found.push(Replacement { symbol, value })?;
    }
    Ok(())
}

/// The values of the variables of the slots, in symbols that have names, as equalities give them.
pub fn values_of(
    alloc: Global,
    slots: &[u64],
    facts: &[Form],
) -> Result<Vec<Replacement>, AllocError> {
    let mut found = Vec::new(alloc);
    if slots.is_empty() {
        return Ok(found);
    }
    let mut hashes = hashes_of(alloc, facts)?;
    hashes.sort_unstable();
    for fact in facts {
        if hashes.binary_search(&hash_of_opposite(fact)).is_ok() {
            add_value(alloc, &mut found, slots, fact)?;
        }
    }
    Ok(found)
}

/// A form in symbols that have names, which what equalities say makes of it; none where it still speaks of others.
pub fn named(
    alloc: Global,
    slots: &[u64],
    values: &[Replacement],
    form: &Form,
) -> Result<Option<Form>, AllocError> {
    let form = replaced_all(alloc, form, values)?;
    if is_named(slots, &form) {
        Ok(Some(form))
    } else {
        Ok(None)
    }
}

/// Adds the variables of the slots, each with the symbols that equalities have beside it.
pub fn add_couples(couples: &mut Vec<Couple>, values: &[Replacement]) -> Result<(), AllocError> {
    for replacement in values {
        for term in replacement.value.terms() {
            couples.push(Couple {
                one: replacement.symbol,
                other: term.symbol,
            })?;
        }
    }
    Ok(())
}
