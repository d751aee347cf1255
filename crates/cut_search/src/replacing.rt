//! Symbols of products, replaced by what short equalities say of them.

use crate::hashes::{hash_of_opposite, hashes_of};
use facts::{Family, Side};
use guesses::{Factors, copied, is_launch, is_product, one_of, try_multiple, try_sum};
use linear::{Form, Symbol, Term};
use std::alloc::{AllocError, Global};

/// A symbol is equal to a form of other symbols.
#[derive(Drop)]
pub struct Replacement {
    pub symbol: Symbol,
    pub value: Form,
}

/// A symbol that stays: of the launch, or an id.
fn stays(symbol: Symbol) -> bool {
    is_launch(symbol) || matches!(Family::of(symbol), Family::Local(_) | Family::Group(_))
}

/// The first term may be solved for, and the other one put in its place.
fn may_go(one: &Term, other: &Term) -> bool {
    let is_one = one.coefficient == 1 || one.coefficient == -1;
    is_one && !stays(one.symbol) && (is_launch(other.symbol) || other.symbol < one.symbol)
}

/// The symbol for which a form of two terms, which is 0, is solved.
fn solvable(form: &Form) -> Option<Symbol> {
    let terms = form.terms();
    let (one, other) = (terms.first()?, terms.get(1)?);
    if terms.len() != 2 || is_product(one.symbol) || is_product(other.symbol) {
        return None;
    }
    if may_go(one, other) {
        Some(one.symbol)
    } else if may_go(other, one) {
        Some(other.symbol)
    } else {
        None
    }
}

/// The value of the symbol where the form is 0. The form has it with coefficient 1 or -1. It is none where a number is
/// too large.
pub fn value_of(alloc: Global, form: &Form, symbol: Symbol) -> Result<Option<Form>, AllocError> {
    let sign = form.coefficient(symbol).wrapping_neg();
    let Some(turned) = try_multiple(alloc, form, sign)? else {
        return Ok(None);
    };
    let own = one_of(alloc, symbol)?;
    try_sum(alloc, &turned, &own)
}

fn is_replaced(replacements: &[Replacement], symbol: Symbol) -> bool {
    replacements.iter().any(|other| other.symbol == symbol)
}

/// Adds what a form of two terms, which is 0, says of one of them.
fn add_replacement(
    alloc: Global,
    found: &mut Vec<Replacement>,
    form: &Form,
) -> Result<(), AllocError> {
    let Some(symbol) = solvable(form) else {
        return Ok(());
    };
    if is_replaced(found.as_slice(), symbol) {
        return Ok(());
    }
    if let Some(value) = value_of(alloc, form, symbol)? {
        found.push(Replacement { symbol, value })?;
    }
    Ok(())
}

/// The replacements of one symbol by another that equalities of two symbols give.
pub fn replacements_of(alloc: Global, facts: &[Form]) -> Result<Vec<Replacement>, AllocError> {
    let mut hashes = hashes_of(alloc, facts)?;
    hashes.sort_unstable();
    let mut found = Vec::new(alloc);
    for fact in facts {
        if hashes.binary_search(&hash_of_opposite(fact)).is_ok() {
            add_replacement(alloc, &mut found, fact)?;
        }
    }
    Ok(found)
}

/// A term with one of its factors replaced; none where it has not the factor, or a number is too large.
fn term_with(
    alloc: Global,
    term: &Term,
    replacement: &Replacement,
) -> Result<Option<Form>, AllocError> {
    let factors = Factors::of(term.symbol);
    let factor = replacement.symbol.number.saturating_add(1);
    if !factors.each().contains(&factor) {
        return Ok(None);
    }
    let rest = factors.without(factor);
    if rest.first == 0 {
        return try_multiple(alloc, &replacement.value, term.coefficient);
    }
    let one = one_of(alloc, rest.symbol())?;
    let Some(others) = try_multiple(alloc, &one, term.coefficient)? else {
        return Ok(None);
    };
    others.product(alloc, &replacement.value)
}

/// A form and a term, with a factor of it replaced.
fn add_term(
    alloc: Global,
    sum: &Form,
    term: &Term,
    replacement: &Replacement,
) -> Result<Option<Form>, AllocError> {
    if let Some(form) = term_with(alloc, term, replacement)? {
        return try_sum(alloc, sum, &form);
    }
    let one = one_of(alloc, term.symbol)?;
    let Some(own) = try_multiple(alloc, &one, term.coefficient)? else {
        return Ok(None);
    };
    try_sum(alloc, sum, &own)
}

/// A form with a symbol replaced, also in products; none where a number is too large.
fn replaced(
    alloc: Global,
    form: &Form,
    replacement: &Replacement,
) -> Result<Option<Form>, AllocError> {
    let mut sum = Form::constant(alloc, form.constant_part());
    for term in form.terms() {
        let Some(next) = add_term(alloc, &sum, term, replacement)? else {
            return Ok(None);
        };
        sum = next;
    }
    Ok(Some(sum))
}

/// A form with all symbols replaced of which something is said.
pub fn replaced_all(
    alloc: Global,
    form: &Form,
    replacements: &[Replacement],
) -> Result<Form, AllocError> {
    let mut whole = copied(alloc, form)?;
    for replacement in replacements {
        if let Some(next) = replaced(alloc, &whole, replacement)? {
            whole = next;
        }
    }
    Ok(whole)
}
