//! Facts that are worth a guess at a place.

use guesses::{
    Candidate, Factors, Line, Sight, index_of, is_at_anchor, is_global, is_same, is_turns,
    is_variable, reduced,
};
use linear::{Form, Symbol};
use std::alloc::{AllocError, Global};

/// The most terms that a fact may have.
const TERMS: usize = 6;

/// The largest coefficient, 2^40.
const COEFFICIENT: u64 = 1_099_511_627_776;

/// The largest constant, 2^45.
const CONSTANT: u64 = 35_184_372_088_832;

/// The last rank of what paths tell.
const TOLD: u32 = 2;

fn has(numbers: &[u32], number: u64) -> bool {
    numbers.iter().any(|other| *other as u64 == number)
}

/// The symbol is one of the place, or a product of such symbols.
pub fn sees_symbol(sight: &Sight, symbol: Symbol) -> bool {
    for factor in Factors::of(symbol).symbols() {
        if factor.is_some_and(|one| !sees_plain(sight, one)) {
            return false;
        }
    }
    true
}

/// The symbol, which is no product, is one of the place.
fn sees_plain(sight: &Sight, symbol: Symbol) -> bool {
    let index = index_of(symbol);
    if is_variable(symbol) {
        has(sight.slots.as_slice(), index)
    } else if is_at_anchor(symbol) {
        has(sight.before.as_slice(), index)
    } else if is_turns(symbol) {
        has(sight.loops.as_slice(), index)
    } else {
        is_global(symbol)
    }
}

/// All symbols of the form are those of the place.
pub fn sees(sight: &Sight, form: &Form) -> bool {
    for term in form.terms() {
        if !sees_symbol(sight, term.symbol) {
            return false;
        }
    }
    true
}

/// The form is over symbols of the launch and of the item alone.
pub fn is_all_global(form: &Form) -> bool {
    form.terms().iter().all(|term| is_global(term.symbol))
}

/// The slot of a variable's symbol, here or at the anchor.
pub fn slot_of(symbol: Symbol) -> Option<usize> {
    if is_variable(symbol) || is_at_anchor(symbol) {
        Some(index_of(symbol) as usize)
    } else {
        None
    }
}

/// The form has few terms, and numbers that are not too large.
pub fn is_small(form: &Form) -> bool {
    form.terms().len() <= TERMS
        && form.constant_part().unsigned_abs() <= CONSTANT
        && form
            .terms()
            .iter()
            .all(|term| term.coefficient.unsigned_abs() <= COEFFICIENT)
}

/// Whether a variable is a `uint`; nothing of other symbols.
fn sign_of(unsigned: &[bool], symbol: Symbol) -> Option<bool> {
    unsigned.get(slot_of(symbol)?).copied()
}

/// One symbol that is not below the least of its type, or not above the greatest.
fn is_end_of_type(unsigned: &[bool], form: &Form) -> bool {
    let [term] = form.terms() else {
        return false;
    };
    if is_turns(term.symbol) {
        return false;
    }
    let sign = sign_of(unsigned, term.symbol);
    let constant = form.constant_part();
    let most = if sign == Some(false) {
        i32::MAX as i64
    } else {
        u32::MAX as i64
    };
    match term.coefficient {
        1 => constant > i32::MAX as i64 || constant == 0 && sign == Some(true),
        -1 => constant >= most,
        _ => false,
    }
}

/// A fact is not worth a guess of this rank: it is known anyway, or no symbol in it is one that such a guess is for.
fn is_needless(known: &[Form], form: &Form, rank: u32) -> bool {
    if is_all_global(form) {
        return rank > TOLD || known.iter().any(|fact| is_same(fact, form));
    }
    rank > TOLD
        && form
            .terms()
            .iter()
            .all(|term| is_global(term.symbol) || is_at_anchor(term.symbol))
}

/// The fact as a candidate of the place, divided by the greatest number that divides its coefficients. Nothing of a fact that types or the
/// known facts (which are divided likewise) say anyway, that is over symbols of other places, or that is large.
pub fn fact_at(
    alloc: Global,
    sight: &Sight,
    known: &[Form],
    unsigned: &[bool],
    fact: &Form,
    rank: u32,
) -> Result<Option<Candidate>, AllocError> {
    if !sees(sight, fact) {
        return Ok(None);
    }
    let Some(form) = reduced(alloc, fact)? else {
        return Ok(None);
    };
    if !is_small(&form) || is_end_of_type(unsigned, &form) || is_needless(known, &form, rank) {
        return Ok(None);
    }
    Ok(Some(Candidate {
        anchor: sight.anchor,
        head: sight.head,
        rank,
        line: Line::Fact(form),
    }))
}
