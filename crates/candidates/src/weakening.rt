//! What a loop's turns tell, weakened as far as it holds where the loop is entered. Behind `k + 7 < n` and `k += 64`, `n - k + 56` is at
//! least 0, but of a `k` that begins with 0 to 63 no more than `n - k + 63` is; behind `k + group < n` so is `n - k + 63`.

use crate::gathering::Gathering;
use crate::reach::{Facts, least_of, reach_in};
use crate::sums::{plus_symbol, plus_times};
use guesses::{Leaf, Sight, index_of, is_global, is_variable, one_of, plus};
use linear::{Form, Symbol, Term};
use std::alloc::{AllocError, Global};

/// The rank of what tests of paths tell, and of what is told here.
const TOLD: u32 = 1;

const WEAKENED: u32 = 3;

/// The most candidates that are looked at.
const LOOKED_AT: usize = 500;

/// A variable's value at the end of a path.
fn value_of(leaf: &Leaf, symbol: Symbol) -> Option<&Form> {
    if !is_variable(symbol) {
        return None;
    }
    leaf.variables.get(index_of(symbol) as usize)
}

/// The sum and a term's value at the end of a path.
fn plus_value(
    alloc: Global,
    sum: &Form,
    leaf: &Leaf,
    symbol: Symbol,
    factor: i64,
) -> Result<Option<Form>, AllocError> {
    match value_of(leaf, symbol) {
        Some(value) => plus_times(alloc, sum, value, factor),
        None if is_global(symbol) => plus_symbol(alloc, sum, symbol, factor),
        None => Ok(None),
    }
}

/// A form over the symbols of the place reached, over those of the path.
fn at_end(alloc: Global, leaf: &Leaf, form: &Form) -> Result<Option<Form>, AllocError> {
    let mut sum = Form::constant(alloc, form.constant_part());
    for term in form.terms() {
        match plus_value(alloc, &sum, leaf, term.symbol, term.coefficient)? {
            Some(next) => sum = next,
            None => return Ok(None),
        }
    }
    Ok(Some(sum))
}

/// The least value of a form at the end of a path, as far as single facts say.
fn least_on(told: &Gathering<'_>, leaf: &Leaf, form: &Form) -> Result<Option<i64>, AllocError> {
    let alloc = told.alloc;
    let facts = Facts {
        known: told.known.as_slice(),
        own: leaf.facts.as_slice(),
    };
    let Some(form) = at_end(alloc, leaf, form)? else {
        return Ok(None);
    };
    match reach_in(alloc, facts, &form)? {
        Some(reach) => Ok(Some(reach.low)),
        None => Ok(None),
    }
}

/// The least value of a form where a place is reached from others, where that is known and below 0.
fn shortfall(
    told: &Gathering<'_>,
    place: usize,
    leaves: &[Leaf],
    form: &Form,
) -> Result<i64, AllocError> {
    let mut least = 0;
    for leaf in leaves {
        if leaf.to == place && leaf.from != place {
            if let Some(low) = least_on(told, leaf, form)? {
                least = least.min(low);
            }
        }
    }
    Ok(least)
}

/// A form and what it lacks where the loop is entered, if it lacks something there.
fn raised(
    told: &Gathering<'_>,
    place: usize,
    leaves: &[Leaf],
    form: &Form,
) -> Result<Option<Form>, AllocError> {
    let least = shortfall(told, place, leaves, form)?;
    match least.checked_neg() {
        Some(more) if more > 0 => plus(told.alloc, form, more),
        _ => Ok(None),
    }
}

/// A symbol is never negative, as far as its type or single facts say.
fn is_natural(told: &Gathering<'_>, symbol: Symbol) -> Result<bool, AllocError> {
    if is_variable(symbol) {
        return Ok(told.is_unsigned(index_of(symbol)));
    }
    if !is_global(symbol) {
        return Ok(false);
    }
    let own = one_of(told.alloc, symbol)?;
    let least = least_of(told.alloc, told.known.as_slice(), &own)?;
    Ok(least.is_some_and(|low| low >= 0))
}

/// A form without a term, if that takes off what is never negative.
fn without(told: &Gathering<'_>, form: &Form, term: Term) -> Result<Option<Form>, AllocError> {
    let Some(factor) = term.coefficient.checked_neg() else {
        return Ok(None);
    };
    if factor > 0 && is_natural(told, term.symbol)? {
        plus_symbol(told.alloc, form, term.symbol, factor)
    } else {
        Ok(None)
    }
}

/// The facts that follow of a candidate and hold where the loop is entered as well; none where the candidate is not a fact of the loop's
/// test.
fn weaker(
    told: &Gathering<'_>,
    place: usize,
    sight: &Sight,
    leaves: &[Leaf],
    index: usize,
) -> Result<Vec<Form>, AllocError> {
    let mut out = Vec::new(told.alloc);
    let Some(fact) = told.shelf.fact_of(index, sight) else {
        return Ok(out);
    };
    if told.shelf.rank_of(index) != Some(TOLD) {
        return Ok(out);
    }
    if let Some(form) = raised(told, place, leaves, fact)? {
        out.push(form)?;
    }
    for term in fact.terms() {
        if let Some(less) = without(told, fact, *term)? {
            match raised(told, place, leaves, &less)? {
                Some(form) => out.push(form)?,
                None => out.push(less)?,
            }
        }
    }
    Ok(out)
}

/// Adds at a loop's test what follows of its facts and holds where the loop is entered as well.
fn tell_head(
    told: &mut Gathering<'_>,
    place: usize,
    sight: &Sight,
    leaves: &[Leaf],
    count: usize,
) -> Result<(), AllocError> {
    for index in 0..count {
        let forms = weaker(told, place, sight, leaves, index)?;
        for form in forms.iter() {
            told.add_fact(place, form, WEAKENED)?;
        }
    }
    Ok(())
}

/// Adds, at all loops' tests, what follows of their facts and holds where the loops are entered as well.
pub fn tell_weaker(told: &mut Gathering<'_>, leaves: &[Leaf]) -> Result<(), AllocError> {
    let sights = told.sights;
    let count = told.shelf.len().min(LOOKED_AT);
    for (place, sight) in sights.iter().enumerate() {
        if sight.head.is_some() {
            tell_head(told, place, sight, leaves, count)?;
        }
    }
    Ok(())
}
