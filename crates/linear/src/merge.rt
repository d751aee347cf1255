//! Operations on lists of terms: sums of multiples, divisions, and lists without one symbol.

ghost use Rattle.std.specs.Prelude.{◌≡◌, pos, true, false, ◌<ℤ◌, Err, IfOk, IsErrOf, MatchOption, length};
ghost use Rattle.linear.specs.Exact.{merge, multiples, without, over, coefficient_of, all_divide, quotients, fits_terms};
ghost use Rattle.linear.specs.Terms.{terms, numbers, are_rising, are_i64};

use super::form::LinearError;
use super::term::{Symbol, Term, divide, keep, keep_multiple, keep_sum};
use super::term_list::TermList;
use std::alloc::{AllocError, Global};

/// The terms of one list and multiples of those of another, those of one symbol as one.
pub fn combine_terms(alloc: Global, a: &[Term], k: i64, b: &[Term]) -> Result<TermList, LinearError>
    requires left { are_rising a.now ≡ true }
    requires right { are_rising b.now ≡ true }
    requires left_fits { are_i64 a.now ≡ true }
    ensures exact { IfOk result (λ out. terms out.terms.items ≡ merge (terms a.now) (multiples k (terms b.now))) }
    ensures fits { IfOk result (λ out. fits_terms (terms out.terms.items) ≡ true) }
    ensures too_large { IsErrOf result LinearError.TooLarge → fits_terms (merge (terms a.now) (multiples k (terms b.now))) ≡ false }
{
    let mut out = TermList::new(alloc);
    let mut i = 0;
    let mut j = 0;
    while j < b.len() {
        let y = b[j];
        if i < a.len() && a[i].symbol.number < y.symbol.number {
            keep(&mut out, a[i])?;
            i += 1;
        } else if i < a.len() && a[i].symbol.number == y.symbol.number {
            keep_sum(&mut out, a[i], k, y)?;
            i += 1;
            j += 1;
        } else {
            keep_multiple(&mut out, k, y)?;
            j += 1;
        }
    }
    out.extend_from_slice(&a[i..])?;
    Ok(out)
}

/// The terms but that of a symbol.
pub fn without_symbol(alloc: Global, a: &[Term], symbol: Symbol) -> Result<TermList, AllocError>
    ensures exact { IfOk result (λ out. terms out.terms.items ≡ without symbol.number (terms a.now)) }
    ensures fits { IfOk result (λ out. fits_terms (terms out.terms.items) ≡ true) }
{
    let mut out = TermList::new(alloc);
    for t in a {
        if t.symbol.number != symbol.number {
            keep(&mut out, *t)?;
        }
    }
    Ok(out)
}

/// The coefficients with other symbols, one for each.
pub fn with_symbols(alloc: Global, a: &[Term], symbols: &[Symbol]) -> Result<TermList, AllocError>
    requires { length symbols.now ≡ length a.now }
    ensures exact { IfOk result (λ out. terms out.terms.items ≡ over (numbers symbols.now) (terms a.now)) }
    ensures fits { IfOk result (λ out. fits_terms (terms out.terms.items) ≡ true) }
{
    let mut out = TermList::new(alloc);
    for i in 0..a.len() {
        let coefficient = a[i].coefficient;
        let symbol = symbols[i];
        let term = Term {
            symbol,
            coefficient,
        };
        keep(&mut out, term)?;
    }
    Ok(out)
}

/// The coefficient of a symbol, 0 where there is no term of it.
pub fn coefficient_at(a: &[Term], symbol: Symbol) -> i64
    ensures { result ≡ coefficient_of symbol.number (terms a.now) }
{
    for t in a {
        if t.symbol.number == symbol.number {
            return t.coefficient;
        }
    }
    0
}

/// Each term divided, where all divide.
pub fn divide_terms(alloc: Global, a: &[Term], divisor: i64) -> Result<Option<TermList>, AllocError>
    requires { pos 0 <ℤ divisor }
    ensures { IfOk result
        (λ r. MatchOption r (all_divide divisor (terms a.now) ≡ false) (λ out. (all_divide divisor (terms a.now) ≡ true)
        × (terms out.terms.items ≡ quotients divisor (terms a.now)) × (fits_terms (terms out.terms.items) ≡ true))) }
{
    let mut out = TermList::new(alloc);
    for t in a {
        let Some(t) = divide(*t, divisor) else {
            return Ok(None);
        };
        keep(&mut out, t)?;
    }
    Ok(Some(out))
}
