//! Single terms. Only these functions compute with coefficients, and they say where a number leaves `i64`.

ghost use Rattle.std.specs.Prelude.{◌≡◌, ℕ, List, pos, true, false, ◌+ℤ◌, ◌*ℤ◌, ◌<ℤ◌, Err, OnOk, IsErrOf, MatchOption, ◌++◌, ◌∷◌};
ghost use Rattle.std.specs.Int.{int_div_euclid};
ghost use Rattle.linear.specs.Exact.{Terms, fits_i64, fits_terms, put, divides};
ghost use Rattle.linear.specs.Terms.{term, terms};

use super::form::LinearError;
use super::term_list::TermList;
use std::alloc::AllocError;

/// A symbol of forms, by its number in a table of the caller's.
#[derive(Clone, Copy, Debug, Default, PartialEq, Eq, PartialOrd, Ord)]
pub struct Symbol {
    pub number: u64,
}

/// A symbol with its coefficient.
#[derive(Clone, Copy, Debug, Default, PartialEq, Eq)]
pub struct Term {
    pub symbol: Symbol,
    pub coefficient: i64,
}

/// A number and a multiple of another one, which are small enough for `i128`.
fn wide(x: i64, k: i64, y: i64) -> i128
    ensures { result ≡ x +ℤ k *ℤ y }
{
    x as i128 + k as i128 * y as i128
}

/// A number as an `i64`; none where it does not fit.
fn narrow(number: i128) -> Option<i64>
    ensures { MatchOption result (fits_i64 number ≡ false) (λ n. n ≡ number) }
{
    if i64::MIN as i128 <= number && number <= i64::MAX as i128 {
        Some(number as i64)
    } else {
        None
    }
}

/// A number and a multiple of another one, where the sum is an `i64`.
pub fn combine(x: i64, k: i64, y: i64) -> Option<i64>
    ensures { MatchOption result (fits_i64 (x +ℤ k *ℤ y) ≡ false) (λ n. n ≡ x +ℤ k *ℤ y) }
{
    narrow(wide(x, k, y))
}

/// A term and a multiple of one of the same symbol as one, where its coefficient is an `i64`.
fn add_multiple(x: Term, k: i64, y: Term) -> Option<Term>
    ensures { MatchOption result (fits_i64 (x.coefficient +ℤ k *ℤ y.coefficient) ≡ false)
        (λ t. term t ≡ record { coefficient = x.coefficient +ℤ k *ℤ y.coefficient; symbol = x.symbol.number }) }
{
    let Some(coefficient) = combine(x.coefficient, k, y.coefficient) else {
        return None;
    };
    Some(Term {
        symbol: x.symbol,
        coefficient,
    })
}

/// A term whose coefficient divides, divided.
pub fn divide(t: Term, divisor: i64) -> Option<Term>
    requires { pos 0 <ℤ divisor }
    ensures { MatchOption result (divides divisor t.coefficient ≡ false) (λ u. (divides divisor t.coefficient ≡ true)
        × (term u ≡ record { coefficient = int_div_euclid t.coefficient divisor; symbol = t.symbol.number })) }
{
    if t.coefficient.rem_euclid(divisor) != 0 {
        return None;
    }
    Some(Term {
        symbol: t.symbol,
        coefficient: t.coefficient.div_euclid(divisor),
    })
}

/// Adds a term at the end.
pub fn keep(out: &mut TermList, t: Term) -> Result<(), AllocError>
    ensures kept { OnOk result ((rest : Terms) → terms out.new.terms.items ++ rest ≡ terms out.old.terms.items ++ term t ∷ rest) }
    ensures fits { OnOk result (fits_terms (terms out.old.terms.items) ≡ true → fits_terms (terms out.new.terms.items) ≡ true) }
{
    out.push(t)?;
    Ok(())
}

/// Adds a term at the end, unless its coefficient is 0.
fn keep_some(out: &mut TermList, t: Term) -> Result<(), AllocError>
    ensures kept { OnOk result ((rest : Terms) → terms out.new.terms.items ++ rest
        ≡ terms out.old.terms.items ++ put t.coefficient t.symbol.number rest) }
    ensures fits { OnOk result (fits_terms (terms out.old.terms.items) ≡ true → fits_terms (terms out.new.terms.items) ≡ true) }
{
    if t.coefficient == 0 {
        return Ok(());
    }
    keep(out, t)
}

/// Adds a term and a multiple of one of the same symbol at the end, as one.
pub fn keep_sum(out: &mut TermList, x: Term, k: i64, y: Term) -> Result<(), LinearError>
    ensures kept { OnOk result ((rest : Terms) → terms out.new.terms.items ++ rest
        ≡ terms out.old.terms.items ++ put (x.coefficient +ℤ k *ℤ y.coefficient) x.symbol.number rest) }
    ensures fits { OnOk result (fits_terms (terms out.old.terms.items) ≡ true → fits_terms (terms out.new.terms.items) ≡ true) }
    ensures too_large { IsErrOf result LinearError.TooLarge → fits_i64 (x.coefficient +ℤ k *ℤ y.coefficient) ≡ false }
{
    let Some(both) = add_multiple(x, k, y) else {
        return Err(LinearError::TooLarge);
    };
    keep_some(out, both)?;
    Ok(())
}

/// Adds a multiple of a term at the end.
pub fn keep_multiple(out: &mut TermList, k: i64, y: Term) -> Result<(), LinearError>
    ensures kept { OnOk result ((rest : Terms) → terms out.new.terms.items ++ rest
        ≡ terms out.old.terms.items ++ put (k *ℤ y.coefficient) y.symbol.number rest) }
    ensures fits { OnOk result (fits_terms (terms out.old.terms.items) ≡ true → fits_terms (terms out.new.terms.items) ≡ true) }
    ensures too_large { IsErrOf result LinearError.TooLarge → fits_i64 (k *ℤ y.coefficient) ≡ false }
{
    let none = Term {
        symbol: y.symbol,
        coefficient: 0,
    };
    keep_sum(out, none, k, y)
}
