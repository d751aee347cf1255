//! Quotients of one form by one number are one symbol.

use crate::sums::plus_symbol;
use guesses::{Factors, copied, is_new, is_product, is_same, plain, times};
use linear::{Form, Symbol};
use std::alloc::{AllocError, Global};

/// A symbol that two facts hold to the quotient of a form by a number.
#[derive(Drop)]
struct Quotient {
    dividend: Form,
    divisor: i64,
    symbol: Symbol,
}

/// A symbol, and an earlier one that is equal.
#[derive(Clone, Copy)]
struct Alias {
    symbol: Symbol,
    earlier: Symbol,
}

/// The symbols of a path that are equal to earlier ones, since they are quotients of one form by one number.
#[derive(Drop)]
pub struct Aliases {
    list: Vec<Alias>,
}

impl Aliases {
    /// The aliases among a path's facts: a quotient shows as `form - divisor * quotient >= 0`, followed by a fact that this is at most
    /// `divisor - 1`.
    pub fn of(alloc: Global, facts: &[Form]) -> Result<Aliases, AllocError> {
        let mut aliases = Aliases {
            list: Vec::new(alloc),
        };
        let mut seen = Vec::new(alloc);
        let mut previous: Option<&Form> = None;
        for fact in facts {
            if let Some(lower) = previous {
                aliases.read(alloc, &mut seen, lower, fact)?;
            }
            previous = Some(fact);
        }
        Ok(aliases)
    }

    /// Takes up the quotient that two facts tell, if they do.
    fn read(
        &mut self,
        alloc: Global,
        seen: &mut Vec<Quotient>,
        lower: &Form,
        upper: &Form,
    ) -> Result<(), AllocError> {
        let Some(divisor) = divisor_of_both(lower, upper) else {
            return Ok(());
        };
        let Some(symbol) = quotient_in(lower, divisor) else {
            return Ok(());
        };
        let Some(quotient) = self.quotient(alloc, lower, divisor, symbol)? else {
            return Ok(());
        };
        self.enter(seen, quotient)
    }

    /// The quotient that a symbol is, with its dividend, in which aliases are settled; none where a number is too large.
    fn quotient(
        &self,
        alloc: Global,
        lower: &Form,
        divisor: i64,
        symbol: Symbol,
    ) -> Result<Option<Quotient>, AllocError> {
        let Some(dividend) = plus_symbol(alloc, lower, symbol, divisor)? else {
            return Ok(None);
        };
        let Some(dividend) = self.settled(alloc, &dividend)? else {
            return Ok(None);
        };
        Ok(Some(Quotient {
            dividend,
            divisor,
            symbol,
        }))
    }

    /// Takes up a quotient: as an alias, where another symbol is the same one.
    fn enter(&mut self, seen: &mut Vec<Quotient>, quotient: Quotient) -> Result<(), AllocError> {
        let symbol = quotient.symbol;
        match seen_as(seen.as_slice(), &quotient) {
            None => seen.push(quotient)?,
            Some(earlier) => {
                if earlier != symbol {
                    self.list.push(Alias { symbol, earlier })?;
                }
            }
        }
        Ok(())
    }

    /// The symbol itself, or the earlier one that it is equal to; of a product that of its factors.
    fn earlier(&self, symbol: Symbol) -> Symbol {
        if !is_product(symbol) {
            return self.earlier_plain(symbol);
        }
        let mut product: Option<Symbol> = None;
        let factors = Factors::of(symbol);
        for factor in [factors.first, factors.second, factors.third] {
            if factor != 0 {
                let one = self.earlier_plain(plain(factor));
                product = match product {
                    None => Some(one),
                    Some(others) => times(others, one),
                };
            }
        }
        product.unwrap_or(symbol)
    }

    fn earlier_plain(&self, symbol: Symbol) -> Symbol {
        for alias in self.list.as_slice() {
            if alias.symbol == symbol {
                return alias.earlier;
            }
        }
        symbol
    }

    /// No symbol of the form is equal to an earlier one.
    fn is_settled(&self, form: &Form) -> bool {
        if self.list.is_empty() {
            return true;
        }
        for term in form.terms() {
            if self.earlier(term.symbol) != term.symbol {
                return false;
            }
        }
        true
    }

    /// The form with earlier symbols for those that are equal to them.
    pub fn settled(&self, alloc: Global, form: &Form) -> Result<Option<Form>, AllocError> {
        if self.is_settled(form) {
            let form = copied(alloc, form)?;
            return Ok(Some(form));
        }
        let mut sum = Form::constant(alloc, form.constant_part());
        for term in form.terms() {
            let symbol = self.earlier(term.symbol);
            let Some(next) = plus_symbol(alloc, &sum, symbol, term.coefficient)? else {
                return Ok(None);
            };
            sum = next;
        }
        Ok(Some(sum))
    }
}

/// The number whose quotient two facts may tell: their terms are opposite, and the constants one less in sum.
fn divisor_of_both(lower: &Form, upper: &Form) -> Option<i64> {
    let sum = lower.constant_part().checked_add(upper.constant_part())?;
    if sum < 1 || lower.terms().is_empty() || lower.terms().len() != upper.terms().len() {
        return None;
    }
    for term in lower.terms() {
        let opposite = term.coefficient.checked_neg()?;
        if upper.coefficient(term.symbol) != opposite {
            return None;
        }
    }
    sum.checked_add(1)
}

/// The latest new symbol of a form that is taken away so many times; none where there is none.
fn quotient_in(lower: &Form, divisor: i64) -> Option<Symbol> {
    let opposite = divisor.checked_neg()?;
    let mut found = None;
    for term in lower.terms() {
        if is_new(term.symbol) && term.coefficient == opposite {
            found = Some(term.symbol);
        }
    }
    found
}

/// The symbol that has been seen as the quotient of that form by that number.
fn seen_as(seen: &[Quotient], quotient: &Quotient) -> Option<Symbol> {
    for other in seen {
        if other.divisor == quotient.divisor && is_same(&other.dividend, &quotient.dividend) {
            return Some(other.symbol);
        }
    }
    None
}
