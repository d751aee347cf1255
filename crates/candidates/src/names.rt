//! What symbols of a path are called at the place that it reaches.

use crate::sums::{plus_symbol, plus_times};
use guesses::{
    Factors, has_anchored, is_at_anchor, is_global, is_product, one_of, plain, speaks_of,
    try_difference, try_multiple, try_product,
};
use linear::{Form, Symbol, Term};
use std::alloc::{AllocError, Global};

/// The names that are left out: none, those that come from a symbol (a variable, an `@x` or a `$K` of the place
/// reached) or hold it, or those of variables at the anchor.
#[derive(Clone, Copy)]
pub enum Except {
    Nothing,
    Of(Symbol),
    AtAnchor,
}

fn is_anchored(form: &Form) -> bool {
    for term in form.terms() {
        if has_anchored(term.symbol) {
            return true;
        }
    }
    false
}

/// A symbol, so many times, is a form over the symbols of the place reached; one of these, the owner, told it.
#[derive(Drop)]
pub struct Name {
    pub factor: i64,
    pub form: Form,
    pub owner: Symbol,
}

impl Name {
    /// The name of a symbol where the owner equals the symbol so many times plus a form; none where a number is too large.
    pub fn told(
        alloc: Global,
        owner: Symbol,
        coefficient: i64,
        others: &Form,
    ) -> Result<Option<Name>, AllocError> {
        let Some(factor) = coefficient.checked_abs() else {
            return Ok(None);
        };
        let own = one_of(alloc, owner)?;
        let Some(difference) = try_difference(alloc, &own, others)? else {
            return Ok(None);
        };
        let Some(form) = try_multiple(alloc, &difference, coefficient.signum())? else {
            return Ok(None);
        };
        Ok(Some(Name {
            factor,
            form,
            owner,
        }))
    }

    /// Neither the name's owner nor its form has a symbol that is left out.
    fn is_without(&self, except: Except) -> bool {
        match except {
            Except::Nothing => true,
            Except::Of(symbol) => self.owner != symbol && !speaks_of(&self.form, symbol),
            Except::AtAnchor => !is_at_anchor(self.owner) && !is_anchored(&self.form),
        }
    }
}

/// A symbol with its names, the best first.
#[derive(Drop)]
pub struct Named {
    pub symbol: Symbol,
    pub names: Vec<Name>,
}

impl Named {
    /// One of the symbol's names comes from that owner.
    fn is_told_by(&self, owner: Symbol) -> bool {
        for name in self.names.as_slice() {
            if name.owner == owner {
                return true;
            }
        }
        false
    }

    /// The least number of times that a name tells of the symbol.
    pub fn least_factor(&self) -> Option<i64> {
        let mut least: Option<i64> = None;
        for name in self.names.as_slice() {
            least = match least {
                Some(factor) if factor <= name.factor => least,
                _ => Some(name.factor),
            };
        }
        least
    }
}

/// The symbols that have names.
#[derive(Drop)]
pub struct Names {
    pub list: Vec<Named>,
}

impl Names {
    /// A list that has no names.
    pub fn new(alloc: Global) -> Names {
        Names {
            list: Vec::new(alloc),
        }
    }

    /// The entry of a symbol, with its names; none where it has no name.
    pub fn find(&self, symbol: Symbol) -> Option<&Named> {
        for named in self.list.as_slice() {
            if named.symbol == symbol {
                return Some(named);
            }
        }
        None
    }

    /// The symbol is the same at the place reached, or has a name there.
    pub fn has(&self, symbol: Symbol) -> bool {
        is_global(symbol) || self.find(symbol).is_some() || self.has_factors(symbol)
    }

    /// The symbol is a product whose factors are the same at the place reached, or have a name there that is once the factor.
    fn has_factors(&self, symbol: Symbol) -> bool {
        if !is_product(symbol) {
            return false;
        }
        for factor in Factors::of(symbol).symbols() {
            if factor.is_some_and(|one| !is_global(one)
                && self.once(one, Except::Nothing).is_none())
            {
                return false;
            }
        }
        true
    }

    /// The first name of a symbol that is the symbol once, and is not left out.
    fn once(&self, symbol: Symbol, except: Except) -> Option<&Name> {
        let named = self.find(symbol)?;
        named
            .names
            .iter()
            .find(|name| name.factor == 1 && name.is_without(except))
    }

    /// The number of symbols of the form without a name.
    pub fn count_unnamed(&self, form: &Form) -> usize {
        form.terms()
            .iter()
            .filter(|term| !self.has(term.symbol))
            .count()
    }

    /// The one term of the form whose symbol has no name, if there is just one.
    pub fn only_unnamed(&self, form: &Form) -> Option<Term> {
        let mut found = None;
        for term in form.terms() {
            if !self.has(term.symbol) {
                if found.is_some() {
                    return None;
                }
                found = Some(*term);
            }
        }
        found
    }

    /// One more name for a symbol, the last one.
    pub fn put(&mut self, alloc: Global, symbol: Symbol, name: Name) -> Result<(), AllocError> {
        for named in self.list.as_mut_slice() {
            if named.symbol == symbol {
                named.names.push(name)?;
                return Ok(());
            }
        }
        let mut names = Vec::new(alloc);
        names.push(name)?;
        self.list.push(Named { symbol, names })?;
        Ok(())
    }

    /// One more name for a symbol that has some, if its owner told none of them.
    pub fn put_beside(
        &mut self,
        alloc: Global,
        symbol: Symbol,
        name: Option<Name>,
    ) -> Result<(), AllocError> {
        let (Some(name), Some(named)) = (name, self.find(symbol)) else {
            return Ok(());
        };
        if named.is_told_by(name.owner) {
            return Ok(());
        }
        self.put(alloc, symbol, name)
    }

    /// The form with names in place of the symbols, each the best that its coefficient admits and that is not left out.
    pub fn rewritten(
        &self,
        alloc: Global,
        form: &Form,
        except: Except,
    ) -> Result<Option<Form>, AllocError> {
        let mut sum = Form::constant(alloc, form.constant_part());
        for term in form.terms() {
            let Some(next) = self.plus_term(alloc, &sum, *term, except)? else {
                return Ok(None);
            };
            sum = next;
        }
        Ok(Some(sum))
    }

    /// The sum and a term with its name.
    fn plus_term(
        &self,
        alloc: Global,
        sum: &Form,
        term: Term,
        except: Except,
    ) -> Result<Option<Form>, AllocError> {
        if is_global(term.symbol) {
            return plus_symbol(alloc, sum, term.symbol, term.coefficient);
        }
        if is_product(term.symbol) && self.find(term.symbol).is_none() {
            return match self.product(alloc, term.symbol, except)? {
                Some(form) => plus_times(alloc, sum, &form, term.coefficient),
                None => Ok(None),
            };
        }
        let Some(name) = self.name_of(term, except) else {
            return Ok(None);
        };
        let Some(times) = term.coefficient.checked_div(name.factor) else {
            return Ok(None);
        };
        plus_times(alloc, sum, &name.form, times)
    }

    /// A product with names in place of its factors.
    fn product(
        &self,
        alloc: Global,
        symbol: Symbol,
        except: Except,
    ) -> Result<Option<Form>, AllocError> {
        let factors = Factors::of(symbol);
        let mut product = Form::constant(alloc, 1);
        for factor in [factors.first, factors.second, factors.third] {
            if factor != 0 {
                let Some(next) = self.times_factor(alloc, &product, plain(factor), except)? else {
                    return Ok(None);
                };
                product = next;
            }
        }
        Ok(Some(product))
    }

    /// A form times a symbol, with its name.
    fn times_factor(
        &self,
        alloc: Global,
        form: &Form,
        symbol: Symbol,
        except: Except,
    ) -> Result<Option<Form>, AllocError> {
        if is_global(symbol) {
            let one = one_of(alloc, symbol)?;
            return try_product(alloc, form, &one);
        }
        match self.once(symbol, except) {
            Some(name) => try_product(alloc, form, &name.form),
            None => Ok(None),
        }
    }

    /// The best name of a term's symbol that its coefficient admits and that is not left out.
    fn name_of(&self, term: Term, except: Except) -> Option<&Name> {
        let named = self.find(term.symbol)?;
        for name in named.names.as_slice() {
            let rest = term.coefficient.checked_rem(name.factor);
            if rest == Some(0) && name.is_without(except) {
                return Some(name);
            }
        }
        None
    }
}
