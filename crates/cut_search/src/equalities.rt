//! Equalities that a list of facts holds: two facts, one of which is the other with all signs turned.

use crate::hashes::{hash_of_opposite, hashes_of};
use facts::{Family, Side};
use guesses::{copied, is_launch, is_product, one_of, try_multiple, try_sum};
use linear::{Form, LinearError, Symbol};
use std::alloc::{AllocError, Global};

/// A symbol is equal to a form that does not have it.
#[derive(Drop)]
struct Equality {
    symbol: Symbol,
    value: Form,
}

/// Equalities, each solved for a symbol that the forms of the others do not have.
#[derive(Drop)]
pub struct Equalities {
    solved: Vec<Equality>,
}

impl Equalities {
    /// The equalities that the facts hold, each solved for a symbol, without those whose numbers are too large.
    pub fn of_facts(alloc: Global, facts: &[Form]) -> Result<Equalities, AllocError> {
        let hashes = hashes_of(alloc, facts)?;
        let mut equalities = Equalities {
            solved: Vec::new(alloc),
        };
        for fact in facts {
            if begins_above(fact) && hashes.as_slice().contains(&hash_of_opposite(fact)) {
                equalities.add(alloc, fact)?;
            }
        }
        Ok(equalities)
    }

    /// The form with the value of each symbol that is solved in its place, if that is of `i64`.
    pub fn reduce(&self, alloc: Global, form: &Form) -> Result<Option<Form>, AllocError> {
        let mut reduced = copied(alloc, form)?;
        for equality in self.solved.as_slice() {
            let Some(next) = equality.put_in(alloc, &reduced)? else {
                return Ok(None);
            };
            reduced = next;
        }
        Ok(Some(reduced))
    }

    /// Adds the equality that a form is 0, solved for a symbol, which is taken out of the others; nothing where that is too large.
    fn add(&mut self, alloc: Global, form: &Form) -> Result<(), AllocError> {
        let Some(form) = self.reduce(alloc, form)? else {
            return Ok(());
        };
        let Some(equality) = solved_of(alloc, &form)? else {
            return Ok(());
        };
        self.take_out(alloc, &equality)?;
        self.solved.push(equality)?;
        Ok(())
    }

    /// Puts a symbol's value in its place everywhere.
    fn take_out(&mut self, alloc: Global, equality: &Equality) -> Result<(), AllocError> {
        let mut solved = Vec::new(alloc);
        for old in self.solved.as_slice() {
            if let Some(value) = equality.put_in(alloc, &old.value)? {
                solved.push(Equality {
                    symbol: old.symbol,
                    value,
                })?;
            }
        }
        self.solved = solved;
        Ok(())
    }
}

impl Equality {
    /// A form with the value in the symbol's place, if that is of `i64`.
    fn put_in(&self, alloc: Global, form: &Form) -> Result<Option<Form>, AllocError> {
        match form.substitute(alloc, self.symbol, &self.value) {
            Ok(form) => Ok(Some(form)),
            Err(LinearError::TooLarge) => Ok(None),
            Err(LinearError::Memory) => Err(AllocError),
        }
    }
}

/// Of two opposite forms one begins above 0.
fn begins_above(form: &Form) -> bool {
    match form.terms().first() {
        Some(term) => term.coefficient > 0,
        None => false,
    }
}

/// The rank by which symbols are solved for: those of a path alone come first.
fn lateness(symbol: Symbol) -> u64 {
    if is_launch(symbol) || is_product(symbol) {
        return 2;
    }
    match Family::of(symbol) {
        Family::Local(Side::First) | Family::Group(Side::First) => 3,
        Family::New(Side::First) => 1,
        _ => 0,
    }
}

/// A symbol that stands once in a form, or once below 0.
#[derive(Clone, Copy)]
struct Choice {
    symbol: Symbol,
    sign: i64,
    lateness: u64,
}

/// The symbol with coefficient 1 or -1 to solve a form for, the one of the earliest kind; none where there is none.
fn choice_of(form: &Form) -> Option<Choice> {
    let mut best: Option<Choice> = None;
    for term in form.terms() {
        let choice = Choice {
            symbol: term.symbol,
            sign: term.coefficient,
            lateness: lateness(term.symbol),
        };
        let is_one = choice.sign == 1 || choice.sign == -1;
        if is_one && best.is_none_or(|old| choice.lateness < old.lateness) {
            best = Some(choice);
        }
    }
    best
}

/// The equality that a form is 0, solved for one of its symbols; none where no coefficient is 1 or -1, or a number is too large.
fn solved_of(alloc: Global, form: &Form) -> Result<Option<Equality>, AllocError> {
    let Some(choice) = choice_of(form) else {
        return Ok(None);
    };
    let Some(value) = value_of(alloc, form, choice)? else {
        return Ok(None);
    };
    Ok(Some(Equality {
        symbol: choice.symbol,
        value,
    }))
}

/// The value of the chosen symbol where the form is 0, as a form without it; none where a number is too large.
fn value_of(alloc: Global, form: &Form, choice: Choice) -> Result<Option<Form>, AllocError> {
    let Some(turned) = try_multiple(alloc, form, choice.sign.wrapping_neg())? else {
        return Ok(None);
    };
    let symbol = one_of(alloc, choice.symbol)?;
    try_sum(alloc, &turned, &symbol)
}
