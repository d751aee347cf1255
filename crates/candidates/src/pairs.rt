//! Facts with one symbol that has no name each, taken in pairs.

use crate::names::Except;
use crate::naming::Naming;
use crate::sums::plus_times;
use guesses::{divisor_of, try_multiple};
use linear::{Form, Symbol, Term};
use std::alloc::{AllocError, Global};

/// The most sums that are made.
const MOST_SUMS: usize = 60;

/// The greatest `int`: a bound as wide as that says only of what kind a symbol is.
const GREATEST: i64 = 2_147_483_647;

/// A fact with the one of its symbols that has no name.
#[derive(Drop)]
struct Lone {
    symbol: Symbol,
    coefficient: i64,
    fact: Form,
}

impl Naming {
    /// Sums of two of these facts that cancel the one symbol without a name in each; 60 at most.
    pub fn eliminated(&self, alloc: Global, facts: &[Form]) -> Result<Vec<Form>, AllocError> {
        let lone = self.lone(alloc, facts)?;
        let mut found = Vec::new(alloc);
        for lower in lone.as_slice() {
            if lower.coefficient > 0 {
                self.add_sums(alloc, lower, lone.as_slice(), &mut found)?;
            }
        }
        Ok(found)
    }

    /// The facts with one symbol that has no name.
    fn lone(&self, alloc: Global, facts: &[Form]) -> Result<Vec<Lone>, AllocError> {
        let mut found = Vec::new(alloc);
        for fact in facts {
            if let Some(fact) = self.aliases.settled(alloc, fact)? {
                if let Some(term) = self.names.only_unnamed(&fact) {
                    if !is_range(&fact, term) {
                        let symbol = term.symbol;
                        let coefficient = term.coefficient;
                        found.push(Lone {
                            symbol,
                            coefficient,
                            fact,
                        })?;
                    }
                }
            }
        }
        Ok(found)
    }

    /// The sums of a fact with those that have its symbol with the other sign.
    fn add_sums(
        &self,
        alloc: Global,
        lower: &Lone,
        others: &[Lone],
        found: &mut Vec<Form>,
    ) -> Result<(), AllocError> {
        for upper in others {
            if found.len() >= MOST_SUMS {
                return Ok(());
            }
            if upper.symbol == lower.symbol && upper.coefficient < 0 {
                if let Some(form) = self.named_sum(alloc, lower, upper)? {
                    found.push(form)?;
                }
            }
        }
        Ok(())
    }

    /// The sum without the symbol, with names.
    fn named_sum(
        &self,
        alloc: Global,
        lower: &Lone,
        upper: &Lone,
    ) -> Result<Option<Form>, AllocError> {
        let Some(sum) = sum_without(alloc, lower, upper)? else {
            return Ok(None);
        };
        if sum.terms().is_empty() {
            return Ok(None);
        }
        self.names.rewritten(alloc, &sum, Except::Nothing)
    }
}

/// The fact says only of what kind a symbol is: that it is at least 0, or a bound by the greatest number of a kind.
fn is_range(fact: &Form, term: Term) -> bool {
    let constant = fact.constant_part();
    fact.terms().len() == 1 && (constant >= GREATEST || constant == 0 && term.coefficient == 1)
}

/// The two facts, each as often as cancels their symbol.
fn sum_without(alloc: Global, lower: &Lone, upper: &Lone) -> Result<Option<Form>, AllocError> {
    let Some((first, second)) = times_of(lower.coefficient, upper.coefficient) else {
        return Ok(None);
    };
    let Some(sum) = try_multiple(alloc, &lower.fact, first)? else {
        return Ok(None);
    };
    plus_times(alloc, &sum, &upper.fact, second)
}

/// The multiples of two facts at which two coefficients of opposite signs cancel.
fn times_of(lower: i64, upper: i64) -> Option<(i64, i64)> {
    let opposite = upper.checked_neg()?;
    let divisor = divisor_of(lower.unsigned_abs(), upper.unsigned_abs());
    let divisor = i64::try_from(divisor).ok()?;
    let first = opposite.checked_div(divisor)?;
    let second = lower.checked_div(divisor)?;
    Some((first, second))
}
