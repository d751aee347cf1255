//! Facts with symbols that have no name, made into facts without them.

use crate::names::Except;
use crate::naming::{Naming, Value};
use crate::sums::{plus_symbol, plus_times};
use guesses::{divisor_of, is_global, try_multiple};
use linear::{Form, Term};
use std::alloc::{AllocError, Global};

/// The largest multiple of a fact that is taken.
const MOST_TIMES: i64 = 65_536;

/// The most values that are taken away one after another.
const DEPTH: u32 = 2;

/// A fact as the sum of a form over the symbols of the path and one over those of the place reached.
#[derive(Drop)]
struct Split {
    unnamed: Form,
    named: Form,
}

impl Naming {
    /// A fact over the symbols of the place reached that follows: unnamed symbols cancelled by values of variables (2 deep), the fact taken
    /// some times where that gives whole names.
    pub fn project(&self, alloc: Global, fact: &Form) -> Result<Option<Form>, AllocError> {
        let Some(unnamed) = self.aliases.settled(alloc, fact)? else {
            return Ok(None);
        };
        let named = Form::constant(alloc, 0);
        let mut splits = Vec::new(alloc);
        splits.push(Split { unnamed, named })?;
        for _ in 0..DEPTH {
            if let Some(form) = self.first_whole(alloc, splits.as_slice())? {
                return Ok(Some(form));
            }
            splits = self.cancelled(alloc, splits.as_slice())?;
        }
        self.first_whole(alloc, splits.as_slice())
    }

    /// The first of the facts in which all has names.
    fn first_whole(&self, alloc: Global, splits: &[Split]) -> Result<Option<Form>, AllocError> {
        for split in splits {
            if let Some(form) = self.whole(alloc, split)? {
                return Ok(Some(form));
            }
        }
        Ok(None)
    }

    /// The fact, taken some times where that is needed, if all of it has names.
    fn whole(&self, alloc: Global, split: &Split) -> Result<Option<Form>, AllocError> {
        if self.names.count_unnamed(&split.unnamed) > 0 {
            return Ok(None);
        }
        if let Some(form) = self.taken(alloc, split, 1)? {
            return Ok(Some(form));
        }
        match self.times_needed(&split.unnamed) {
            Some(times) if times > 1 => self.taken(alloc, split, times),
            _ => Ok(None),
        }
    }

    /// The fact taken so many times, with names.
    fn taken(&self, alloc: Global, split: &Split, times: i64) -> Result<Option<Form>, AllocError> {
        let Some(unnamed) = try_multiple(alloc, &split.unnamed, times)? else {
            return Ok(None);
        };
        let Some(form) = self.names.rewritten(alloc, &unnamed, Except::Nothing)? else {
            return Ok(None);
        };
        plus_times(alloc, &form, &split.named, times)
    }

    /// A number of times after which each symbol's coefficient admits a name.
    fn times_needed(&self, form: &Form) -> Option<i64> {
        let mut times = 1;
        for term in form.terms() {
            if !is_global(term.symbol) {
                let factor = self.names.find(term.symbol)?.least_factor()?;
                times = common_multiple(times, factor)?;
            }
        }
        Some(times)
    }

    /// The facts with one value more taken away, in each way that leaves fewer symbols without a name.
    fn cancelled(&self, alloc: Global, splits: &[Split]) -> Result<Vec<Split>, AllocError> {
        let mut found = Vec::new(alloc);
        for split in splits {
            for value in self.values.as_slice() {
                self.cancel(alloc, split, value, &mut found)?;
            }
            for value in self.ranks.as_slice() {
                self.cancel(alloc, split, value, &mut found)?;
            }
        }
        Ok(found)
    }

    /// The fact with that value taken away, so often that it cancels a symbol without a name.
    fn cancel(
        &self,
        alloc: Global,
        split: &Split,
        value: &Value,
        found: &mut Vec<Split>,
    ) -> Result<(), AllocError> {
        if value.form.terms().len() < 2 {
            return Ok(());
        }
        for term in split.unnamed.terms() {
            if !self.names.has(term.symbol) {
                if let Some(next) = self.less_term(alloc, split, value, *term)? {
                    found.push(next)?;
                }
            }
        }
        Ok(())
    }

    /// The fact with the value taken away so often that it cancels that term, where fewer symbols without a name are left.
    fn less_term(
        &self,
        alloc: Global,
        split: &Split,
        value: &Value,
        term: Term,
    ) -> Result<Option<Split>, AllocError> {
        let Some(times) = times_in(term, &value.form) else {
            return Ok(None);
        };
        let Some(next) = less_value(alloc, split, value, times)? else {
            return Ok(None);
        };
        if self.names.count_unnamed(&next.unnamed) < self.names.count_unnamed(&split.unnamed) {
            Ok(Some(next))
        } else {
            Ok(None)
        }
    }
}

/// The multiple of a form at which it has the term; none where that is no whole number.
fn times_in(term: Term, form: &Form) -> Option<i64> {
    let coefficient = form.coefficient(term.symbol);
    if term.coefficient.checked_rem(coefficient)? == 0 {
        term.coefficient.checked_div(coefficient)
    } else {
        None
    }
}

/// A fact, split into its symbols without a name and those with one, after so many times a value at the place reached was taken away.
fn less_value(
    alloc: Global,
    split: &Split,
    value: &Value,
    times: i64,
) -> Result<Option<Split>, AllocError> {
    let Some(opposite) = times.checked_neg() else {
        return Ok(None);
    };
    let Some(unnamed) = plus_times(alloc, &split.unnamed, &value.form, opposite)? else {
        return Ok(None);
    };
    let Some(named) = plus_symbol(alloc, &split.named, value.owner, times)? else {
        return Ok(None);
    };
    Ok(Some(Split { unnamed, named }))
}

/// The least common multiple, if it is no more than a fact is taken.
fn common_multiple(left: i64, right: i64) -> Option<i64> {
    let divisor = divisor_of(left.unsigned_abs(), right.unsigned_abs());
    let divisor = i64::try_from(divisor).ok()?;
    let quotient = right.checked_div(divisor)?;
    let multiple = left.checked_mul(quotient)?;
    if multiple > MOST_TIMES {
        return None;
    }
    Some(multiple)
}
