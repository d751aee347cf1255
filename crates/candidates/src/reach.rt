//! Between which values a form lies, as far as single facts say.

use guesses::{common_divisor, one_of, plus, try_difference, try_sum};
use linear::Form;
use std::alloc::{AllocError, Global};

/// The largest distance of two steps that is told.
const MOST: i64 = 0x8000_0000;

/// The least and the greatest value of a form.
#[derive(Clone, Copy)]
pub struct Reach {
    pub low: i64,
    pub high: i64,
}

impl Reach {
    pub fn join(self, other: Reach) -> Reach {
        Reach {
            low: self.low.min(other.low),
            high: self.high.max(other.high),
        }
    }

    /// The least and the greatest value of the form so many times; the factor may be below 0. None where a number is too large.
    pub fn times(self, factor: i64) -> Option<Reach> {
        let one = self.low.checked_mul(factor)?;
        let other = self.high.checked_mul(factor)?;
        Some(Reach {
            low: one.min(other),
            high: one.max(other),
        })
    }

    /// The least and the greatest value of the sum with another form; none where a number is too large.
    fn plus(self, other: Reach) -> Option<Reach> {
        let low = self.low.checked_add(other.low)?;
        let high = self.high.checked_add(other.high)?;
        Some(Reach { low, high })
    }

    /// The steps are worth telling of.
    pub fn is_near(self) -> bool {
        match self.high.checked_sub(self.low) {
            Some(apart) => apart > 0 && apart < MOST,
            None => false,
        }
    }
}

/// The least value of a form by a fact that is the form and a number.
fn least_by(alloc: Global, fact: &Form, form: &Form) -> Result<Option<i64>, AllocError> {
    match try_difference(alloc, fact, form)? {
        Some(rest) if rest.terms().is_empty() => Ok(rest.constant_part().checked_neg()),
        _ => Ok(None),
    }
}

/// The least value of a form, as far as single facts say.
pub fn least_of(alloc: Global, facts: &[Form], form: &Form) -> Result<Option<i64>, AllocError> {
    let mut least: Option<i64> = None;
    for fact in facts {
        if let Some(low) = least_by(alloc, fact, form)? {
            least = Some(match least {
                Some(other) => other.max(low),
                None => low,
            });
        }
    }
    Ok(least)
}

/// The greatest value of a form by a fact that is a number less the form.
fn greatest_by(alloc: Global, fact: &Form, form: &Form) -> Result<Option<i64>, AllocError> {
    match try_sum(alloc, fact, form)? {
        Some(rest) if rest.terms().is_empty() => Ok(Some(rest.constant_part())),
        _ => Ok(None),
    }
}

/// Facts in two lists.
#[derive(Clone, Copy)]
pub struct Facts<'a> {
    pub known: &'a [Form],
    pub own: &'a [Form],
}

/// The values of a form as far as each fact by itself narrows those given before.
fn narrowed(
    alloc: Global,
    facts: &[Form],
    form: &Form,
    before: Reach,
) -> Result<Reach, AllocError> {
    let mut all = before;
    for fact in facts {
        if let Some(low) = least_by(alloc, fact, form)? {
            all.low = all.low.max(low);
        }
        if let Some(high) = greatest_by(alloc, fact, form)? {
            all.high = all.high.min(high);
        }
    }
    Ok(all)
}

/// The least and the greatest value of a form, each by one fact that has the form's terms; none where either end is open.
fn reach_by(alloc: Global, facts: Facts<'_>, form: &Form) -> Result<Option<Reach>, AllocError> {
    let any = Reach {
        low: i64::MIN,
        high: i64::MAX,
    };
    let known = narrowed(alloc, facts.known, form, any)?;
    let all = narrowed(alloc, facts.own, form, known)?;
    if all.low > i64::MIN && all.high < i64::MAX {
        Ok(Some(all))
    } else {
        Ok(None)
    }
}

/// The form without its number, divided by the greatest number that divides its coefficients, which is answered too.
fn unit_of(alloc: Global, form: &Form) -> Result<Option<(Form, i64)>, AllocError> {
    let Ok(divisor) = i64::try_from(common_divisor(form)) else {
        return Ok(None);
    };
    let Some(less) = form.constant_part().checked_neg() else {
        return Ok(None);
    };
    let Some(terms) = plus(alloc, form, less)? else {
        return Ok(None);
    };
    if divisor <= 0 {
        return Ok(None);
    }
    match terms.divided(alloc, divisor)? {
        Some(unit) => Ok(Some((unit, divisor))),
        None => Ok(None),
    }
}

/// The values of a form by facts that have all its terms together; none where there are no such facts for both ends.
fn reach_as_whole(
    alloc: Global,
    facts: Facts<'_>,
    form: &Form,
) -> Result<Option<Reach>, AllocError> {
    let Some((unit, factor)) = unit_of(alloc, form)? else {
        return Ok(None);
    };
    match reach_by(alloc, facts, &unit)? {
        Some(reach) => Ok(reach.times(factor)),
        None => Ok(None),
    }
}

/// The sum of one and so many times another one.
fn added(all: Reach, one: Reach, factor: i64) -> Option<Reach> {
    all.plus(one.times(factor)?)
}

/// The values of a form as the sum of what single facts say of each of its terms; none where a term is not bounded on both sides.
fn reach_by_terms(
    alloc: Global,
    facts: Facts<'_>,
    form: &Form,
) -> Result<Option<Reach>, AllocError> {
    let mut all = Reach { low: 0, high: 0 };
    for term in form.terms() {
        let own = one_of(alloc, term.symbol)?;
        let Some(reach) = reach_by(alloc, facts, &own)? else {
            return Ok(None);
        };
        match added(all, reach, term.coefficient) {
            Some(sum) => all = sum,
            None => return Ok(None),
        }
    }
    Ok(Some(all))
}

/// The values of a form where some facts hold, as far as single ones say.
pub fn reach_of(alloc: Global, facts: &[Form], form: &Form) -> Result<Option<Reach>, AllocError> {
    let facts = Facts {
        known: &[],
        own: facts,
    };
    reach_in(alloc, facts, form)
}

/// The values of a form where the facts of two lists hold, as far as single ones say; none where an end is open.
pub fn reach_in(alloc: Global, facts: Facts<'_>, form: &Form) -> Result<Option<Reach>, AllocError> {
    let constant = form.constant_part();
    let constant = Reach {
        low: constant,
        high: constant,
    };
    if form.terms().is_empty() {
        return Ok(Some(constant));
    }
    let found = match reach_as_whole(alloc, facts, form)? {
        Some(reach) => Some(reach),
        None => reach_by_terms(alloc, facts, form)?,
    };
    match found {
        Some(reach) => Ok(reach.plus(constant)),
        None => Ok(None),
    }
}

/// The one value of a form where some facts hold, if single ones say so.
pub fn one_value(alloc: Global, facts: &[Form], form: &Form) -> Result<Option<i64>, AllocError> {
    match reach_of(alloc, facts, form)? {
        Some(reach) if reach.low == reach.high => Ok(Some(reach.low)),
        _ => Ok(None),
    }
}
