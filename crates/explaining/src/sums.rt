//! Sums as conditions have them: numbers, times arguments and counts of groups, at most two of these in a term.

use std::alloc::AllocError;

/// The most terms of a sum.
const MOST: usize = 8;

/// The largest number in a sum.
const LARGEST: u64 = 4_294_967_295;

/// The name of a term's factor: an argument by its slot, or the count of groups of a dimension.
#[derive(Clone, Copy, PartialEq, Eq)]
pub enum Name {
    Argument(u32),
    Groups(u32),
}

/// A number times at most two names.
#[derive(Clone, Copy)]
struct Product {
    factor: i64,
    first: Option<Name>,
    second: Option<Name>,
}

const NONE: Product = Product {
    factor: 0,
    first: None,
    second: None,
};

/// A sum of a number and of terms with names, of which no two have the same.
#[derive(Clone, Copy)]
pub struct Sum {
    constant: i64,
    terms: [Product; MOST],
    count: usize,
}

/// The place of a name in the order in which names are written.
fn rank(name: Option<Name>) -> u64 {
    match name {
        None => 0,
        Some(Name::Argument(slot)) => (slot as u64).saturating_add(1),
        Some(Name::Groups(dimension)) => (1u64 << 40).saturating_add(dimension as u64),
    }
}

/// Two names in their order; what is no name stands last.
fn ordered(one: Option<Name>, other: Option<Name>) -> (Option<Name>, Option<Name>) {
    if one.is_none() || (other.is_some() && rank(other) < rank(one)) {
        (other, one)
    } else {
        (one, other)
    }
}

impl Product {
    fn is_like(self, other: Product) -> bool {
        self.first == other.first && self.second == other.second
    }

    /// The product of two; none where it has too many names or too large a number.
    fn times(self, other: Product) -> Option<Product> {
        let factor = self.factor.checked_mul(other.factor)?;
        let (first, second) = match (self.first, self.second, other.first, other.second) {
            (one, None, None, None) => (one, None),
            (None, None, one, second) => (one, second),
            (Some(one), None, Some(second), None) => ordered(Some(one), Some(second)),
            _ => return None,
        };
        Some(Product {
            factor,
            first,
            second,
        })
    }

    fn is_large(self) -> bool {
        self.factor.unsigned_abs() > LARGEST
    }

    /// Writes the term, by the names of the arguments.
    fn push(self, names: &[&str], out: &mut String) -> Result<(), AllocError> {
        if self.factor != 1 {
            let factor = self.factor;
            write!(out, "{factor}*")?;
        }
        push_name(self.first, names, out)?;
        if self.second.is_some() {
            out.push_str("*")?;
            push_name(self.second, names, out)?;
        }
        Ok(())
    }
}

/// The value of a name; 1 of none.
fn value_of(name: Option<Name>, arguments: &[i64], groups: &[i64]) -> Option<i64> {
    match name {
        Some(Name::Argument(slot)) => arguments.get(slot as usize).copied(),
        Some(Name::Groups(dimension)) => groups.get(dimension as usize).copied(),
        None => Some(1),
    }
}

fn push_name(name: Option<Name>, names: &[&str], out: &mut String) -> Result<(), AllocError> {
    match name {
        Some(Name::Argument(slot)) => out.push_str(
            names.get(slot as usize).copied().unwrap_or("?"),
        ),
        Some(Name::Groups(dimension)) => write!(out, "groups.{dimension}"),
        None => Ok(()),
    }
}

impl Sum {
    pub fn number(constant: i64) -> Sum {
        Sum {
            constant,
            terms: [NONE; MOST],
            count: 0,
        }
    }

    /// At each launch it is a number below 0.
    pub fn is_below_zero(&self) -> bool {
        self.count == 0 && self.constant < 0
    }

    /// So many times what is named.
    pub fn of(factor: i64, name: Name) -> Option<Sum> {
        Sum::number(0).with(Product {
            factor,
            first: Some(name),
            second: None,
        })
    }

    /// The product of two names, so many times.
    pub fn of_both(factor: i64, first: Name, second: Name) -> Option<Sum> {
        let (first, second) = ordered(Some(first), Some(second));
        Sum::number(0).with(Product {
            factor,
            first,
            second,
        })
    }

    /// The sum and one term more; none where there is no room for it.
    fn with(self, more: Product) -> Option<Sum> {
        let mut sum = self;
        if more.first.is_none() {
            sum.constant = sum.constant.checked_add(more.factor)?;
            return Some(sum);
        }
        for term in sum.terms.iter_mut().take(self.count) {
            if term.is_like(more) {
                term.factor = term.factor.checked_add(more.factor)?;
                return Some(sum);
            }
        }
        *sum.terms.get_mut(self.count)? = more;
        sum.count = self.count.saturating_add(1);
        Some(sum)
    }

    pub fn plus(self, other: Sum) -> Option<Sum> {
        let mut sum = self;
        sum.constant = sum.constant.checked_add(other.constant)?;
        for term in other.terms.iter().take(other.count) {
            sum = sum.with(*term)?;
        }
        Some(sum)
    }

    pub fn more(self, number: i64) -> Option<Sum> {
        self.plus(Sum::number(number))
    }

    pub fn minus(self, other: Sum) -> Option<Sum> {
        self.plus(other.times(Sum::number(-1))?)
    }

    /// The product of two sums; none where it is no sum.
    pub fn times(self, other: Sum) -> Option<Sum> {
        let mut sum = Sum::number(self.constant.checked_mul(other.constant)?);
        for term in self.terms.iter().take(self.count) {
            sum = sum.with(Product {
                factor: term.factor.checked_mul(other.constant)?,
                ..*term
            })?;
        }
        for second in other.terms.iter().take(other.count) {
            sum = sum.with(Product {
                factor: second.factor.checked_mul(self.constant)?,
                ..*second
            })?;
        }
        for term in self.terms.iter().take(self.count) {
            for second in other.terms.iter().take(other.count) {
                sum = sum.with(term.times(*second)?)?;
            }
        }
        Some(sum)
    }

    /// The sum by a number; none where that does not divide it.
    pub fn over(self, number: i64) -> Option<Sum> {
        let mut sum = self;
        for term in sum.terms.iter_mut().take(self.count) {
            if term.factor.checked_rem(number)? != 0 {
                return None;
            }
            term.factor = term.factor.checked_div(number)?;
        }
        sum.constant = sum.constant.checked_div(number)?;
        Some(sum)
    }

    /// The number, where the sum names nothing.
    pub fn as_number(self) -> Option<i64> {
        for term in self.terms.iter().take(self.count) {
            if term.factor != 0 {
                return None;
            }
        }
        Some(self.constant)
    }

    /// The value of the sum, with these arguments and counts of groups.
    pub fn value(self, arguments: &[i64], groups: &[i64]) -> Option<i64> {
        let mut value = self.constant;
        for term in self.terms.iter().take(self.count) {
            let first = value_of(term.first, arguments, groups)?;
            let second = value_of(term.second, arguments, groups)?;
            let product = term.factor.checked_mul(first)?.checked_mul(second)?;
            value = value.checked_add(product)?;
        }
        Some(value)
    }

    /// The sum names that.
    pub fn has(self, name: Name) -> bool {
        for term in self.terms.iter().take(self.count) {
            if term.factor != 0 && (term.first == Some(name) || term.second == Some(name)) {
                return true;
            }
        }
        false
    }

    /// The difference of the sum and another one; none where that is no number.
    pub fn beyond(self, other: Sum) -> Option<i64> {
        self.minus(other)?.as_number()
    }

    /// Some term has two names.
    pub fn has_product(self) -> bool {
        for term in self.terms.iter().take(self.count) {
            if term.factor != 0 && term.second.is_some() {
                return true;
            }
        }
        false
    }

    /// Each number is one that conditions may have.
    pub fn may_be_said(self) -> bool {
        for term in self.terms.iter().take(self.count) {
            if term.is_large() {
                return false;
            }
        }
        self.constant.unsigned_abs() <= LARGEST && self.count < MOST
    }

    /// Writes the terms that are added, or those that are taken away, behind others or not; whether any were written so far.
    fn push_terms(
        self,
        names: &[&str],
        is_added: bool,
        is_begun: bool,
        out: &mut String,
    ) -> Result<bool, AllocError> {
        let mut is_begun = is_begun;
        for term in self.terms.iter().take(self.count) {
            if term.factor != 0 && is_added == (term.factor > 0) {
                out.push_str(if is_begun { " + " } else { "" })?;
                term.push(names, out)?;
                is_begun = true;
            }
        }
        Ok(is_begun)
    }

    /// Writes the sum, by the names of the arguments: what is taken away last, and then the number.
    pub fn push(self, names: &[&str], out: &mut String) -> Result<(), AllocError> {
        let is_begun = self.push_terms(names, true, false, out)?;
        let is_begun = self.push_terms(names, false, is_begun, out)?;
        if self.constant != 0 || !is_begun {
            let constant = self.constant;
            out.push_str(if is_begun { " + " } else { "" })?;
            write!(out, "{constant}")?;
        }
        Ok(())
    }
}
