//! Rows of a tableau: a variable as a sum of multiples of other variables, over a divisor.

ghost use Rattle.std.specs.Prelude.{pos, ◌<ℤ◌};

use super::numbers::{blend, greatest_divisor, quotient};
use super::stop::Stop;
use linear::{Fact, Symbol};
use std::alloc::{AllocError, Global};
use std::mem::swap;

/// A variable of a tableau.
#[derive(Clone, Copy, PartialEq, Eq, PartialOrd, Ord)]
pub enum Variable {
    /// A symbol of the facts, of any value.
    Free(Symbol),
    /// The number, counted from 0, of a fact or a cut, whose form this variable stands for: it is at least 0.
    Slack(u32),
}

/// A variable with its coefficient, which is not 0.
#[derive(Clone, Copy, PartialEq, Eq)]
pub struct Entry {
    pub variable: Variable,
    pub coefficient: i64,
}

/// `denominator * basic = constant + entries`, in whole numbers without a common divisor, the denominator at least 1 and
/// the entries rising by their variables.
#[derive(Drop)]
pub struct Row {
    pub basic: Variable,
    pub denominator: i64,
    pub constant: i64,
    pub entries: Vec<Entry>,
}

/// A number as a divisor, at least 1.
fn divisor_of(number: u64) -> i64
    ensures { pos 0 <ℤ result }
{
    match i64::try_from(number) {
        Ok(divisor) if divisor > 0 => divisor,
        _ => 1,
    }
}

/// The greatest divisor of a number and of all coefficients, at least 1.
fn divisor_with(start: u64, entries: &[Entry]) -> i64
    ensures { pos 0 <ℤ result }
{
    let mut divisor = start;
    for entry in entries {
        if divisor == 1 {
            return 1;
        }
        divisor = greatest_divisor(divisor, entry.coefficient.unsigned_abs());
    }
    divisor_of(divisor)
}

fn divide_entries(entries: &mut Vec<Entry>, divisor: i64)
    requires { pos 0 <ℤ divisor }
{
    for entry in entries.iter_mut() {
        entry.coefficient = quotient(entry.coefficient, divisor);
    }
}

/// Adds an entry at the end, unless its coefficient is 0.
fn keep(out: &mut Vec<Entry>, variable: Variable, number: Option<i64>) -> Result<(), Stop> {
    let Some(coefficient) = number else {
        return Err(Stop::GivenUp);
    };
    if coefficient == 0 {
        return Ok(());
    }
    out.push(Entry {
        variable,
        coefficient,
    })?;
    Ok(())
}

/// Adds the entries from `at` on that stand before a variable, `k` times, but for one; answers where they end.
fn keep_before(
    out: &mut Vec<Entry>,
    a: &[Entry],
    at: usize,
    k: i64,
    gone: Variable,
    before: Variable,
) -> Result<usize, Stop> {
    let mut i = at;
    while i < a.len() && a[i].variable < before {
        if a[i].variable != gone {
            keep(out, a[i].variable, a[i].coefficient.checked_mul(k))?;
        }
        i += 1;
    }
    Ok(i)
}

/// Adds `k` times the entries but for one, and `m` times others, those of one variable as one.
fn blend_entries(
    out: &mut Vec<Entry>,
    a: &[Entry],
    k: i64,
    gone: Variable,
    b: &[Entry],
    m: i64,
) -> Result<(), Stop> {
    let mut i = 0;
    for y in b {
        i = keep_before(out, a, i, k, gone, y.variable)?;
        if i < a.len() && a[i].variable == y.variable {
            keep(
                out,
                y.variable,
                blend(a[i].coefficient, k, y.coefficient, m),
            )?;
            i += 1;
        } else {
            keep(out, y.variable, y.coefficient.checked_mul(m))?;
        }
    }
    for x in a.iter().skip(i) {
        if x.variable != gone {
            keep(out, x.variable, x.coefficient.checked_mul(k))?;
        }
    }
    Ok(())
}

/// The coefficient of a variable, 0 where it has no entry.
fn coefficient_of(entries: &[Entry], variable: Variable) -> i64 {
    match entries.binary_search_by(|entry| entry.variable.cmp(&variable)) {
        Ok(place) => entries.get(place).map_or(0, |entry| entry.coefficient),
        Err(_) => 0,
    }
}

impl Row {
    /// A copy of the row.
    pub fn copy(&self, alloc: Global) -> Result<Row, AllocError> {
        let entries = Vec::from_slice(alloc, self.entries.as_slice())?;
        Ok(Row {
            basic: self.basic,
            denominator: self.denominator,
            constant: self.constant,
            entries,
        })
    }

    /// A slack of which nothing is said yet.
    pub fn empty(alloc: Global, slack: u32) -> Row {
        Row {
            basic: Variable::Slack(slack),
            denominator: 1,
            constant: 0,
            entries: Vec::new(alloc),
        }
    }

    /// A slack that is so many times a symbol, and a constant.
    pub fn of_symbol(
        alloc: Global,
        slack: u32,
        symbol: Symbol,
        coefficient: i64,
        constant: i64,
    ) -> Result<Row, Stop> {
        let mut row = Row::empty(alloc, slack);
        row.constant = constant;
        row.entries.push(Entry {
            variable: Variable::Free(symbol),
            coefficient,
        })?;
        Ok(row)
    }

    /// The coefficient of a variable, 0 where it has no entry.
    pub fn coefficient(&self, variable: Variable) -> i64 {
        coefficient_of(self.entries.as_slice(), variable)
    }

    /// Adds a row so many times, both of denominator 1.
    pub fn add_times(
        &mut self,
        other: &Row,
        weight: i64,
        scratch: &mut Vec<Entry>,
    ) -> Result<(), Stop> {
        scratch.clear();
        blend_entries(
            scratch,
            self.entries.as_slice(),
            1,
            self.basic,
            other.entries.as_slice(),
            weight,
        )?;
        swap(&mut self.entries, scratch);
        let Some(constant) = blend(self.constant, 1, other.constant, weight) else {
            return Err(Stop::GivenUp);
        };
        self.constant = constant;
        Ok(())
    }

    /// A slack as a fact says it, divided by the greatest divisor of its coefficients, which is answered too.
    pub fn of_fact(alloc: Global, slack: u32, fact: &Fact) -> Result<(Row, i64), AllocError> {
        let mut entries = Vec::new(alloc);
        for term in fact.terms() {
            entries.push(Entry {
                variable: Variable::Free(term.symbol),
                coefficient: term.coefficient,
            })?;
        }
        let mut row = Row {
            basic: Variable::Slack(slack),
            denominator: 1,
            constant: fact.constant_part(),
            entries,
        };
        let divisor = row.round();
        Ok((row, divisor))
    }

    /// Divides a row of denominator 1 by the greatest divisor of its coefficients, rounding down, and answers that.
    pub fn round(&mut self) -> i64
        ensures { pos 0 <ℤ result }
    {
        let divisor = divisor_with(0, self.entries.as_slice());
        if divisor > 1 {
            divide_entries(&mut self.entries, divisor);
            self.constant = quotient(self.constant, divisor);
        }
        divisor
    }

    /// Divides the row by its greatest divisor.
    fn reduce(&mut self) {
        if self.denominator == 1 {
            return;
        }
        let start = greatest_divisor(
            self.denominator.unsigned_abs(),
            self.constant.unsigned_abs(),
        );
        let divisor = divisor_with(start, self.entries.as_slice());
        if divisor > 1 {
            divide_entries(&mut self.entries, divisor);
            self.constant = quotient(self.constant, divisor);
            self.denominator = quotient(self.denominator, divisor);
        }
    }

    /// The entries of `denominator * basic - entries`.
    pub fn opposed(&self, alloc: Global) -> Result<Vec<Entry>, Stop> {
        let own = [Entry {
            variable: self.basic,
            coefficient: self.denominator,
        }];
        let mut entries = Vec::new(alloc);
        blend_entries(
            &mut entries,
            self.entries.as_slice(),
            -1,
            self.basic,
            &own,
            1,
        )?;
        Ok(entries)
    }

    /// Turns the row into one of a variable that it has.
    pub fn solve_for(&mut self, entering: Variable, scratch: &mut Vec<Entry>) -> Result<(), Stop> {
        let coefficient = coefficient_of(self.entries.as_slice(), entering);
        let sign = if coefficient > 0 { -1 } else { 1 };
        let own = [Entry {
            variable: self.basic,
            coefficient: self.denominator,
        }];
        scratch.clear();
        blend_entries(
            scratch,
            self.entries.as_slice(),
            sign,
            entering,
            &own,
            -sign,
        )?;
        swap(&mut self.entries, scratch);
        let (Some(denominator), Some(constant)) = (
            coefficient.checked_abs(),
            self.constant.checked_mul(sign),
        ) else {
            return Err(Stop::GivenUp);
        };
        self.basic = entering;
        self.denominator = denominator;
        self.constant = constant;
        self.reduce();
        Ok(())
    }

    /// Puts what another row says of its variable in place of that variable.
    pub fn substitute(&mut self, other: &Row, scratch: &mut Vec<Entry>) -> Result<(), Stop> {
        let coefficient = coefficient_of(self.entries.as_slice(), other.basic);
        if coefficient == 0 {
            return Ok(());
        }
        self.substitute_times(other, coefficient, scratch)
    }

    fn substitute_times(
        &mut self,
        other: &Row,
        coefficient: i64,
        scratch: &mut Vec<Entry>,
    ) -> Result<(), Stop> {
        let divisor = divisor_of(greatest_divisor(
            coefficient.unsigned_abs(),
            other.denominator.unsigned_abs(),
        ));
        let k = quotient(other.denominator, divisor);
        let m = quotient(coefficient, divisor);
        scratch.clear();
        blend_entries(
            scratch,
            self.entries.as_slice(),
            k,
            other.basic,
            other.entries.as_slice(),
            m,
        )?;
        swap(&mut self.entries, scratch);
        let (Some(denominator), Some(constant)) = (
            self.denominator.checked_mul(k),
            blend(self.constant, k, other.constant, m),
        ) else {
            return Err(Stop::GivenUp);
        };
        self.denominator = denominator;
        self.constant = constant;
        self.reduce();
        Ok(())
    }
}
