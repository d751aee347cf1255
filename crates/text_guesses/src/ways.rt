//! The ways in which one loop may end.

use crate::frame::Frame;
use crate::starts::Starts;
use crate::test_forms::TestForm;
use crate::turning::Turning;
use certificate::tree::Descent;
use guesses::{
    Factors, Ranking, copied, index_of, is_same, is_variable, one_of, plus, try_difference,
    try_multiple, try_sum, variable,
};
use linear::{Form, Symbol};
use std::alloc::{AllocError, Global};

/// How many ways of a loop are tried.
const MOST: usize = 40;

/// The ways in which a loop may end, in the order in which they are tried.
#[derive(Drop)]
pub struct Options {
    pub number: u32,
    pub rankings: Vec<Ranking>,
}

impl Options {
    /// The options of a loop, by its number, without any ranking.
    pub fn new(alloc: Global, number: u32) -> Options {
        Options {
            number,
            rankings: Vec::new(alloc),
        }
    }

    fn has(&self, descent: Descent, form: &Form) -> bool {
        for ranking in self.rankings.as_slice() {
            if ranking.descent == descent && is_same(&ranking.form, form) {
                return true;
            }
        }
        false
    }

    fn keep(&mut self, descent: Descent, form: Form) -> Result<(), AllocError> {
        if self.rankings.len() >= MOST || self.has(descent, &form) {
            return Ok(());
        }
        self.rankings.push(Ranking {
            number: self.number,
            descent,
            form,
        })?;
        Ok(())
    }

    /// Keeps the rankings that a test at the head gives by the steps of its variables, or by halving, but for steps by 1.
    fn keep_large(
        &mut self,
        alloc: Global,
        given: &TestForm,
        turning: &Turning,
    ) -> Result<(), AllocError> {
        let falls = falls(alloc, &given.form, turning)?;
        for fall in falls.as_slice() {
            let form = copied(alloc, &given.form)?;
            self.keep(Descent::Down(*fall), form)?;
        }
        if turning.halves && given.scale == 1 {
            let form = copied(alloc, &given.form)?;
            self.keep(Descent::Halve, form)?;
        }
        Ok(())
    }

    /// Keeps the rankings that the forms of the test at a loop's head give: larger steps first, then steps by 1, then sums of two forms.
    pub fn keep_tests(
        &mut self,
        alloc: Global,
        forms: &[TestForm],
        turning: &Turning,
    ) -> Result<(), AllocError> {
        for given in forms {
            self.keep_large(alloc, given, turning)?;
        }
        for given in forms {
            let form = copied(alloc, &given.form)?;
            self.keep(Descent::Down(1), form)?;
        }
        self.keep_sums(alloc, forms)
    }

    /// Keeps the rankings that a test gives of a queue: where both of its ends move, `tail - head`, as of room for 32, `32 - head`.
    pub fn keep_rooms(
        &mut self,
        alloc: Global,
        forms: &[TestForm],
        turning: &Turning,
        numbers: &[u64],
    ) -> Result<(), AllocError> {
        for given in forms {
            if let Some(rest) = without_end(alloc, &given.form, turning)? {
                for number in numbers {
                    if let Some(form) = with_room(alloc, &rest, *number)? {
                        self.keep_down(form)?;
                    }
                }
            }
        }
        Ok(())
    }

    /// The sums of two forms of a test, one of which falls in each turn, as in a merge.
    fn keep_sums(&mut self, alloc: Global, forms: &[TestForm]) -> Result<(), AllocError> {
        for (place, given) in forms.iter().enumerate() {
            for earlier in forms.iter().take(place) {
                if let Some(form) = try_sum(alloc, &earlier.form, &given.form)? {
                    self.keep_down(form)?;
                }
            }
        }
        Ok(())
    }

    /// A form with terms, which falls by 1.
    pub fn keep_down(&mut self, form: Form) -> Result<(), AllocError> {
        if form.terms().is_empty() {
            return Ok(());
        }
        self.keep(Descent::Down(1), form)
    }

    /// The form was above 0 in the turn before, so it is above 0 with a step more.
    fn keep_before(&mut self, alloc: Global, form: &Form, fall: u64) -> Result<(), AllocError> {
        let Ok(more) = i64::try_from(fall) else {
            return Ok(());
        };
        match plus(alloc, form, more)? {
            Some(form) => self.keep(Descent::Down(fall), form),
            None => Ok(()),
        }
    }

    /// Keeps, of a form that is halved, that twice the form and one more is halved in each turn: before the last halving it was no larger.
    fn keep_twice(&mut self, alloc: Global, form: &Form) -> Result<(), AllocError> {
        let Some(twice) = try_multiple(alloc, form, 2)? else {
            return Ok(());
        };
        match plus(alloc, &twice, 1)? {
            Some(form) => self.keep(Descent::Halve, form),
            None => Ok(()),
        }
    }

    /// Keeps that a variable doubles: from the number on that it has where the loop opens, as far as the text tells, or from 1 on.
    fn keep_double(
        &mut self,
        alloc: Global,
        slot: u32,
        start: Option<u64>,
    ) -> Result<(), AllocError> {
        if let Some(least) = start {
            let form = one_of(alloc, variable(slot))?;
            self.keep(Descent::Double(least), form)?;
        }
        let form = one_of(alloc, variable(slot))?;
        self.keep(Descent::Double(1), form)
    }

    /// Keeps of the variables that are doubled in a turn those that some of these forms speak of.
    pub fn keep_doubles(
        &mut self,
        alloc: Global,
        forms: &[TestForm],
        turning: &Turning,
        starts: &Starts,
    ) -> Result<(), AllocError> {
        for slot in turning.doubled.as_slice() {
            if forms.iter().any(|given| speaks_of(&given.form, *slot)) {
                self.keep_double(alloc, *slot, starts.of(*slot))?;
            }
        }
        Ok(())
    }

    /// Keeps the rankings that a test in the middle of a turn gives which leaves the loop.
    pub fn keep_exit(
        &mut self,
        alloc: Global,
        given: &TestForm,
        turning: &Turning,
    ) -> Result<(), AllocError> {
        let falls = falls(alloc, &given.form, turning)?;
        for fall in falls.as_slice() {
            self.keep_before(alloc, &given.form, *fall)?;
        }
        if turning.halves && given.scale == 1 {
            self.keep_twice(alloc, &given.form)?;
        }
        self.keep_before(alloc, &given.form, 1)
    }
}

/// The form has a term of a variable.
fn speaks_of(form: &Form, slot: u32) -> bool {
    form.terms()
        .iter()
        .any(|term| term.symbol == variable(slot))
}

/// The symbol is of a variable that steps in the loop.
fn is_moving(symbol: Symbol, turning: &Turning) -> bool {
    for stride in turning.strides.as_slice() {
        if variable(stride.slot) == symbol {
            return true;
        }
    }
    false
}

/// The difference of two variables that both step, without the first one.
fn without_end(alloc: Global, form: &Form, turning: &Turning) -> Result<Option<Form>, AllocError> {
    let (first, second) = match form.terms() {
        [one, other] if one.coefficient == 1 && other.coefficient == -1 => (one, other),
        [one, other] if one.coefficient == -1 && other.coefficient == 1 => (other, one),
        _ => return Ok(None),
    };
    if !is_moving(first.symbol, turning) || !is_moving(second.symbol, turning) {
        return Ok(None);
    }
    let end = one_of(alloc, first.symbol)?;
    try_difference(alloc, form, &end)
}

/// A number above 1 and a form.
fn with_room(alloc: Global, form: &Form, number: u64) -> Result<Option<Form>, AllocError> {
    match i64::try_from(number) {
        Ok(room) if room > 1 => plus(alloc, form, room),
        _ => Ok(None),
    }
}

/// Takes up a fall above 1 that is not there yet.
fn enter(falls: &mut Vec<u64>, fall: u64) -> Result<(), AllocError> {
    if fall >= 2 && !falls.as_slice().contains(&fall) {
        falls.push(fall)?;
    }
    Ok(())
}

/// Takes up what the steps of a variable make of a form that has it so many times.
fn enter_term(
    falls: &mut Vec<u64>,
    symbol: Symbol,
    times: u64,
    turning: &Turning,
) -> Result<(), AllocError> {
    enter(falls, times)?;
    for stride in turning.strides.as_slice() {
        if variable(stride.slot) == symbol {
            if let Some(fall) = times.checked_mul(stride.size) {
                enter(falls, fall)?;
            }
        }
    }
    Ok(())
}

/// The numbers above 1 by which a form may fall in a turn, largest first.
fn falls(alloc: Global, form: &Form, turning: &Turning) -> Result<Vec<u64>, AllocError> {
    let mut falls = Vec::new(alloc);
    for term in form.terms() {
        if is_variable(term.symbol) {
            enter_term(
                &mut falls,
                term.symbol,
                term.coefficient.unsigned_abs(),
                turning,
            )?;
        }
    }
    falls.sort()?;
    falls.as_mut_slice().reverse();
    Ok(falls)
}

/// The slot was assigned before, or is a parameter's.
fn is_seen(frame: &Frame, seen: &[u32], symbol: Symbol) -> bool {
    match u32::try_from(index_of(symbol)) {
        Ok(slot) => frame.is_parameter(slot) || seen.contains(&slot),
        Err(_) => false,
    }
}

/// Each variable of the form was assigned before, or is a parameter.
pub fn are_seen(frame: &Frame, seen: &[u32], form: &Form) -> bool {
    for term in form.terms() {
        if !are_factors_seen(frame, seen, term.symbol) {
            return false;
        }
    }
    true
}

/// Each variable among the factors of a symbol was assigned before, or is a parameter.
fn are_factors_seen(frame: &Frame, seen: &[u32], symbol: Symbol) -> bool {
    for factor in Factors::of(symbol).symbols() {
        if factor.is_some_and(|one| is_variable(one) && !is_seen(frame, seen, one)) {
            return false;
        }
    }
    true
}
