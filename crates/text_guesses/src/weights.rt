//! Rankings of two variables that a turn changes in their places: of a reader that takes up a word of 32 bits wherever none is left,
//! `32 * (words - pos) + left`; of a walk along rows of `w` elements, `w * (h - y) - x`.

use crate::affine::{affine, number_of};
use crate::frame::Frame;
use crate::test_forms::{TestForm, keep_test};
use core_code::tree::{Statement, Term};
use guesses::{
    is_global, is_same, one_of, speaks_of, try_difference, try_product, try_sum, variable,
};
use linear::{Form, Symbol};
use std::alloc::{AllocError, Global};

/// How many rankings of one loop are made.
const MOST: usize = 12;

/// How many values and ends of variables are looked at.
const ROOM: usize = 24;

/// What the statements of a loop do to the variables that they step by 1 or set: the slots of those that fall, of those that grow, what
/// variables are set to, and the forms that they are compared with.
#[derive(Drop)]
pub struct Digits {
    falling: Vec<u32>,
    growing: Vec<u32>,
    set: Vec<(u32, Form)>,
    ends: Vec<(u32, Form)>,
}

/// Takes up a form of a slot, where there is room.
fn enter(list: &mut Vec<(u32, Form)>, slot: u32, form: Form) -> Result<(), AllocError> {
    let is_there = list
        .iter()
        .any(|other| other.0 == slot && is_same(&other.1, &form));
    if list.len() < ROOM && !is_there {
        list.push((slot, form))?;
    }
    Ok(())
}

/// The form is over what is the same wherever an item comes: no variable is in it.
fn is_kept(form: &Form) -> bool {
    form.terms().iter().all(|term| is_global(term.symbol))
}

impl Digits {
    /// The variables of statements that do nothing.
    pub fn new(alloc: Global) -> Digits {
        Digits {
            falling: Vec::new(alloc),
            growing: Vec::new(alloc),
            set: Vec::new(alloc),
            ends: Vec::new(alloc),
        }
    }

    /// Takes up that a variable is set to a value: a step by 1, or what it begins anew with.
    fn take_set(
        &mut self,
        alloc: Global,
        frame: &Frame,
        slot: u32,
        value: &Term,
    ) -> Result<(), AllocError> {
        let Some(value) = affine(alloc, frame, value)? else {
            return Ok(());
        };
        let before = one_of(alloc, variable(slot))?;
        let Some(step) = try_difference(alloc, &value, &before)? else {
            return Ok(());
        };
        match number_of(&step) {
            Some(1) => self.growing.push(slot)?,
            Some(-1) => self.falling.push(slot)?,
            _ if is_kept(&value) => enter(&mut self.set, slot, value)?,
            _ => {}
        }
        Ok(())
    }

    /// Takes up what a variable is compared with.
    fn take_end(
        &mut self,
        alloc: Global,
        frame: &Frame,
        compared: &Term,
        end: &Term,
    ) -> Result<(), AllocError> {
        let Term::Variable { slot } = compared else {
            return Ok(());
        };
        match affine(alloc, frame, end)? {
            Some(form) if is_kept(&form) => enter(&mut self.ends, *slot, form),
            _ => Ok(()),
        }
    }

    /// Forms that rank a loop by so many times one of its tests' forms and a variable that falls, and begins anew with that number.
    fn weigh_falling(
        &self,
        alloc: Global,
        form: &Form,
        found: &mut Vec<Form>,
    ) -> Result<(), AllocError> {
        for (slot, start) in self.set.iter() {
            if self.falling.as_slice().contains(slot) && !speaks_of(form, variable(*slot)) {
                let rest = one_of(alloc, variable(*slot))?;
                add_weighted(alloc, form, start, &rest, found)?;
            }
        }
        Ok(())
    }

    /// Forms that rank a loop by so many times one of its tests' forms, less a variable that grows from 0 to that number.
    fn weigh_growing(
        &self,
        alloc: Global,
        form: &Form,
        found: &mut Vec<Form>,
    ) -> Result<(), AllocError> {
        for (slot, end) in self.ends.iter() {
            if self.grows_from_zero(*slot) && !speaks_of(form, variable(*slot)) {
                if let Some(rest) = opposite(alloc, variable(*slot))? {
                    add_weighted(alloc, form, end, &rest, found)?;
                }
            }
        }
        Ok(())
    }

    /// The variable grows by 1, and is set to 0 somewhere.
    fn grows_from_zero(&self, slot: u32) -> bool {
        self.growing.as_slice().contains(&slot)
            && self
                .set
                .iter()
                .any(|other| other.0 == slot && number_of(&other.1) == Some(0))
    }

    /// The forms that rank a loop by the forms of its tests and two of its variables.
    pub fn weighted(&self, alloc: Global, forms: &[TestForm]) -> Result<Vec<Form>, AllocError> {
        let mut found = Vec::new(alloc);
        for given in forms {
            if given.scale == 1 {
                self.weigh_falling(alloc, &given.form, &mut found)?;
                self.weigh_growing(alloc, &given.form, &mut found)?;
            }
        }
        Ok(found)
    }
}

/// Takes up what a test compares.
fn take_test(
    alloc: Global,
    frame: &Frame,
    test: &Term,
    digits: &mut Digits,
) -> Result<(), AllocError> {
    match test {
        Term::Not { of } => take_test(alloc, frame, of, digits),
        Term::Convert { of, .. } => take_test(alloc, frame, of, digits),
        Term::And { left, right } => {
            take_test(alloc, frame, left, digits)?;
            take_test(alloc, frame, right, digits)
        }
        Term::Or { left, right } => {
            take_test(alloc, frame, left, digits)?;
            take_test(alloc, frame, right, digits)
        }
        Term::Compare { left, right, .. } => {
            digits.take_end(alloc, frame, left, right)?;
            digits.take_end(alloc, frame, right, left)
        }
        _ => Ok(()),
    }
}

/// Takes up what a statement does.
#[cycle(digits)]
fn take(
    alloc: Global,
    frame: &Frame,
    statement: &Statement,
    digits: &mut Digits,
) -> Result<(), AllocError> {
    match statement {
        Statement::Set { slot, value, .. } => digits.take_set(alloc, frame, *slot, value),
        Statement::If {
            test,
            taken,
            skipped,
            ..
        } => {
            take_test(alloc, frame, test, digits)?;
            take_all(alloc, frame, taken.as_slice(), digits)?;
            take_all(alloc, frame, skipped.as_slice(), digits)
        }
        Statement::Loop { .. }
        | Statement::Store { .. }
        | Statement::Barrier { .. }
        | Statement::Return { .. }
        | Statement::Break { .. }
        | Statement::Continue { .. } => Ok(()),
    }
}

/// Takes up what statements do, but for those of loops among them.
#[cycle(digits)]
pub fn take_all(
    alloc: Global,
    frame: &Frame,
    body: &[Statement],
    digits: &mut Digits,
) -> Result<(), AllocError> {
    for statement in body {
        take(alloc, frame, statement, digits)?;
    }
    Ok(())
}

/// A symbol, once less than 0.
fn opposite(alloc: Global, symbol: Symbol) -> Result<Option<Form>, AllocError> {
    let own = one_of(alloc, symbol)?;
    try_difference(alloc, &Form::constant(alloc, 0), &own)
}

/// Adds a form so many times and another one, where there is room.
fn add_weighted(
    alloc: Global,
    form: &Form,
    times: &Form,
    rest: &Form,
    found: &mut Vec<Form>,
) -> Result<(), AllocError> {
    let Some(product) = try_product(alloc, form, times)? else {
        return Ok(());
    };
    match try_sum(alloc, &product, rest)? {
        Some(sum) if found.len() < MOST => {
            found.push(sum)?;
            Ok(())
        }
        _ => Ok(()),
    }
}

/// Takes up the forms that are above 0 where the parts of a test are true, or false where `truth` is: all parts, however they are joined.
pub fn keep_parts(
    alloc: Global,
    frame: &Frame,
    test: &Term,
    truth: bool,
    forms: &mut Vec<TestForm>,
) -> Result<(), AllocError> {
    match test {
        Term::And { left, right } => {
            keep_parts(alloc, frame, left, truth, forms)?;
            keep_parts(alloc, frame, right, truth, forms)
        }
        Term::Or { left, right } => {
            keep_parts(alloc, frame, left, truth, forms)?;
            keep_parts(alloc, frame, right, truth, forms)
        }
        _ => keep_test(alloc, frame, test, truth, forms),
    }
}
