//! What a turn of a loop does to its variables.

use crate::affine::{affine, constant_of, number_of};
use crate::frame::Frame;
use core_code::tree::{Operator, Statement, Term, UnaryOperator};
use guesses::{one_of, try_difference, variable};
use linear::Form;
use std::alloc::{AllocError, Global};

/// The size of the step that a variable makes in a turn, in either direction.
#[derive(Clone, Copy)]
pub struct Stride {
    pub slot: u32,
    pub size: u64,
}

/// Steps of variables, whether something is halved, and the slots of variables that are at least doubled.
#[derive(Drop)]
pub struct Turning {
    pub strides: Vec<Stride>,
    pub halves: bool,
    pub doubled: Vec<u32>,
}

impl Turning {
    /// A turn of a loop of which nothing is known.
    pub fn new(alloc: Global) -> Turning {
        Turning {
            strides: Vec::new(alloc),
            halves: false,
            doubled: Vec::new(alloc),
        }
    }

    /// Takes up a step that is not 0.
    pub fn keep(&mut self, slot: u32, step: i64) -> Result<(), AllocError> {
        if step == 0 {
            return Ok(());
        }
        self.strides.push(Stride {
            slot,
            size: step.unsigned_abs(),
        })?;
        Ok(())
    }

    /// Takes up a variable that is at least doubled, once.
    fn keep_doubled(&mut self, slot: u32) -> Result<(), AllocError> {
        if !self.doubled.as_slice().contains(&slot) {
            self.doubled.push(slot)?;
        }
        Ok(())
    }
}

/// The number by which a value is more than the variable was; none where that is no number.
fn step_of(alloc: Global, slot: u32, value: &Form) -> Result<Option<i64>, AllocError> {
    let before = one_of(alloc, variable(slot))?;
    match try_difference(alloc, value, &before)? {
        Some(step) => Ok(number_of(&step)),
        None => Ok(None),
    }
}

/// The value is the variable at least twice: as of `x * 2`, `x << 1`, `x + x` or `2 * x + 1`.
fn is_doubled(slot: u32, value: &Form) -> bool {
    match value.terms() {
        [only] => {
            only.symbol == variable(slot) && only.coefficient >= 2 && value.constant_part() >= 0
        }
        _ => false,
    }
}

/// The operator halves, or makes even less.
fn shrinks(operator: UnaryOperator) -> bool {
    match operator {
        UnaryOperator::ShiftRight(count) => count >= 1,
        UnaryOperator::Negate | UnaryOperator::Complement | UnaryOperator::ShiftLeft(_) => false,
    }
}

/// A part of the term that its value hangs on is shifted right or divided, or is a remainder by what is no number, as in Euclid's
/// algorithm.
fn is_halved(alloc: Global, frame: &Frame, term: &Term) -> Result<bool, AllocError> {
    match term {
        Term::Convert { of, .. } | Term::Within { index: of, .. } => is_halved(alloc, frame, of),
        Term::Unary { operator, .. } => Ok(shrinks(*operator)),
        Term::Binary {
            operator: Operator::Divide,
            right,
            ..
        } => {
            let divisor = constant_of(alloc, frame, right)?;
            Ok(divisor.is_some_and(|number| number >= 2))
        }
        Term::Binary {
            operator: Operator::Remainder,
            right,
            ..
        } => Ok(constant_of(alloc, frame, right)?.is_none()),
        Term::Binary {
            operator: Operator::Add | Operator::Subtract,
            left,
            right,
            ..
        }
        | Term::Minimum { left, right }
        | Term::Maximum { left, right }
        | Term::Select {
            taken: left,
            skipped: right,
            ..
        } => {
            let left = is_halved(alloc, frame, left)?;
            Ok(left || is_halved(alloc, frame, right)?)
        }
        _ => Ok(false),
    }
}

fn turn_set(
    alloc: Global,
    frame: &Frame,
    slot: u32,
    value: &Term,
    turning: &mut Turning,
) -> Result<(), AllocError> {
    if is_halved(alloc, frame, value)? {
        turning.halves = true;
    }
    let Some(value) = affine(alloc, frame, value)? else {
        return Ok(());
    };
    if is_doubled(slot, &value) {
        turning.keep_doubled(slot)?;
    }
    match step_of(alloc, slot, &value)? {
        Some(step) => turning.keep(slot, step),
        None => Ok(()),
    }
}

/// Takes up what a statement does.
#[cycle(turns)]
fn turn(
    alloc: Global,
    frame: &Frame,
    statement: &Statement,
    turning: &mut Turning,
) -> Result<(), AllocError> {
    match statement {
        Statement::Set { slot, value, .. } => turn_set(alloc, frame, *slot, value, turning),
        Statement::If { taken, skipped, .. } => {
            turn_all(alloc, frame, taken.as_slice(), turning)?;
            turn_all(alloc, frame, skipped.as_slice(), turning)
        }
        Statement::Loop { body, update, .. } => {
            turn_all(alloc, frame, body.as_slice(), turning)?;
            turn_all(alloc, frame, update.as_slice(), turning)
        }
        Statement::Store { .. }
        | Statement::Barrier { .. }
        | Statement::Return { .. }
        | Statement::Break { .. }
        | Statement::Continue { .. } => Ok(()),
    }
}

/// Notes the steps of variables in statements, and what is halved or doubled there.
#[cycle(turns)]
pub fn turn_all(
    alloc: Global,
    frame: &Frame,
    body: &[Statement],
    turning: &mut Turning,
) -> Result<(), AllocError> {
    for statement in body {
        turn(alloc, frame, statement, turning)?;
    }
    Ok(())
}
