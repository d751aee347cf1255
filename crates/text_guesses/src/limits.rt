//! Forms above and below a term's multiples.

use crate::affine::{affine, number_of, power};
use crate::frame::Frame;
use core_code::tree::{Operator, Term, UnaryOperator};
use guesses::{copied, plus, try_multiple, try_sum};
use linear::Form;
use std::alloc::{AllocError, Global};

/// How many limits of one term are kept.
const ROOM: usize = 6;

/// A form with the factor of what it limits.
#[derive(Drop)]
pub struct Limit {
    pub factor: i64,
    pub form: Form,
}

/// The side of a term on which its limits are.
#[derive(Clone, Copy, PartialEq, Eq)]
pub enum Side {
    Above,
    Below,
}

/// The opposite side of a term.
fn other(side: Side) -> Side {
    match side {
        Side::Above => Side::Below,
        Side::Below => Side::Above,
    }
}

fn keep(limits: &mut Vec<Limit>, factor: i64, form: Option<Form>) -> Result<(), AllocError> {
    if let Some(form) = form {
        if limits.len() < ROOM {
            limits.push(Limit { factor, form })?;
        }
    }
    Ok(())
}

/// One number alone, with factor 1.
fn number(alloc: Global, number: i64) -> Result<Vec<Limit>, AllocError> {
    let mut limits = Vec::new(alloc);
    keep(&mut limits, 1, Some(Form::constant(alloc, number)))?;
    Ok(limits)
}

/// One form alone, with factor 1.
fn single(alloc: Global, form: Form) -> Result<Vec<Limit>, AllocError> {
    let mut limits = Vec::new(alloc);
    keep(&mut limits, 1, Some(form))?;
    Ok(limits)
}

/// Adds copies of limits, while there is room.
fn keep_all(alloc: Global, limits: &mut Vec<Limit>, more: &[Limit]) -> Result<(), AllocError> {
    for limit in more {
        let form = copied(alloc, &limit.form)?;
        keep(limits, limit.factor, Some(form))?;
    }
    Ok(())
}

/// The limits of the negated term, from the other side's limits of the term.
fn negated(alloc: Global, limits: &[Limit]) -> Result<Vec<Limit>, AllocError> {
    let mut out = Vec::new(alloc);
    for limit in limits {
        let form = try_multiple(alloc, &limit.form, -1)?;
        keep(&mut out, limit.factor, form)?;
    }
    Ok(out)
}

/// The sum of one limit of each of two terms.
fn sum_of(alloc: Global, left: &Limit, right: &Limit) -> Result<Option<Form>, AllocError> {
    let Some(first) = try_multiple(alloc, &left.form, right.factor)? else {
        return Ok(None);
    };
    let Some(second) = try_multiple(alloc, &right.form, left.factor)? else {
        return Ok(None);
    };
    try_sum(alloc, &first, &second)
}

/// The limits of a sum, by those of its parts on the same side.
fn sums(alloc: Global, left: &[Limit], right: &[Limit]) -> Result<Vec<Limit>, AllocError> {
    let mut out = Vec::new(alloc);
    for first in left {
        for second in right {
            if let Some(factor) = first.factor.checked_mul(second.factor) {
                let form = sum_of(alloc, first, second)?;
                keep(&mut out, factor, form)?;
            }
        }
    }
    Ok(out)
}

/// The most that the division of a multiple loses, as a number of at most 0; none where it is too large for `i64`.
fn lost(factor: i64, divisor: i64) -> Option<i64> {
    let rest = 1i64.checked_sub(divisor)?;
    factor.checked_mul(rest)
}

/// A limit of a quotient: below it, what the division loses is taken off.
fn quotient_form(
    alloc: Global,
    limit: &Limit,
    divisor: i64,
    side: Side,
) -> Result<Option<Form>, AllocError> {
    match side {
        Side::Above => Ok(Some(copied(alloc, &limit.form)?)),
        Side::Below => match lost(limit.factor, divisor) {
            Some(less) => plus(alloc, &limit.form, less),
            None => Ok(None),
        },
    }
}

/// The limits of the quotient by a number above 0, by those of the dividend.
fn quotients(
    alloc: Global,
    limits: &[Limit],
    divisor: i64,
    side: Side,
) -> Result<Vec<Limit>, AllocError> {
    let mut out = Vec::new(alloc);
    for limit in limits {
        if let Some(factor) = limit.factor.checked_mul(divisor) {
            let form = quotient_form(alloc, limit, divisor, side)?;
            keep(&mut out, factor, form)?;
        }
    }
    if side == Side::Below {
        keep(&mut out, 1, Some(Form::constant(alloc, 0)))?;
    }
    Ok(out)
}

/// The limits of a part of a term's value that is from 0 to a number: a remainder, or bits.
fn parts(alloc: Global, limits: &[Limit], most: i64, side: Side) -> Result<Vec<Limit>, AllocError> {
    match side {
        Side::Below => number(alloc, 0),
        Side::Above => {
            let mut out = number(alloc, most)?;
            keep_all(alloc, &mut out, limits)?;
            Ok(out)
        }
    }
}

/// The limits of a quotient, a remainder or bits by a number, by those of the first operand; none for other operators.
fn by_number(
    alloc: Global,
    operator: Operator,
    limits: &[Limit],
    by: i64,
    side: Side,
) -> Result<Vec<Limit>, AllocError> {
    if by < 1 {
        return Ok(Vec::new(alloc));
    }
    match operator {
        Operator::Divide => quotients(alloc, limits, by, side),
        Operator::Remainder => parts(alloc, limits, by - 1, side),
        Operator::BitAnd => parts(alloc, limits, by, side),
        Operator::Add
        | Operator::Subtract
        | Operator::Multiply
        | Operator::BitOr
        | Operator::BitXor => Ok(Vec::new(alloc)),
    }
}

/// The limits of what an operator with one operand makes of a term, by those of the term.
fn changed(
    alloc: Global,
    operator: UnaryOperator,
    limits: &[Limit],
    side: Side,
) -> Result<Vec<Limit>, AllocError> {
    match operator {
        UnaryOperator::Negate => negated(alloc, limits),
        UnaryOperator::ShiftRight(count) => match power(count) {
            Some(divisor) => by_number(alloc, Operator::Divide, limits, divisor, side),
            None => Ok(Vec::new(alloc)),
        },
        UnaryOperator::Complement | UnaryOperator::ShiftLeft(_) => Ok(Vec::new(alloc)),
    }
}

/// The side of the operand on which limits are needed for limits of the result on this side.
fn side_within(operator: UnaryOperator, side: Side) -> Side {
    match operator {
        UnaryOperator::Negate => other(side),
        UnaryOperator::Complement | UnaryOperator::ShiftLeft(_) | UnaryOperator::ShiftRight(_) =>
            side,
    }
}

/// The limits of the smaller or the greater one of two terms, by those of both, if they limit it on that side.
fn either(
    alloc: Global,
    left: Vec<Limit>,
    right: &[Limit],
    is_limited: bool,
) -> Result<Vec<Limit>, AllocError> {
    if !is_limited {
        return Ok(Vec::new(alloc));
    }
    let mut left = left;
    keep_all(alloc, &mut left, right)?;
    Ok(left)
}

/// The limits of a difference, by those of its first part and of its second part on the other side.
fn differences(alloc: Global, left: &[Limit], right: &[Limit]) -> Result<Vec<Limit>, AllocError> {
    let right = negated(alloc, right)?;
    sums(alloc, left, right.as_slice())
}

/// The number that a single limit without symbols is; none of other limits.
fn number_in(limits: &[Limit]) -> Option<i64> {
    match limits {
        [only] => number_of(&only.form),
        _ => None,
    }
}

/// The side of the second operand on which limits are needed for limits of the result on this side.
fn second_side(operator: Operator, side: Side) -> Side {
    match operator {
        Operator::Subtract => other(side),
        Operator::Add
        | Operator::Multiply
        | Operator::Divide
        | Operator::Remainder
        | Operator::BitAnd
        | Operator::BitOr
        | Operator::BitXor => side,
    }
}

/// The limits of what an operator makes of two terms, by theirs.
fn joined(
    alloc: Global,
    operator: Operator,
    left: &[Limit],
    right: &[Limit],
    side: Side,
) -> Result<Vec<Limit>, AllocError> {
    match operator {
        Operator::Add => sums(alloc, left, right),
        Operator::Subtract => differences(alloc, left, right),
        _ => match number_in(right) {
            Some(by) => by_number(alloc, operator, left, by, side),
            None => Ok(Vec::new(alloc)),
        },
    }
}

/// The limits of a term `t` on a side: `factor * t <= form` above, `factor * t >= form` below.
pub fn limits_of(
    alloc: Global,
    frame: &Frame,
    term: &Term,
    side: Side,
) -> Result<Vec<Limit>, AllocError> {
    if let Some(form) = affine(alloc, frame, term)? {
        return single(alloc, form);
    }
    match term {
        Term::Convert { of, .. } | Term::Within { index: of, .. } => {
            limits_of(alloc, frame, of, side)
        }
        Term::Unary { operator, of, .. } => {
            let within = limits_of(alloc, frame, of, side_within(*operator, side))?;
            changed(alloc, *operator, within.as_slice(), side)
        }
        Term::Binary {
            operator,
            left,
            right,
            ..
        } => {
            let first = limits_of(alloc, frame, left, side)?;
            let second = limits_of(alloc, frame, right, second_side(*operator, side))?;
            joined(alloc, *operator, first.as_slice(), second.as_slice(), side)
        }
        Term::Minimum { left, right } => {
            let first = limits_of(alloc, frame, left, side)?;
            let second = limits_of(alloc, frame, right, side)?;
            either(alloc, first, second.as_slice(), side == Side::Above)
        }
        Term::Maximum { left, right } => {
            let first = limits_of(alloc, frame, left, side)?;
            let second = limits_of(alloc, frame, right, side)?;
            either(alloc, first, second.as_slice(), side == Side::Below)
        }
        _ => Ok(Vec::new(alloc)),
    }
}
