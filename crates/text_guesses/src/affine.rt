//! Terms as forms, where they are linear.

use crate::frame::Frame;
use core_code::tree::{Function, Operator, Term, UnaryOperator};
use guesses::{group, groups, local, one_of, try_difference, try_multiple, try_product, try_sum};
use linear::Form;
use std::alloc::{AllocError, Global};
use words::Kind;

/// The number that a literal's bits stand for in its kind.
pub fn literal(kind: Kind, value: u32) -> i64 {
    let plain = i64::from(value);
    match kind {
        Kind::Uint | Kind::Size => plain,
        Kind::Int => {
            if plain > 2_147_483_647 {
                plain - 4_294_967_296
            } else {
                plain
            }
        }
    }
}

/// The power of two of a shift's count.
pub fn power(count: u32) -> Option<i64> {
    if count > 31 {
        return None;
    }
    Some((1u64 << count) as i64)
}

/// A group's start along a dimension, and the local id.
fn global_id(alloc: Global, size: i64, dimension: u32) -> Result<Option<Form>, AllocError> {
    let first = one_of(alloc, group(dimension))?;
    let Some(start) = try_multiple(alloc, &first, size)? else {
        return Ok(None);
    };
    let local = one_of(alloc, local(dimension))?;
    try_sum(alloc, &start, &local)
}

/// The form of the number of all items along a dimension; none where it is too large.
fn global_size(alloc: Global, size: i64, dimension: u32) -> Result<Option<Form>, AllocError> {
    let count = one_of(alloc, groups(dimension))?;
    try_multiple(alloc, &count, size)
}

/// The form of what a work-item function answers in a dimension; none where the dimension is above 2 or it is linear in no symbol.
pub fn id_form(
    alloc: Global,
    frame: &Frame,
    function: Function,
    dimension: u32,
) -> Result<Option<Form>, AllocError> {
    let Some(size) = frame.size(dimension) else {
        return Ok(None);
    };
    let symbol = match function {
        Function::GlobalId => return global_id(alloc, size, dimension),
        Function::GlobalSize => return global_size(alloc, size, dimension),
        Function::LocalSize => return Ok(Some(Form::constant(alloc, size))),
        Function::LocalId => local(dimension),
        Function::GroupId => group(dimension),
        Function::NumGroups => groups(dimension),
    };
    let form = one_of(alloc, symbol)?;
    Ok(Some(form))
}

/// The number that a form without terms is.
pub fn number_of(form: &Form) -> Option<i64> {
    if form.terms().is_empty() {
        Some(form.constant_part())
    } else {
        None
    }
}

fn product(
    alloc: Global,
    frame: &Frame,
    left: &Form,
    right: &Form,
) -> Result<Option<Form>, AllocError> {
    match (number_of(left), number_of(right)) {
        (Some(number), _) => try_multiple(alloc, right, number),
        (None, Some(number)) => try_multiple(alloc, left, number),
        (None, None) if frame.has_products() => try_product(alloc, left, right),
        (None, None) => Ok(None),
    }
}

fn joined(
    alloc: Global,
    frame: &Frame,
    operator: Operator,
    left: &Form,
    right: &Form,
) -> Result<Option<Form>, AllocError> {
    match operator {
        Operator::Add => try_sum(alloc, left, right),
        Operator::Subtract => try_difference(alloc, left, right),
        Operator::Multiply => product(alloc, frame, left, right),
        Operator::Divide
        | Operator::Remainder
        | Operator::BitAnd
        | Operator::BitOr
        | Operator::BitXor => Ok(None),
    }
}

/// The number by which an operator with one operand multiplies; none where it does not.
fn factor(operator: UnaryOperator) -> Option<i64> {
    match operator {
        UnaryOperator::Negate => Some(-1),
        UnaryOperator::ShiftLeft(count) => power(count),
        UnaryOperator::Complement | UnaryOperator::ShiftRight(_) => None,
    }
}

fn changed(
    alloc: Global,
    operator: UnaryOperator,
    of: Option<Form>,
) -> Result<Option<Form>, AllocError> {
    let (Some(of), Some(factor)) = (of, factor(operator)) else {
        return Ok(None);
    };
    try_multiple(alloc, &of, factor)
}

fn of_both(
    alloc: Global,
    frame: &Frame,
    operator: Operator,
    left: Option<Form>,
    right: Option<Form>,
) -> Result<Option<Form>, AllocError> {
    let (Some(left), Some(right)) = (left, right) else {
        return Ok(None);
    };
    joined(alloc, frame, operator, &left, &right)
}

/// The term's value as a form, if it is linear.
pub fn affine(alloc: Global, frame: &Frame, term: &Term) -> Result<Option<Form>, AllocError> {
    match term {
        Term::Literal { kind, value } => Ok(Some(Form::constant(alloc, literal(*kind, *value)))),
        Term::Variable { slot } => Ok(Some(one_of(alloc, frame.symbol(*slot))?)),
        Term::Id {
            function,
            dimension,
            ..
        } => id_form(alloc, frame, *function, *dimension),
        Term::Convert { of, .. } | Term::Within { index: of, .. } => affine(alloc, frame, of),
        Term::Unary { operator, of, .. } => {
            let of = affine(alloc, frame, of)?;
            changed(alloc, *operator, of)
        }
        Term::Binary {
            operator,
            left,
            right,
            ..
        } => {
            let left = affine(alloc, frame, left)?;
            of_both(alloc, frame, *operator, left, affine(alloc, frame, right)?)
        }
        Term::Load { .. }
        | Term::Compare { .. }
        | Term::Not { .. }
        | Term::And { .. }
        | Term::Or { .. }
        | Term::Select { .. }
        | Term::Minimum { .. }
        | Term::Maximum { .. }
        | Term::Shift { .. }
        | Term::Opaque { .. } => Ok(None),
    }
}

/// The number that a term always has; none where it is not linear or depends on a symbol.
pub fn constant_of(alloc: Global, frame: &Frame, term: &Term) -> Result<Option<i64>, AllocError> {
    match affine(alloc, frame, term)? {
        Some(form) => Ok(number_of(&form)),
        None => Ok(None),
    }
}
