//! The statements and terms of a kernel, in lists.

use core_code::tree::{Statement, Term};
use std::alloc::{AllocError, Global};

/// The most statements, or terms, that are gone through. A kernel's text has at most 65,536 bytes.
pub const MOST: usize = 1_000_000;

/// The statements of a block in front of those that are left, the next one last.
fn push_block<'a>(left: &mut Vec<&'a Statement>, block: &'a [Statement]) -> Result<(), AllocError> {
    for statement in block.iter().rev() {
        left.push(statement)?;
    }
    Ok(())
}

/// Puts the statements that stand in a statement in front of those that are left.
fn push_inner<'a>(left: &mut Vec<&'a Statement>, of: &'a Statement) -> Result<(), AllocError> {
    match of {
        Statement::If { taken, skipped, .. } => {
            push_block(left, skipped.as_slice())?;
            push_block(left, taken.as_slice())
        }
        Statement::Loop { body, update, .. } => {
            push_block(left, update.as_slice())?;
            push_block(left, body.as_slice())
        }
        _ => Ok(()),
    }
}

/// All statements of a kernel's body, in the order of the source.
pub fn statements_of(alloc: Global, body: &[Statement]) -> Result<Vec<&Statement>, AllocError> {
    let mut all = Vec::new(alloc);
    let mut left = Vec::new(alloc);
    push_block(&mut left, body)?;
    for _statement in 0..MOST {
        let Some(statement) = left.pop() else {
            return Ok(all);
        };
        all.push(statement)?;
        push_inner(&mut left, statement)?;
    }
    Ok(all)
}

/// Puts a term behind those of a list.
pub fn put<'a>(terms: &mut Vec<&'a Term>, term: &'a Term) -> Result<(), AllocError> {
    terms.push(term)?;
    Ok(())
}

/// Puts two terms behind those of a list.
pub fn put_both<'a>(
    terms: &mut Vec<&'a Term>,
    one: &'a Term,
    other: &'a Term,
) -> Result<(), AllocError> {
    put(terms, one)?;
    put(terms, other)
}

/// Puts the terms that a statement itself has in front of those that are left.
fn push_own<'a>(left: &mut Vec<&'a Term>, of: &'a Statement) -> Result<(), AllocError> {
    match of {
        Statement::Set { value, .. } => put(left, value),
        Statement::Store { index, value, .. } => put_both(left, index, value),
        Statement::If { test, .. } | Statement::Loop { test, .. } => put(left, test),
        _ => Ok(()),
    }
}

/// Puts the operands of a term in front of the terms that are left.
fn push_operands<'a>(left: &mut Vec<&'a Term>, of: &'a Term) -> Result<(), AllocError> {
    match of {
        Term::Load { index: of, .. }
        | Term::Unary { of, .. }
        | Term::Convert { of, .. }
        | Term::Not { of }
        | Term::Within { index: of, .. } => put(left, of),
        Term::Binary {
            left: one,
            right: other,
            ..
        }
        | Term::Compare {
            left: one,
            right: other,
            ..
        }
        | Term::And {
            left: one,
            right: other,
        }
        | Term::Or {
            left: one,
            right: other,
        }
        | Term::Minimum {
            left: one,
            right: other,
        }
        | Term::Maximum {
            left: one,
            right: other,
        }
        | Term::Shift {
            value: one,
            count: other,
            ..
        } => put_both(left, one, other),
        Term::Select {
            test: first,
            taken: second,
            skipped: third,
        }
        | Term::Opaque {
            first,
            second,
            third,
            ..
        } => {
            put(left, first)?;
            put_both(left, second, third)
        }
        Term::Literal { .. } | Term::Variable { .. } | Term::Id { .. } => Ok(()),
    }
}

/// All terms of a statement.
pub fn terms_of(alloc: Global, statement: &Statement) -> Result<Vec<&Term>, AllocError> {
    let mut all = Vec::new(alloc);
    let mut left = Vec::new(alloc);
    push_own(&mut left, statement)?;
    for _term in 0..MOST {
        let Some(term) = left.pop() else {
            return Ok(all);
        };
        all.push(term)?;
        push_operands(&mut left, term)?;
    }
    Ok(all)
}
