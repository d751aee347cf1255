//! The numbers and ids that stand in a kernel's text.

use crate::affine::{literal, power};
use core_code::tree::{Core, Function, Statement, Term, UnaryOperator};
use std::alloc::{AllocError, Global};

/// Numbers, rising without repeats; and of which dimensions the kernel asks for the local id and for the group.
#[derive(Drop)]
pub struct Found {
    pub numbers: Vec<u64>,
    pub locals: [bool; 3],
    pub groups: [bool; 3],
}

impl Found {
    /// Notes a number, once.
    fn enter(&mut self, number: u64) -> Result<(), AllocError> {
        if !self.numbers.as_slice().contains(&number) {
            self.numbers.push(number)?;
        }
        Ok(())
    }

    /// Takes up a shift's count, and what it multiplies or divides by.
    fn enter_shift(&mut self, operator: UnaryOperator) -> Result<(), AllocError> {
        match operator {
            UnaryOperator::Negate | UnaryOperator::Complement => Ok(()),
            UnaryOperator::ShiftLeft(count) | UnaryOperator::ShiftRight(count) => {
                self.enter(u64::from(count))?;
                match power(count) {
                    Some(factor) => self.enter(factor.unsigned_abs()),
                    None => Ok(()),
                }
            }
        }
    }

    /// Notes the dimension of an id that a work-item function answers.
    fn enter_id(&mut self, function: Function, dimension: u32) {
        let (local, group) = match function {
            Function::GlobalId => (true, true),
            Function::LocalId => (true, false),
            Function::GroupId => (false, true),
            Function::GlobalSize | Function::LocalSize | Function::NumGroups => (false, false),
        };
        mark(&mut self.locals, dimension, local);
        mark(&mut self.groups, dimension, group);
    }
}

/// Marks a dimension, where it is asked for.
fn mark(marks: &mut [bool; 3], dimension: u32, is_asked: bool) {
    if is_asked && dimension < 3 {
        marks[dimension as usize] = true;
    }
}

/// Notes the numbers and ids that stand in a term.
fn scan_term(term: &Term, found: &mut Found) -> Result<(), AllocError> {
    match term {
        Term::Literal { kind, value } => found.enter(literal(*kind, *value).unsigned_abs()),
        Term::Variable { .. } => Ok(()),
        Term::Id {
            function,
            dimension,
            ..
        } => {
            found.enter_id(*function, *dimension);
            Ok(())
        }
        Term::Load { index: of, .. } | Term::Convert { of, .. } | Term::Not { of } => {
            scan_term(of, found)
        }
        Term::Unary { operator, of, .. } => {
            found.enter_shift(*operator)?;
            scan_term(of, found)
        }
        Term::Binary { left, right, .. }
        | Term::Compare { left, right, .. }
        | Term::And { left, right }
        | Term::Or { left, right }
        | Term::Minimum { left, right }
        | Term::Maximum { left, right }
        | Term::Shift {
            value: left,
            count: right,
            ..
        } => {
            scan_term(left, found)?;
            scan_term(right, found)
        }
        Term::Select {
            test: first,
            taken: second,
            skipped: third,
        }
        | Term::Opaque {
            first,
            second,
            third,
            ..
        } => {
            scan_term(first, found)?;
            scan_term(second, found)?;
            scan_term(third, found)
        }
        Term::Within { length, index, .. } => {
            found.enter(u64::from(*length))?;
            scan_term(index, found)
        }
    }
}

/// Notes the numbers and ids that stand in a statement.
#[cycle(scans)]
fn scan(statement: &Statement, found: &mut Found) -> Result<(), AllocError> {
    match statement {
        Statement::Set { value, .. } => scan_term(value, found),
        Statement::Store { index, value, .. } => {
            scan_term(index, found)?;
            scan_term(value, found)
        }
        Statement::If {
            test,
            taken,
            skipped,
            ..
        } => {
            scan_term(test, found)?;
            scan_all(taken.as_slice(), found)?;
            scan_all(skipped.as_slice(), found)
        }
        Statement::Loop {
            test,
            body,
            update,
            ..
        } => {
            scan_term(test, found)?;
            scan_all(body.as_slice(), found)?;
            scan_all(update.as_slice(), found)
        }
        Statement::Barrier { .. }
        | Statement::Return { .. }
        | Statement::Break { .. }
        | Statement::Continue { .. } => Ok(()),
    }
}

/// Notes the numbers and ids that stand in statements, one after another.
#[cycle(scans)]
fn scan_all(body: &[Statement], found: &mut Found) -> Result<(), AllocError> {
    for statement in body {
        scan(statement, found)?;
    }
    Ok(())
}

/// Notes the local sizes of a kernel and the lengths of its local arrays.
fn scan_declared(core: &Core, found: &mut Found) -> Result<(), AllocError> {
    for size in core.sizes.iter() {
        found.enter(u64::from(*size))?;
    }
    for array in core.arrays.as_slice() {
        found.enter(u64::from(array.length))?;
    }
    Ok(())
}

/// The numbers that stand in a kernel's text, rising, and the dimensions of which it uses local and group ids.
pub fn found_in(alloc: Global, core: &Core) -> Result<Found, AllocError> {
    let mut found = Found {
        numbers: Vec::new(alloc),
        locals: [false; 3],
        groups: [false; 3],
    };
    scan_declared(core, &mut found)?;
    scan_all(core.body.as_slice(), &mut found)?;
    found.numbers.sort()?;
    Ok(found)
}

/// All numbers that stand in the kernel's text, the lengths that it declares and what its shifts multiply by among them; rising, without
/// repeats.
pub fn numbers_of(alloc: Global, core: &Core) -> Result<Vec<u64>, AllocError> {
    let found = found_in(alloc, core)?;
    Ok(found.numbers)
}
