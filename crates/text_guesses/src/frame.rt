//! What a kernel keeps and what it assigns.

use core_code::tree::{Core, Statement};
use guesses::{argument, variable};
use linear::Symbol;
use std::alloc::{AllocError, Global};

/// Local sizes, how many slots are parameters, and the slots that some statement assigns; and whether forms may have products.
#[derive(Drop)]
pub struct Frame {
    is_wide: bool,
    sizes: [u32; 3],
    parameters: usize,
    assigned: Vec<u32>,
}

impl Frame {
    /// The local sizes, the parameters and the assigned slots of a kernel, for a wide walk or a narrow one.
    pub fn of(alloc: Global, core: &Core, is_wide: bool) -> Result<Frame, AllocError> {
        let mut assigned = Vec::new(alloc);
        enter_all(core.body.as_slice(), &mut assigned)?;
        Ok(Frame {
            is_wide,
            sizes: core.sizes,
            parameters: core.arguments.len(),
            assigned,
        })
    }

    /// Forms may have products of symbols.
    pub fn has_products(&self) -> bool {
        self.is_wide
    }

    /// How many slots are parameters.
    pub fn parameters(&self) -> usize {
        self.parameters
    }

    /// The slot is a parameter's.
    pub fn is_parameter(&self, slot: u32) -> bool {
        (slot as usize) < self.parameters
    }

    /// The slot is a parameter's that nothing assigns.
    pub fn is_kept(&self, slot: u32) -> bool {
        self.is_parameter(slot) && !self.assigned.as_slice().contains(&slot)
    }

    /// The symbol that stands for a slot: an argument where nothing assigns the parameter, else a variable.
    pub fn symbol(&self, slot: u32) -> Symbol {
        if self.is_kept(slot) {
            argument(slot)
        } else {
            variable(slot)
        }
    }

    /// The local size along a dimension.
    pub fn size(&self, dimension: u32) -> Option<i64> {
        match dimension {
            0 => Some(i64::from(self.sizes[0])),
            1 => Some(i64::from(self.sizes[1])),
            2 => Some(i64::from(self.sizes[2])),
            _ => None,
        }
    }
}

/// Takes up the slots that a statement assigns.
#[cycle(enters)]
fn enter(statement: &Statement, assigned: &mut Vec<u32>) -> Result<(), AllocError> {
    match statement {
        Statement::Set { slot, .. } => {
            assigned.push(*slot)?;
            Ok(())
        }
        Statement::If { taken, skipped, .. } => {
            enter_all(taken.as_slice(), assigned)?;
            enter_all(skipped.as_slice(), assigned)
        }
        Statement::Loop { body, update, .. } => {
            enter_all(body.as_slice(), assigned)?;
            enter_all(update.as_slice(), assigned)
        }
        Statement::Store { .. }
        | Statement::Barrier { .. }
        | Statement::Return { .. }
        | Statement::Break { .. }
        | Statement::Continue { .. } => Ok(()),
    }
}

/// Notes the slots that statements assign.
#[cycle(enters)]
fn enter_all(body: &[Statement], assigned: &mut Vec<u32>) -> Result<(), AllocError> {
    for statement in body {
        enter(statement, assigned)?;
    }
    Ok(())
}
