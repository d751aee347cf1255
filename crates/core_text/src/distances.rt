//! Jumps that leave more than the loop in which they stand.

use core_code::tree::Statement;
use std::alloc::AllocError;

/// The loops that a jump in a statement names from a loop within them, where the statement stands in the loop of this number.
#[cycle(distances)]
fn far_of(statement: &Statement, inside: u32, far: &mut Vec<u32>) -> Result<(), AllocError> {
    match statement {
        Statement::Break { of, .. } | Statement::Continue { of, .. } => {
            if *of != inside {
                far.push(*of)?;
            }
            Ok(())
        }
        Statement::If { taken, skipped, .. } => {
            far_in(taken.as_slice(), inside, far)?;
            far_in(skipped.as_slice(), inside, far)
        }
        Statement::Loop {
            number,
            body,
            update,
            ..
        } => {
            far_in(body.as_slice(), *number, far)?;
            far_in(update.as_slice(), *number, far)
        }
        Statement::Set { .. }
        | Statement::Store { .. }
        | Statement::Barrier { .. }
        | Statement::Return { .. } => Ok(()),
    }
}

/// Those that jumps in statements name.
#[cycle(distances)]
pub fn far_in(body: &[Statement], inside: u32, far: &mut Vec<u32>) -> Result<(), AllocError> {
    for statement in body {
        far_of(statement, inside, far)?;
    }
    Ok(())
}
