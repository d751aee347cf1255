//! Whether exits are of the innermost loop around them, and updates only assign.

ghost use Rattle.std.specs.Prelude.{◌≡◌};
ghost use Rattle.core_code.specs.View.{statement as statement_seen, statements as statements_seen};
ghost use Rattle.sound_cores.specs.Sound as specs;

use core_code::tree::Statement;

fn is_assignment(statement: &Statement) -> bool
    ensures { result ≡ specs.is_assignment (statement_seen statement.now) }
{
    match statement {
        Statement::Set { .. } | Statement::Store { .. } => true,
        Statement::If { .. }
        | Statement::Loop { .. }
        | Statement::Barrier { .. }
        | Statement::Return { .. }
        | Statement::Break { .. }
        | Statement::Continue { .. } => false,
    }
}

fn are_assignments(statements: &[Statement]) -> bool
    ensures { result ≡ specs.are_assignments (statements_seen statements.now) }
{
    for statement in statements {
        if !is_assignment(statement) {
            return false;
        }
    }
    true
}

fn is_around(around: Option<u32>, of: u32) -> bool
    ensures { result ≡ specs.is_around around of }
{
    match around {
        None => false,
        Some(number) => of == number,
    }
}

#[cycle(placed)]
fn is_placed(around: Option<u32>, statement: &Statement) -> bool
    ensures { result ≡ specs.is_placed around (statement_seen statement.now) }
{
    match statement {
        Statement::Set { .. }
        | Statement::Store { .. }
        | Statement::Barrier { .. }
        | Statement::Return { .. } => true,
        Statement::If { taken, skipped, .. } => {
            are_placed(around, taken.as_slice()) && are_placed(around, skipped.as_slice())
        }
        Statement::Loop {
            number,
            body,
            update,
            ..
        } => are_placed(Some(*number), body.as_slice()) && are_assignments(update.as_slice()),
        Statement::Break { of, .. } | Statement::Continue { of, .. } => is_around(around, *of),
    }
}

/// Whether each `break` and `continue` is of the innermost loop around it, the statements themselves standing in the loop of a number or
/// in none, and each loop's update only assigns.
#[cycle(placed)]
pub fn are_placed(around: Option<u32>, statements: &[Statement]) -> bool
    ensures { result ≡ specs.are_placed around (statements_seen statements.now) }
{
    for statement in statements {
        if !is_placed(around, statement) {
            return false;
        }
    }
    true
}
