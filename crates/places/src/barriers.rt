//! Statements that hold a barrier.

ghost use Rattle.std.specs.Prelude.{◌≡◌, ◌||◌};
ghost use Rattle.core_code.specs.View.{statement as statement_seen, statements as statements_seen};
ghost use Rattle.arrivals.specs.Loops as loops;

use core_code::tree::Statement;

/// The disjunction of two truth values; both are asked beforehand.
pub fn either(first: bool, second: bool) -> bool
    ensures { result ≡ (first || second) }
{
    first || second
}

/// The statement is a barrier, or one stands in it.
#[cycle(barriers)]
fn has_barrier(statement: &Statement) -> bool
    ensures { result ≡ loops.has_barrier (statement_seen statement.now) }
{
    match statement {
        Statement::If { taken, skipped, .. } => {
            either(
                have_barrier(taken.as_slice()),
                have_barrier(skipped.as_slice()),
            )
        }
        Statement::Loop { body, update, .. } => {
            either(
                have_barrier(body.as_slice()),
                have_barrier(update.as_slice()),
            )
        }
        Statement::Barrier { .. } => true,
        Statement::Set { .. }
        | Statement::Store { .. }
        | Statement::Return { .. }
        | Statement::Break { .. }
        | Statement::Continue { .. } => false,
    }
}

/// One of the statements is a barrier, or one stands in it.
#[cycle(barriers)]
fn have_barrier(body: &[Statement]) -> bool
    ensures { result ≡ loops.have_barrier (statements_seen body.now) }
{
    for statement in body {
        if has_barrier(statement) {
            return true;
        }
    }
    false
}

/// A loop holds one, by its body and its update.
pub fn holds_barrier(body: &[Statement], update: &[Statement]) -> bool
    ensures { result ≡ (loops.have_barrier (statements_seen body.now) || loops.have_barrier (statements_seen update.now)) }
{
    either(have_barrier(body), have_barrier(update))
}
