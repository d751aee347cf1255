//! The value parameters that nothing assigns.

ghost use Rattle.std.specs.Prelude.{◌≡◌};
ghost use Rattle.core_code.specs.View.{statement as statement_seen, statements as statements_seen, kernel as kernel_seen};
ghost use Rattle.obligations.specs.Roots as roots;

use core_code::tree::{Core, Statement};

#[cycle(sets)]
fn sets(slot: usize, statement: &Statement) -> bool
    ensures { result ≡ roots.sets slot (statement_seen statement.now) }
{
    match statement {
        Statement::Set { slot: set, .. } => *set as usize == slot,
        Statement::Store { .. }
        | Statement::Barrier { .. }
        | Statement::Return { .. }
        | Statement::Break { .. }
        | Statement::Continue { .. } => false,
        Statement::If { taken, skipped, .. } => {
            some_sets(slot, taken.as_slice()) || some_sets(slot, skipped.as_slice())
        }
        Statement::Loop { body, update, .. } => {
            some_sets(slot, body.as_slice()) || some_sets(slot, update.as_slice())
        }
    }
}

/// One of the statements, or one in it, assigns the variable of a slot.
#[cycle(sets)]
fn some_sets(slot: usize, statements: &[Statement]) -> bool
    ensures { result ≡ roots.some_sets slot (statements_seen statements.now) }
{
    for statement in statements {
        if sets(slot, statement) {
            return true;
        }
    }
    false
}

/// The variable is a value parameter that nothing assigns.
pub fn is_kept(core: &Core, slot: usize) -> bool
    ensures { result ≡ roots.is_kept (kernel_seen core.now) slot }
{
    slot < core.arguments.len() && !some_sets(slot, core.body.as_slice())
}
