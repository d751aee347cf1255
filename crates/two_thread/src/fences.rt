//! Whether every barrier of a kernel fences a space.

ghost use Rattle.std.specs.Prelude.{◌≡◌, ◌&&◌};
ghost use Rattle.core_code.specs.View.{space as space_seen, statement as statement_seen, statements as statements_seen};
ghost use Rattle.obligations.specs.Crossings as specs;
ghost use Rattle.two_thread.specs.Fences as fences;

use core_code::tree::{Space, Statement};

/// A barrier has the flag of the space.
fn flag(space: Space, local: bool, global: bool) -> bool
    ensures { result ≡ fences.flag (space_seen space) local global }
{
    match space {
        Space::Global => global,
        Space::Local => local,
    }
}

/// The conjunction of two truth values.
fn both(left: bool, right: bool) -> bool
    ensures { result ≡ (left && right) }
{
    left && right
}

/// Every barrier in a statement fences the space.
#[cycle(fences)]
fn fences(space: Space, statement: &Statement) -> bool
    ensures { result ≡ fences.fences (space_seen space) (statement_seen statement.now) }
{
    match statement {
        Statement::If { taken, skipped, .. } => both(
            all_fence(space, taken.as_slice()),
            all_fence(space, skipped.as_slice()),
        ),
        Statement::Loop { body, update, .. } => both(
            all_fence(space, body.as_slice()),
            all_fence(space, update.as_slice()),
        ),
        Statement::Barrier { local, global, .. } => flag(space, *local, *global),
        Statement::Set { .. }
        | Statement::Store { .. }
        | Statement::Return { .. }
        | Statement::Break { .. }
        | Statement::Continue { .. } => true,
    }
}

/// Every barrier in a list of statements fences the space.
#[cycle(fences)]
fn all_fence(space: Space, statements: &[Statement]) -> bool
    ensures { result ≡ fences.all_fence (space_seen space) (statements_seen statements.now) }
{
    for statement in statements {
        if !fences(space, statement) {
            return false;
        }
    }
    true
}

#[tactic(auto, using(crate::proofs::Fencing::fenced_is))]
/// Every barrier in a kernel's body fences the space.
pub fn is_fenced(body: &[Statement], space: Space) -> bool
    ensures { result ≡ specs.is_fenced (statements_seen body.now) (space_seen space) }
{
    all_fence(space, body)
}
