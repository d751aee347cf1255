//! How statements are left.

ghost use Rattle.std.specs.Prelude.{◌≡◌, false};
ghost use Rattle.opencl_tree.specs.View.{statement as statement_seen, statements as statements_seen};
ghost use Rattle.opencl_jumps.specs.Exits as rules;
ghost use Rattle.opencl_jumps.specs.View.{exit};

use opencl_tree::tree::Stmt;

/// A way to leave statements: a `switch` by `break`, the body of a `do` by `continue`, a function by `return`.
#[derive(Clone, Copy)]
pub enum Exit {
    Breaking,
    Continuing,
    Returning,
}

fn is_breaking(by: Exit) -> bool
    ensures { result ≡ rules.is_breaking (exit by) }
{
    matches!(by, Exit::Breaking)
}

fn is_continuing(by: Exit) -> bool
    ensures { result ≡ rules.is_continuing (exit by) }
{
    matches!(by, Exit::Continuing)
}

fn is_returning(by: Exit) -> bool
    ensures { result ≡ rules.is_returning (exit by) }
{
    matches!(by, Exit::Returning)
}

/// Whether there is such an exit in a statement.
#[cycle(exiting)]
pub fn exits_in(by: Exit, of: &Stmt) -> bool
    ensures { result ≡ rules.exits_in (exit by) (statement_seen of.now) }
{
    match of {
        Stmt::If { taken, skipped, .. } => {
            exits_among(by, taken.as_slice()) || exits_among(by, skipped.as_slice())
        }
        Stmt::While { body, .. } => is_returning(by) && exits_among(by, body.as_slice()),
        Stmt::Do { body, .. } => is_returning(by) && exits_among(by, body.as_slice()),
        Stmt::For { body, .. } => is_returning(by) && exits_among(by, body.as_slice()),
        Stmt::Block { body, .. } => exits_among(by, body.as_slice()),
        Stmt::Break { .. } => is_breaking(by),
        Stmt::Continue { .. } => is_continuing(by),
        Stmt::Return { .. } => is_returning(by),
        Stmt::Declare(_)
        | Stmt::Typedef(_)
        | Stmt::Evaluate { .. }
        | Stmt::Switch { .. }
        | Stmt::Case { .. }
        | Stmt::Default { .. }
        | Stmt::Empty { .. } => false,
    }
}

/// Whether there is such an exit among statements.
#[cycle(exiting)]
pub fn exits_among(by: Exit, of: &[Stmt]) -> bool
    ensures { result ≡ rules.exits_among (exit by) (statements_seen of.now) }
{
    for statement in of {
        if exits_in(by, statement) {
            return true;
        }
    }
    false
}

/// Whether the last statement is a jump, whichever way is gone.
#[cycle(ending)]
pub fn ends_with(of: &Stmt) -> bool
    ensures { result ≡ rules.ends_with (statement_seen of.now) }
{
    match of {
        Stmt::Break { .. } | Stmt::Continue { .. } | Stmt::Return { .. } => true,
        Stmt::If { taken, skipped, .. } => {
            let taken_ends = ends(taken.as_slice());
            let skipped_ends = ends(skipped.as_slice());
            taken_ends && skipped_ends
        }
        Stmt::Block { body, .. } => ends(body.as_slice()),
        _ => false,
    }
}

/// Whether statements are always left by a jump.
#[cycle(ending)]
pub fn ends(of: &[Stmt]) -> bool
    ensures { result ≡ rules.ends (statements_seen of.now) }
{
    let mut so = false;
    for statement in of {
        so = ends_with(statement);
    }
    so
}

/// Whether there are no statements.
pub fn is_none(of: &[Stmt]) -> bool
    ensures { result ≡ rules.is_none (statements_seen of.now) }
{
    match of {
        [] => true,
        [_, ..] => false,
    }
}

/// Whether it is an `if`.
pub fn is_if(of: &Stmt) -> bool
    ensures { result ≡ rules.is_if (statement_seen of.now) }
{
    matches!(of, Stmt::If { .. })
}

/// Whether it is a label.
pub fn is_label(of: &Stmt) -> bool
    ensures { result ≡ rules.is_label (statement_seen of.now) }
{
    matches!(of, Stmt::Case { .. } | Stmt::Default { .. })
}

fn is_idle(of: &Stmt) -> bool
    ensures { result ≡ rules.is_idle (statement_seen of.now) }
{
    matches!(
        of,
        Stmt::Break { .. } | Stmt::Continue { .. } | Stmt::Empty { .. }
    )
}

// Whether there are jumps alone up to the next label.
fn are_idle(of: &[Stmt]) -> bool
    ensures { result ≡ rules.are_idle (statements_seen of.now) }
{
    match of {
        [] => true,
        [first, others @ ..] => is_label(first) || is_idle(first) && are_idle(others),
    }
}

#[cycle(fitting)]
fn fits_in(by: Exit, of: &Stmt) -> bool
    ensures { result ≡ rules.fits_in (exit by) (statement_seen of.now) }
{
    match of {
        Stmt::If { taken, skipped, .. } => {
            fits(by, taken.as_slice()) && fits(by, skipped.as_slice())
        }
        Stmt::Block { body, .. } => fits(by, body.as_slice()),
        _ => true,
    }
}

// What stands behind an exit, if this is one.
fn leaves_idle(by: Exit, of: &Stmt, behind: &[Stmt]) -> bool
    ensures { result ≡ rules.leaves_idle (exit by) (statement_seen of.now) (statements_seen behind.now) }
{
    !(exits_in(by, of) && ends_with(of)) || are_idle(behind)
}

/// Whether nothing that may have a fault stands behind such an exit.
#[cycle(fitting)]
pub fn fits(by: Exit, of: &[Stmt]) -> bool
    ensures { result ≡ rules.fits (exit by) (statements_seen of.now) }
{
    match of {
        [] => true,
        [first, others @ ..] => {
            fits_in(by, first) && leaves_idle(by, first, others) && fits(by, others)
        }
    }
}

#[cycle(needing)]
fn needs_one(by: Exit, so: bool, of: &Stmt) -> bool
    ensures { result ≡ rules.needs_one (exit by) so (statement_seen of.now) }
{
    match of {
        Stmt::Block { body, .. } => {
            let body = body.as_slice();
            so && !ends(body) || needs(by, false, body)
        }
        Stmt::If { taken, skipped, .. } => {
            let taken = taken.as_slice();
            let skipped = skipped.as_slice();
            if ends(taken) {
                needs(by, false, taken) || needs_part(by, so, skipped)
            } else if ends(skipped) && !exits_among(by, taken) {
                needs(by, false, skipped)
            } else {
                so || needs(by, false, taken) || needs(by, false, skipped)
            }
        }
        Stmt::While { .. } | Stmt::Do { .. } | Stmt::For { .. } => true,
        _ => false,
    }
}

#[cycle(needing)]
fn needs_at(by: Exit, so: bool, of: &Stmt) -> bool
    ensures { result ≡ rules.needs_at (exit by) so (statement_seen of.now) }
{
    exits_in(by, of) && needs_one(by, so, of)
}

#[cycle(needing)]
fn needs_part(by: Exit, so: bool, of: &[Stmt]) -> bool
    ensures { result ≡ rules.needs_part (exit by) so (statements_seen of.now) (rules.needs (exit by) false (statements_seen of.now)) }
{
    match of {
        [] => false,
        [first, others @ ..] => {
            if is_if(first) && is_none(others) {
                needs_at(by, so, first)
            } else {
                needs_block(by, so, of)
            }
        }
    }
}

#[cycle(needing)]
fn needs_block(by: Exit, so: bool, of: &[Stmt]) -> bool
    ensures { result ≡ rules.needs_block (exit by) so (statements_seen of.now) }
{
    so && exits_among(by, of) && !ends(of) || needs(by, false, of)
}

/// Whether a variable has to tell if statements were left.
#[cycle(needing)]
pub fn needs(by: Exit, so: bool, of: &[Stmt]) -> bool
    ensures { result ≡ rules.needs (exit by) so (statements_seen of.now) }
{
    match of {
        [] => false,
        [first, others @ ..] => {
            needs_at(by, so || !is_none(others), first) || needs(by, so, others)
        }
    }
}
