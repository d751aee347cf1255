//! Whether all of a kernel is reckoned.

ghost use Rattle.std.specs.Prelude.{◌≡◌};
ghost use Rattle.core_code.specs.View.{term as term_seen, statement as statement_seen, statements as statements_seen, kernel as kernel_seen};
ghost use Rattle.semantics.specs.Machines as specs;

use crate::proper::all_three;
use core_code::tree::{Core, Statement, Term};

fn is_reckoned_term(term: &Term) -> bool
    ensures { result ≡ specs.is_reckoned_term (term_seen term.now) }
{
    match term {
        Term::Literal { .. } | Term::Variable { .. } | Term::Id { .. } => true,
        Term::Load { index: of, .. }
        | Term::Unary { of, .. }
        | Term::Convert { of, .. }
        | Term::Not { of }
        | Term::Within { index: of, .. } => is_reckoned_term(of),
        Term::Binary { left, right, .. } => is_reckoned_term(left) && is_reckoned_term(right),
        Term::Compare { left, right, .. } => is_reckoned_term(left) && is_reckoned_term(right),
        Term::And { left, right } => is_reckoned_term(left) && is_reckoned_term(right),
        Term::Or { left, right } => is_reckoned_term(left) && is_reckoned_term(right),
        Term::Minimum { left, right } => is_reckoned_term(left) && is_reckoned_term(right),
        Term::Maximum { left, right } => is_reckoned_term(left) && is_reckoned_term(right),
        Term::Select {
            test,
            taken,
            skipped,
        } => is_reckoned_term(test) && is_reckoned_term(taken) && is_reckoned_term(skipped),
        Term::Shift { value, count, .. } => is_reckoned_term(value) && is_reckoned_term(count),
        Term::Opaque { .. } => false,
    }
}

#[cycle(reckoned)]
fn is_reckoned_statement(statement: &Statement) -> bool
    ensures { result ≡ specs.is_reckoned_statement (statement_seen statement.now) }
{
    match statement {
        Statement::Set { value, .. } => is_reckoned_term(value),
        Statement::Store { index, value, .. } => is_reckoned_term(index) && is_reckoned_term(value),
        Statement::If {
            test,
            taken,
            skipped,
            ..
        } => all_three(
            is_reckoned_term(test),
            are_reckoned(taken.as_slice()),
            are_reckoned(skipped.as_slice()),
        ),
        Statement::Loop {
            test,
            body,
            update,
            ..
        } => all_three(
            is_reckoned_term(test),
            are_reckoned(body.as_slice()),
            are_reckoned(update.as_slice()),
        ),
        Statement::Barrier { .. }
        | Statement::Return { .. }
        | Statement::Break { .. }
        | Statement::Continue { .. } => true,
    }
}

#[cycle(reckoned)]
fn are_reckoned(block: &[Statement]) -> bool
    ensures { result ≡ specs.are_reckoned (statements_seen block.now) }
{
    for statement in block {
        if !is_reckoned_statement(statement) {
            return false;
        }
    }
    true
}

/// Whether all of a kernel is reckoned: no operation stands in it whose result the device has to say.
pub fn is_reckoned(core: &Core) -> bool
    ensures { result ≡ specs.is_reckoned (kernel_seen core.now) }
{
    are_reckoned(core.body.as_slice())
}
