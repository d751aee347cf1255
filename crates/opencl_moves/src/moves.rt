//! Variables that are assigned to as a whole.

ghost use Rattle.std.specs.Prelude.{◌≡◌, map};
ghost use Rattle.opencl_tree.specs.View.{declarator as declarator_seen, expression, expressions, first as first_seen, initial as initial_seen, maybe, statement as statement_seen, statements as statements_seen};
ghost use Rattle.opencl_moves.specs.Moves as rules;

use opencl_tree::tree::{Declarator, Expr, First, Initial, Stmt};

fn is_named(name: &str, of: &Expr) -> bool
    ensures { result ≡ rules.is_named name.now (expression of.now) }
{
    match of {
        Expr::Name { name: other, .. } => other.as_str() == name,
        _ => false,
    }
}

// Whether an expression assigns to a variable.
#[cycle(moving)]
#[tactic(auto, using(crate::proofs::Rows::rows))]
fn moves(name: &str, of: &Expr) -> bool
    ensures { result ≡ rules.moves name.now (expression of.now) }
{
    match of {
        Expr::Integer { .. }
        | Expr::Real { .. }
        | Expr::Name { .. }
        | Expr::SizeofType { .. }
        | Expr::SizeofOf { .. } => false,
        Expr::Call { arguments, .. } => any_moves(name, arguments.as_slice()),
        Expr::Vector { parts, .. } => any_moves(name, parts.as_slice()),
        Expr::Index { of, index, .. } => moves(name, of) || moves(name, index),
        Expr::Member { of, .. } | Expr::Prefix { of, .. } | Expr::Cast { of, .. } => {
            moves(name, of)
        }
        Expr::Step { of, .. } => is_named(name, of) || moves(name, of),
        Expr::Infix { left, right, .. } => moves(name, left) || moves(name, right),
        Expr::Conditional {
            test,
            taken,
            skipped,
            ..
        } => moves(name, test) || moves(name, taken) || moves(name, skipped),
        Expr::Assign { target, value, .. } => {
            is_named(name, target) || moves(name, target) || moves(name, value)
        }
        Expr::Comma { first, second, .. } => moves(name, first) || moves(name, second),
    }
}

#[cycle(moving)]
fn any_moves(name: &str, of: &[Expr]) -> bool
    ensures { result ≡ rules.any_moves name.now (expressions of.now) }
{
    for one in of {
        if moves(name, one) {
            return true;
        }
    }
    false
}

fn maybe_moves(name: &str, of: &Option<Expr>) -> bool
    ensures { result ≡ rules.maybe_moves name.now (maybe of.now) }
{
    match of {
        None => false,
        Some(of) => moves(name, of),
    }
}

fn initial_moves(name: &str, of: &Initial) -> bool
    ensures { result ≡ rules.initial_moves name.now (initial_seen of.now) }
{
    match of {
        Initial::Absent | Initial::Listed { .. } => false,
        Initial::Given(value) => moves(name, value),
    }
}

fn declarators_move(name: &str, of: &[Declarator]) -> bool
    ensures { result ≡ rules.declarators_move name.now (map declarator_seen of.now) }
{
    for one in of {
        if initial_moves(name, &one.initial) {
            return true;
        }
    }
    false
}

fn first_moves(name: &str, of: &First) -> bool
    ensures { result ≡ rules.first_moves name.now (first_seen of.now) }
{
    match of {
        First::Absent => false,
        First::Declares(declaration) => {
            declarators_move(name, declaration.declarators.as_slice())
        }
        First::Evaluates(value) => moves(name, value),
    }
}

// Whether something in a statement assigns to a variable.
#[cycle(stirring)]
fn moves_in(name: &str, of: &Stmt) -> bool
    ensures { result ≡ rules.moves_in name.now (statement_seen of.now) }
{
    match of {
        Stmt::Declare(declaration) => declarators_move(name, declaration.declarators.as_slice()),
        Stmt::Evaluate { value, .. } => moves(name, value),
        Stmt::If {
            test,
            taken,
            skipped,
            ..
        } => {
            moves(name, test)
                || moves_among(name, taken.as_slice())
                || moves_among(name, skipped.as_slice())
        }
        Stmt::While { test, body, .. } => {
            moves(name, test) || moves_among(name, body.as_slice())
        }
        Stmt::Do { body, test, .. } => moves(name, test) || moves_among(name, body.as_slice()),
        Stmt::Switch { test, body, .. } => {
            moves(name, test) || moves_among(name, body.as_slice())
        }
        Stmt::For {
            first,
            test,
            update,
            body,
            ..
        } => {
            first_moves(name, first)
                || maybe_moves(name, test)
                || maybe_moves(name, update)
                || moves_among(name, body.as_slice())
        }
        Stmt::Return { value, .. } => maybe_moves(name, value),
        Stmt::Block { body, .. } => moves_among(name, body.as_slice()),
        Stmt::Typedef(_)
        | Stmt::Case { .. }
        | Stmt::Default { .. }
        | Stmt::Break { .. }
        | Stmt::Continue { .. }
        | Stmt::Empty { .. } => false,
    }
}

/// Whether statements assign to a variable of a name.
#[cycle(stirring)]
pub fn moves_among(name: &str, of: &[Stmt]) -> bool
    ensures { result ≡ rules.moves_among name.now (statements_seen of.now) }
{
    for statement in of {
        if moves_in(name, statement) {
            return true;
        }
    }
    false
}
