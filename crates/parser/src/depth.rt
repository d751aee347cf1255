//! The limits of a tree.

ghost use Rattle.std.specs.Prelude.{◌≡◌, ◌<◌, ◌++◌, map, OnOk};
ghost use Rattle.std.specs.Option.{option_map};
ghost use Rattle.texts.specs.Limits.{either as either_of};
ghost use Rattle.texts.specs.Limits as limits;
ghost use Rattle.syntax.specs.View.{expression, expressions, declaration, assignment, first, statement, statements, index_of};
ghost use Rattle.core_code.specs.View.{site as site_of};

use core_code::tree::Site;
use syntax::tree::{Assignment, Declaration, Expr, First, Stmt};

/// The levels that a tree may have.
const DEEPEST: u32 = 32;

fn either(first: Option<Site>, second: Option<Site>) -> Option<Site>
    ensures { option_map site_of result ≡ either_of (option_map site_of first) (option_map site_of second) }
{
    match first {
        Some(site) => Some(site),
        None => second,
    }
}

#[cycle(expressions_limit)]
fn deep_arguments(depth: u32, arguments: &[Expr]) -> Option<Site>
    requires { depth < 34 }
    ensures { option_map site_of result ≡ limits.deep_arguments depth (expressions arguments.now) }
{
    for argument in arguments {
        if let Some(site) = deep_expression(depth, argument) {
            return Some(site);
        }
    }
    None
}

#[cycle(expressions_limit)]
#[tactic(auto, using(crate::proofs::Depths::deep_here))]
fn deep_expression(depth: u32, e: &Expr) -> Option<Site>
    requires { depth < 34 }
    ensures { option_map site_of result ≡ limits.deep_expression depth (expression e.now) }
{
    if depth > DEEPEST {
        return Some(e.site());
    }
    match e {
        Expr::Number { .. } | Expr::Name { .. } => None,
        Expr::Element { index, .. } => deep_expression(depth + 1, index),
        Expr::Call { arguments, .. } => deep_arguments(depth + 1, arguments.as_slice()),
        Expr::Prefix { of, .. } | Expr::Cast { of, .. } => deep_expression(depth + 1, of),
        Expr::Infix { left, right, .. } => either(
            deep_expression(depth + 1, left),
            deep_expression(depth + 1, right),
        ),
        Expr::Conditional {
            test,
            taken,
            skipped,
            ..
        } => either(
            deep_expression(depth + 1, test),
            either(
                deep_expression(depth + 1, taken),
                deep_expression(depth + 1, skipped),
            ),
        ),
    }
}

fn deep_declaration(depth: u32, d: &Declaration) -> Option<Site>
    requires { depth < 34 }
    ensures { option_map site_of result ≡ limits.deep_declaration depth (declaration d.now) }
{
    if depth > DEEPEST {
        return Some(d.site);
    }
    deep_expression(depth + 1, &d.value)
}

fn deep_index(depth: u32, index: &Option<Expr>) -> Option<Site>
    requires { depth < 34 }
    ensures { option_map site_of result ≡ limits.deep_index depth (index_of index.now) }
{
    match index {
        Some(e) => deep_expression(depth, e),
        None => None,
    }
}

fn deep_assignment(depth: u32, a: &Assignment) -> Option<Site>
    requires { depth < 34 }
    ensures { option_map site_of result ≡ limits.deep_assignment depth (assignment a.now) }
{
    if depth > DEEPEST {
        return Some(a.site);
    }
    either(
        deep_index(depth + 1, &a.index),
        deep_expression(depth + 1, &a.value),
    )
}

fn deep_first(depth: u32, part: &First) -> Option<Site>
    requires { depth < 34 }
    ensures { option_map site_of result ≡ limits.deep_first depth (first part.now) }
{
    match part {
        First::Declares(declared) => deep_declaration(depth, declared),
        First::Assigns(assigned) => deep_assignment(depth, assigned),
    }
}

/// The first node below 32 levels, where the statements stand at a depth.
#[cycle(statements_limit)]
pub fn deep_statements(depth: u32, body: &[Stmt]) -> Option<Site>
    requires { depth < 34 }
    ensures { option_map site_of result ≡ limits.deep_statements depth (statements body.now) }
{
    for s in body {
        if let Some(site) = deep_statement(depth, s) {
            return Some(site);
        }
    }
    None
}

#[cycle(statements_limit)]
#[tactic(auto, using(crate::proofs::Depths::deep_there))]
fn deep_statement(depth: u32, s: &Stmt) -> Option<Site>
    requires { depth < 34 }
    ensures { option_map site_of result ≡ limits.deep_statement depth (statement s.now) }
{
    if depth > DEEPEST {
        return Some(s.site());
    }
    match s {
        Stmt::Declare(declared) => deep_declaration(depth, declared),
        Stmt::DeclareArray { .. } | Stmt::Jump { .. } => None,
        Stmt::Assign(assigned) => deep_assignment(depth, assigned),
        Stmt::If {
            test,
            taken,
            skipped,
            ..
        } => either(
            deep_expression(depth + 1, test),
            either(
                deep_statements(depth + 1, taken.as_slice()),
                deep_statements(depth + 1, skipped.as_slice()),
            ),
        ),
        Stmt::While { test, body, .. } => either(
            deep_expression(depth + 1, test),
            deep_statements(depth + 1, body.as_slice()),
        ),
        Stmt::For {
            first,
            test,
            update,
            body,
            ..
        } => either(
            deep_first(depth + 1, first),
            either(
                deep_expression(depth + 1, test),
                either(
                    deep_assignment(depth + 1, update),
                    deep_statements(depth + 1, body.as_slice()),
                ),
            ),
        ),
        Stmt::Barrier { flags, .. } => deep_expression(depth + 1, flags),
        Stmt::Block { body, .. } => deep_statements(depth + 1, body.as_slice()),
    }
}
