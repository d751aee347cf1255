//! Labels of a `switch`.

ghost use Rattle.std.specs.Prelude.{◌≡◌, IfOk};
ghost use Rattle.core_code.specs.View.{site as site_seen};
ghost use Rattle.syntax.specs.View.{infix_sign};
ghost use Rattle.opencl_tree.specs.Tree as tree;
ghost use Rattle.opencl_tree.specs.View.{expression, prefix_sign, statement as statement_seen, statements as statements_seen};
ghost use Rattle.opencl_jumps.specs.Labels as rules;

use crate::exits::{Exit, ends_with, fits, is_label, is_none};
use crate::made::number;
use core_code::tree::Site;
use opencl_tree::tree::{Expr, PrefixSign, Stmt};
use std::alloc::{AllocError, Global};
use syntax::tree::InfixSign;

fn is_copied(of: &Expr) -> bool
    ensures { result ≡ rules.is_copied (expression of.now) }
{
    match of {
        Expr::Integer { .. } | Expr::Name { .. } => true,
        Expr::Prefix { of, .. } => is_copied(of),
        Expr::Infix { left, right, .. } => is_copied(left) && is_copied(right),
        _ => false,
    }
}

#[cycle(copying)]
fn copied_prefix(
    alloc: Global,
    site: Site,
    at: Site,
    sign: PrefixSign,
    of: &Expr,
) -> Result<Expr, AllocError>
    ensures { IfOk result (λ e. expression e ≡ tree.Prefix (site_seen at) (prefix_sign sign) (rules.copy (site_seen site) (expression of.now))) }
{
    let of = Box::new(alloc, copy(alloc, site, of)?)?;
    Ok(Expr::Prefix { site: at, sign, of })
}

#[cycle(copying)]
fn copied_infix(
    alloc: Global,
    site: Site,
    at: Site,
    sign: InfixSign,
    left: &Expr,
    right: &Expr,
) -> Result<Expr, AllocError>
    ensures { IfOk result (λ e. expression e ≡ tree.Infix (site_seen at) (infix_sign sign) (rules.copy (site_seen site) (expression left.now)) (rules.copy (site_seen site) (expression right.now))) }
{
    let left = Box::new(alloc, copy(alloc, site, left)?)?;
    let right = Box::new(alloc, copy(alloc, site, right)?)?;
    Ok(Expr::Infix {
        site: at,
        sign,
        left,
        right,
    })
}

/// An expression once more; of those that no label has nothing is made.
#[cycle(copying)]
pub fn copy(alloc: Global, site: Site, of: &Expr) -> Result<Expr, AllocError>
    ensures { IfOk result (λ e. expression e ≡ rules.copy (site_seen site) (expression of.now)) }
{
    match of {
        Expr::Integer { site, kind, value } => Ok(Expr::Integer {
            site: *site,
            kind: *kind,
            value: *value,
        }),
        Expr::Name { site, name } => Ok(Expr::Name {
            site: *site,
            name: String::from_str(alloc, name.as_str())?,
        }),
        Expr::Prefix { site: at, sign, of } => copied_prefix(alloc, site, *at, *sign, of),
        Expr::Infix {
            site: at,
            sign,
            left,
            right,
        } => copied_infix(alloc, site, *at, *sign, left, right),
        _ => Ok(number(site, 0)),
    }
}

#[cycle(labels)]
fn labels_in(of: &Stmt) -> bool
    ensures { result ≡ rules.labels_in (statement_seen of.now) }
{
    match of {
        Stmt::Case { .. } | Stmt::Default { .. } => true,
        Stmt::If { taken, skipped, .. } => {
            has_label(taken.as_slice()) || has_label(skipped.as_slice())
        }
        Stmt::While { body, .. } => has_label(body.as_slice()),
        Stmt::Do { body, .. } => has_label(body.as_slice()),
        Stmt::For { body, .. } => has_label(body.as_slice()),
        Stmt::Block { body, .. } => has_label(body.as_slice()),
        _ => false,
    }
}

#[cycle(labels)]
fn has_label(of: &[Stmt]) -> bool
    ensures { result ≡ rules.has_label (statements_seen of.now) }
{
    for statement in of {
        if labels_in(statement) {
            return true;
        }
    }
    false
}

fn is_declaration(of: &Stmt) -> bool
    ensures { result ≡ rules.is_declaration (statement_seen of.now) }
{
    matches!(of, Stmt::Declare(_) | Stmt::Typedef(_))
}

fn begins_with_label(of: &[Stmt]) -> bool
    ensures { result ≡ rules.begins_with_label (statements_seen of.now) }
{
    match of {
        [] => false,
        [first, ..] => is_label(first),
    }
}

fn is_label_copied(of: &Stmt) -> bool
    ensures { result ≡ rules.is_label_copied (statement_seen of.now) }
{
    match of {
        Stmt::Case { value, .. } => is_copied(value),
        _ => true,
    }
}

fn label_fits(of: &Stmt) -> bool
    ensures { result ≡ rules.label_fits (statement_seen of.now) }
{
    is_label(of) && is_label_copied(of)
}

fn other_fits(of: &Stmt, behind: &[Stmt]) -> bool
    ensures { result ≡ rules.other_fits (statement_seen of.now) (statements_seen behind.now) }
{
    !labels_in(of)
        && (!is_declaration(of) || !has_label(behind))
        && (!begins_with_label(behind) || ends_with(of))
}

fn body_fits(of: &[Stmt]) -> bool
    ensures { result ≡ rules.body_fits (statements_seen of.now) }
{
    match of {
        [] => true,
        [first, others @ ..] => {
            (label_fits(first) || other_fits(first, others)) && body_fits(others)
        }
    }
}

/// Whether a `switch` with this body can be written by `if`s.
pub fn may_write(body: &[Stmt]) -> bool
    ensures { result ≡ rules.may_write (statements_seen body.now) }
{
    (is_none(body) || begins_with_label(body)) && body_fits(body) && fits(Exit::Breaking, body)
}
