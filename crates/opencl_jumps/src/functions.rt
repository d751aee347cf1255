//! The bodies of functions of the file.

ghost use Rattle.std.specs.Prelude.{◌≡◌, IfOk};
ghost use Rattle.core_code.specs.View.{site as site_seen};
ghost use Rattle.opencl_tree.specs.View.{base as base_seen, statement as statement_seen, statements as statements_seen};
ghost use Rattle.opencl_jumps.specs.Functions as rules;
ghost use Rattle.opencl_jumps.specs.View.{maybe_base};

use crate::exits::{Exit, ends, fits, needs};
use crate::leaving::{alone, before, leave};
use crate::made::{declared, flag_declared, flag_of, result_name, variable};
use crate::switches::all_rewritten;
use core_code::tree::Site;
use opencl_tree::tree::Stmt;
use opencl_tree::types::Base;
use std::alloc::{AllocError, Global};

fn gives(base: &Option<Base>, body: &[Stmt]) -> bool
    ensures { result ≡ rules.gives (maybe_base base.now) (statements_seen body.now) }
{
    match base {
        None => true,
        Some(_) => ends(body),
    }
}

fn may_flag(base: &Option<Base>, body: &[Stmt]) -> bool
    ensures { result ≡ rules.may_flag (maybe_base base.now) (statements_seen body.now) }
{
    needs(Exit::Returning, false, body) && gives(base, body) && fits(Exit::Returning, body)
}

// The last statement of a function that gives something.
fn last(alloc: Global, at: Site) -> Result<Stmt, AllocError>
    ensures { IfOk result (λ s. statement_seen s ≡ rules.last (site_seen at)) }
{
    let value = variable(alloc, at, result_name())?;
    Ok(Stmt::Return {
        number: 0,
        site: at,
        value: Some(value),
    })
}

// Its body, and the variable that says whether it was left.
fn flagged(alloc: Global, at: Site, body: Vec<Stmt>) -> Result<Vec<Stmt>, AllocError>
    ensures { IfOk result (λ v. statements_seen v.items ≡ rules.flagged (site_seen at) (statements_seen body.items)) }
{
    let behind = leave(alloc, Exit::Returning, true, body, Vec::new(alloc))?;
    before(flag_declared(alloc, at, flag_of(Exit::Returning))?, behind)
}

// A statement behind others.
fn followed(mut first: Vec<Stmt>, last: Stmt) -> Result<Vec<Stmt>, AllocError>
    ensures { IfOk result (λ v. statements_seen v.items ≡ rules.followed (statements_seen first.items) (statement_seen last)) }
{
    first.push(last)?;
    Ok(first)
}

fn giving(alloc: Global, at: Site, base: Base, body: Vec<Stmt>) -> Result<Vec<Stmt>, AllocError>
    ensures { IfOk result (λ v. statements_seen v.items ≡ rules.giving (site_seen at) (base_seen base) (statements_seen body.items)) }
{
    let left = flagged(alloc, at, body)?;
    let all = followed(left, last(alloc, at)?)?;
    before(declared(alloc, at, base, result_name())?, all)
}

fn returning(
    alloc: Global,
    at: Site,
    base: Option<Base>,
    body: Vec<Stmt>,
) -> Result<Vec<Stmt>, AllocError>
    ensures { IfOk result (λ v. statements_seen v.items ≡ rules.returning (site_seen at) (maybe_base base) (statements_seen body.items)) }
{
    if !may_flag(&base, body.as_slice()) {
        return Ok(body);
    }
    match base {
        None => flagged(alloc, at, body),
        Some(base) => giving(alloc, at, base, body),
    }
}

// The type of what a function gives.
fn result_base(alloc: Global, of: &Base) -> Result<Option<Base>, AllocError>
    ensures { IfOk result (λ b. maybe_base b ≡ rules.result_base (base_seen of.now)) }
{
    match of {
        Base::Void => Ok(None),
        Base::Numbers { scalar, width } => Ok(Some(Base::Numbers {
            scalar: *scalar,
            width: *width,
        })),
        Base::Alias(name) => Ok(Some(Base::Alias(String::from_str(alloc, name.as_str())?))),
    }
}

/// The body of a function, whose type has this base: without `switch` and without `continue` in a `do`, and where a `return` does not stand
/// last on its way without those but at the end.
#[tactic(auto, unfolding(crate::specs::Functions::function_body))]
pub fn function_body(
    alloc: Global,
    at: Site,
    of: &Base,
    body: Vec<Stmt>,
) -> Result<Vec<Stmt>, AllocError>
    ensures { IfOk result (λ v. statements_seen v.items ≡ rules.function_body (site_seen at) (base_seen of.now) (statements_seen body.items)) }
{
    let body = all_rewritten(alloc, body)?;
    let base = result_base(alloc, of)?;
    returning(alloc, at, base, body)
}
