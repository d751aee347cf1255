//! Statements that are left early, written without these exits.

ghost use Rattle.std.specs.Prelude.{◌≡◌, IfOk};
ghost use Rattle.core_code.specs.View.{site as site_seen};
ghost use Rattle.opencl_tree.specs.Tree.{none};
ghost use Rattle.opencl_tree.specs.View.{expression, maybe, statement as statement_seen, statements as statements_seen};
ghost use Rattle.opencl_jumps.specs.Leaving as rules;
ghost use Rattle.opencl_jumps.specs.Parts as second;
ghost use Rattle.opencl_jumps.specs.View.{exit};

use crate::exits::{Exit, ends, exits_among, exits_in, is_if, is_none, needs};
use crate::made::{
    Head, assigned, block, choice, counting, done, flag_declared, flag_of, flag_set, repeated,
    result_name, unless_set, variable,
};
use core_code::tree::Site;
use opencl_tree::tree::{Expr, Stmt};
use std::alloc::{AllocError, Global};

/// One statement.
pub fn alone(alloc: Global, statement: Stmt) -> Result<Vec<Stmt>, AllocError>
    ensures { IfOk result (λ v. statements_seen v.items ≡ rules.alone (statement_seen statement)) }
{
    let mut all = Vec::new(alloc);
    all.push(statement)?;
    Ok(all)
}

/// A statement in front of others.
pub fn before(first: Stmt, mut others: Vec<Stmt>) -> Result<Vec<Stmt>, AllocError>
    ensures { IfOk result (λ v. statements_seen v.items ≡ rules.before (statement_seen first) (statements_seen others.items)) }
{
    others.insert(0, first)?;
    Ok(others)
}

fn jump(alloc: Global, by: Exit, flagged: bool, at: Site) -> Result<Vec<Stmt>, AllocError>
    ensures { IfOk result (λ v. statements_seen v.items ≡ rules.jump (exit by) flagged (site_seen at)) }
{
    if flagged {
        alone(alloc, flag_set(alloc, at, flag_of(by))?)
    } else {
        Ok(Vec::new(alloc))
    }
}

fn given(
    alloc: Global,
    flagged: bool,
    at: Site,
    value: Option<Expr>,
) -> Result<Vec<Stmt>, AllocError>
    ensures { IfOk result (λ v. statements_seen v.items ≡ rules.given flagged (site_seen at) (maybe value)) }
{
    match value {
        None => jump(alloc, Exit::Returning, flagged, at),
        Some(value) => {
            let first = assigned(alloc, at, result_name(), value)?;
            before(first, jump(alloc, Exit::Returning, flagged, at)?)
        }
    }
}

// What stands behind, unless the statements were left.
fn guarded(alloc: Global, by: Exit, at: Site, behind: Vec<Stmt>) -> Result<Vec<Stmt>, AllocError>
    ensures { IfOk result (λ v. statements_seen v.items ≡ rules.guarded (exit by) (site_seen at) (statements_seen behind.items)) }
{
    if is_none(behind.as_slice()) {
        return Ok(behind);
    }
    alone(alloc, unless_set(alloc, at, flag_of(by), behind)?)
}

fn block_before(at: Site, first: Vec<Stmt>, behind: Vec<Stmt>) -> Result<Vec<Stmt>, AllocError>
    ensures { IfOk result (λ v. statements_seen v.items ≡ rules.block_before (site_seen at) (statements_seen first.items) (statements_seen behind.items)) }
{
    if is_none(first.as_slice()) {
        return Ok(behind);
    }
    before(block(0, at, first), behind)
}

// The loop around is left.
fn broken(alloc: Global, at: Site) -> Result<Vec<Stmt>, AllocError>
    ensures { IfOk result (λ v. statements_seen v.items ≡ rules.broken (site_seen at)) }
{
    alone(
        alloc,
        Stmt::Break {
            number: 0,
            site: at,
        },
    )
}

fn left_with(alloc: Global, at: Site) -> Result<Vec<Stmt>, AllocError>
    ensures { IfOk result (λ v. statements_seen v.items ≡ rules.left_with (site_seen at)) }
{
    let first = flag_set(alloc, at, flag_of(Exit::Returning))?;
    before(first, broken(alloc, at)?)
}

// A `return` in a loop leaves the loop.
fn returned(alloc: Global, at: Site, value: Option<Expr>) -> Result<Stmt, AllocError>
    ensures { IfOk result (λ s. statement_seen s ≡ rules.returned (site_seen at) (maybe value)) }
{
    match value {
        None => Ok(block(0, at, left_with(alloc, at)?)),
        Some(value) => {
            let first = assigned(alloc, at, result_name(), value)?;
            Ok(block(0, at, before(first, left_with(alloc, at)?)?))
        }
    }
}

fn left_if_set(alloc: Global, at: Site) -> Result<Stmt, AllocError>
    ensures { IfOk result (λ s. statement_seen s ≡ rules.left_if_set (site_seen at)) }
{
    let test = variable(alloc, at, flag_of(Exit::Returning))?;
    let taken = broken(alloc, at)?;
    Ok(choice(0, at, test, taken, Vec::new(alloc)))
}

// A loop in a loop.
fn inner(alloc: Global, at: Site, statement: Stmt) -> Result<Stmt, AllocError>
    ensures { IfOk result (λ s. statement_seen s ≡ rules.inner (site_seen at) (statement_seen statement)) }
{
    let behind = alone(alloc, left_if_set(alloc, at)?)?;
    Ok(block(0, at, before(statement, behind)?))
}

// A statement in a loop.
#[cycle(looping)]
fn looped(alloc: Global, statement: Stmt) -> Result<Stmt, AllocError>
    ensures { IfOk result (λ s. statement_seen s ≡ rules.looped (statement_seen statement)) }
{
    if exits_in(Exit::Returning, &statement) {
        looped_one(alloc, statement)
    } else {
        Ok(statement)
    }
}

#[cycle(looping)]
fn looped_parts(
    alloc: Global,
    taken: Vec<Stmt>,
    skipped: Vec<Stmt>,
) -> Result<(Vec<Stmt>, Vec<Stmt>), AllocError>
    ensures { IfOk result (λ x. (statements_seen x.0.items ≡ rules.all_looped (statements_seen taken.items)) × (statements_seen x.1.items ≡ rules.all_looped (statements_seen skipped.items))) }
{
    let taken = all_looped(alloc, taken)?;
    let skipped = all_looped(alloc, skipped)?;
    Ok((taken, skipped))
}

#[cycle(looping)]
fn looped_one(alloc: Global, statement: Stmt) -> Result<Stmt, AllocError>
    ensures { IfOk result (λ s. statement_seen s ≡ rules.looped_one (statement_seen statement)) }
{
    match statement {
        Stmt::If {
            number,
            site,
            test,
            taken,
            skipped,
        } => {
            let (taken, skipped) = looped_parts(alloc, taken, skipped)?;
            Ok(choice(number, site, test, taken, skipped))
        }
        Stmt::Block { number, site, body } => {
            let body = all_looped(alloc, body)?;
            Ok(block(number, site, body))
        }
        Stmt::While {
            number,
            site,
            test,
            body,
        } => {
            let body = all_looped(alloc, body)?;
            let turning = repeated(number, site, test, body);
            inner(alloc, site, turning)
        }
        Stmt::Do {
            number,
            site,
            body,
            test,
        } => {
            let body = all_looped(alloc, body)?;
            let turning = done(number, site, body, test);
            inner(alloc, site, turning)
        }
        Stmt::For {
            number,
            site,
            first,
            test,
            update,
            body,
        } => {
            let body = all_looped(alloc, body)?;
            let head = Head {
                first,
                test,
                update,
            };
            let turning = counting(number, site, head, body);
            inner(alloc, site, turning)
        }
        Stmt::Return { site, value, .. } => returned(alloc, site, value),
        other => Ok(other),
    }
}

#[cycle(looping)]
fn all_looped(alloc: Global, body: Vec<Stmt>) -> Result<Vec<Stmt>, AllocError>
    ensures { IfOk result (λ v. statements_seen v.items ≡ rules.all_looped (statements_seen body.items)) }
{
    let mut left = body;
    let mut all = Vec::new(alloc);
    while let Some(statement) = left.pop() {
        let written = looped(alloc, statement)?;
        all = before(written, all)?;
    }
    Ok(all)
}

/// Statements without these exits, and what stands behind, which is written already.
#[cycle(leaving)]
pub fn leave(
    alloc: Global,
    by: Exit,
    flagged: bool,
    body: Vec<Stmt>,
    behind: Vec<Stmt>,
) -> Result<Vec<Stmt>, AllocError>
    ensures { IfOk result (λ v. statements_seen v.items ≡ rules.leave (exit by) flagged (statements_seen body.items) (statements_seen behind.items)) }
{
    let mut left = body;
    let mut so = behind;
    while let Some(statement) = left.pop() {
        so = leave_at(alloc, by, flagged, statement, so)?;
    }
    Ok(so)
}

#[cycle(leaving)]
fn leave_at(
    alloc: Global,
    by: Exit,
    flagged: bool,
    statement: Stmt,
    behind: Vec<Stmt>,
) -> Result<Vec<Stmt>, AllocError>
    ensures { IfOk result (λ v. statements_seen v.items ≡ rules.leave_at (exit by) flagged (statement_seen statement) (statements_seen behind.items)) }
{
    if exits_in(by, &statement) {
        leave_one(alloc, by, flagged, statement, behind)
    } else {
        before(statement, behind)
    }
}

// A loop, and what stands behind it.
fn loop_before(
    alloc: Global,
    by: Exit,
    at: Site,
    statement: Stmt,
    behind: Vec<Stmt>,
) -> Result<Vec<Stmt>, AllocError>
    ensures { IfOk result (λ v. statements_seen v.items ≡ rules.loop_before (exit by) (site_seen at) (statement_seen statement) (statements_seen behind.items)) }
{
    before(statement, guarded(alloc, by, at, behind)?)
}

// What stands behind statements that may always jump.
fn behind_all(
    alloc: Global,
    by: Exit,
    at: Site,
    all_end: bool,
    behind: Vec<Stmt>,
) -> Result<Vec<Stmt>, AllocError>
    ensures { IfOk result (λ v. statements_seen v.items ≡ rules.behind_all (exit by) (site_seen at) all_end (statements_seen behind.items)) }
{
    if all_end {
        Ok(Vec::new(alloc))
    } else {
        guarded(alloc, by, at, behind)
    }
}

/// What an `if` has but its parts.
#[derive(Drop)]
struct Fork {
    number: u32,
    site: Site,
    test: Expr,
}

fn choose(of: Fork, taken: Vec<Stmt>, skipped: Vec<Stmt>) -> Stmt
    ensures { statement_seen result ≡ rules.choice of.number (site_seen of.site) (expression of.test) (statements_seen taken.items) (statements_seen skipped.items) }
{
    choice(of.number, of.site, of.test, taken, skipped)
}

#[cycle(leaving)]
fn leave_if(
    alloc: Global,
    by: Exit,
    flagged: bool,
    of: Fork,
    parts: (Vec<Stmt>, Vec<Stmt>),
    behind: Vec<Stmt>,
) -> Result<Vec<Stmt>, AllocError>
    ensures { IfOk result (λ v. statements_seen v.items ≡ rules.leave_if (exit by) flagged of.number (site_seen of.site) (expression of.test) (statements_seen parts.0.items) (statements_seen parts.1.items) (statements_seen behind.items)) }
{
    let (taken, skipped) = parts;
    let at = of.site;
    if ends(taken.as_slice()) {
        let taken = leave(alloc, by, flagged, taken, Vec::new(alloc))?;
        let skipped = leave_part(alloc, by, flagged, at, skipped, behind)?;
        alone(alloc, choose(of, taken, skipped))
    } else if ends(skipped.as_slice()) && !exits_among(by, taken.as_slice()) {
        let taken = block_before(at, taken, behind)?;
        let skipped = leave(alloc, by, flagged, skipped, Vec::new(alloc))?;
        alone(alloc, choose(of, taken, skipped))
    } else {
        let taken = leave(alloc, by, flagged, taken, Vec::new(alloc))?;
        let skipped = leave(alloc, by, flagged, skipped, Vec::new(alloc))?;
        before(choose(of, taken, skipped), guarded(alloc, by, at, behind)?)
    }
}

#[cycle(leaving)]
fn leave_one(
    alloc: Global,
    by: Exit,
    flagged: bool,
    statement: Stmt,
    behind: Vec<Stmt>,
) -> Result<Vec<Stmt>, AllocError>
    ensures { IfOk result (λ v. statements_seen v.items ≡ rules.leave_one (exit by) flagged (statement_seen statement) (statements_seen behind.items)) }
{
    match statement {
        Stmt::Break { site, .. } => jump(alloc, by, flagged, site),
        Stmt::Continue { site, .. } => jump(alloc, by, flagged, site),
        Stmt::Return { site, value, .. } => given(alloc, flagged, site, value),
        Stmt::Block { number, site, body } => {
            let all_end = ends(body.as_slice());
            let body = leave(alloc, by, flagged, body, Vec::new(alloc))?;
            let behind = behind_all(alloc, by, site, all_end, behind)?;
            before(block(number, site, body), behind)
        }
        Stmt::If {
            number,
            site,
            test,
            taken,
            skipped,
        } => {
            let of = Fork { number, site, test };
            leave_if(alloc, by, flagged, of, (taken, skipped), behind)
        }
        Stmt::While {
            number,
            site,
            test,
            body,
        } => {
            let body = all_looped(alloc, body)?;
            let turning = repeated(number, site, test, body);
            loop_before(alloc, by, site, turning, behind)
        }
        Stmt::Do {
            number,
            site,
            body,
            test,
        } => {
            let body = all_looped(alloc, body)?;
            let turning = done(number, site, body, test);
            loop_before(alloc, by, site, turning, behind)
        }
        Stmt::For {
            number,
            site,
            first,
            test,
            update,
            body,
        } => {
            let body = all_looped(alloc, body)?;
            let head = Head {
                first,
                test,
                update,
            };
            let turning = counting(number, site, head, body);
            loop_before(alloc, by, site, turning, behind)
        }
        Stmt::Declare(_)
        | Stmt::Typedef(_)
        | Stmt::Evaluate { .. }
        | Stmt::Switch { .. }
        | Stmt::Case { .. }
        | Stmt::Default { .. }
        | Stmt::Empty { .. } => before(statement, behind),
    }
}

// Whether it is an `if` alone.
fn is_lone_if(of: &[Stmt]) -> bool
    ensures { result ≡ second.is_lone_if (statements_seen of.now) }
{
    match of {
        [] => false,
        [first, others @ ..] => is_if(first) && is_none(others),
    }
}

// The second part of an `if` whose first one always jumps.
#[cycle(leaving)]
fn leave_part(
    alloc: Global,
    by: Exit,
    flagged: bool,
    at: Site,
    part: Vec<Stmt>,
    behind: Vec<Stmt>,
) -> Result<Vec<Stmt>, AllocError>
    ensures { IfOk result (λ v. statements_seen v.items ≡ rules.leave_part (exit by) flagged (site_seen at) (statements_seen part.items) (rules.leave (exit by) flagged (statements_seen part.items) none) (statements_seen behind.items)) }
{
    if is_none(part.as_slice()) {
        Ok(behind)
    } else if is_lone_if(part.as_slice()) {
        leave(alloc, by, flagged, part, behind)
    } else {
        leave_block(alloc, by, flagged, at, part, behind)
    }
}

#[cycle(leaving)]
fn leave_block(
    alloc: Global,
    by: Exit,
    flagged: bool,
    at: Site,
    part: Vec<Stmt>,
    behind: Vec<Stmt>,
) -> Result<Vec<Stmt>, AllocError>
    ensures { IfOk result (λ v. statements_seen v.items ≡ rules.leave_block (exit by) flagged (site_seen at) (statements_seen part.items) (statements_seen behind.items)) }
{
    if exits_among(by, part.as_slice()) {
        let all_end = ends(part.as_slice());
        let part = leave(alloc, by, flagged, part, Vec::new(alloc))?;
        before(
            block(0, at, part),
            behind_all(alloc, by, at, all_end, behind)?,
        )
    } else {
        before(block(0, at, part), behind)
    }
}

// Statements that such exits leave.
fn left_by(
    alloc: Global,
    by: Exit,
    at: Site,
    flagged: bool,
    body: Vec<Stmt>,
) -> Result<Vec<Stmt>, AllocError>
    ensures { IfOk result (λ v. statements_seen v.items ≡ rules.left_by (exit by) (site_seen at) flagged (statements_seen body.items)) }
{
    let body = leave(alloc, by, flagged, body, Vec::new(alloc))?;
    if flagged {
        before(flag_declared(alloc, at, flag_of(by))?, body)
    } else {
        Ok(body)
    }
}

/// What is left by such exits, without them.
pub fn region(alloc: Global, by: Exit, at: Site, body: Vec<Stmt>) -> Result<Vec<Stmt>, AllocError>
    ensures { IfOk result (λ v. statements_seen v.items ≡ rules.region (exit by) (site_seen at) (statements_seen body.items)) }
{
    if exits_among(by, body.as_slice()) {
        let flagged = needs(by, false, body.as_slice());
        left_by(alloc, by, at, flagged, body)
    } else {
        Ok(body)
    }
}
