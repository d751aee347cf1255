//! The tests that hold where something stands.

use core_code::tree::{Site, Statement, Term};
use std::alloc::{AllocError, Global};

/// A test, and whether it holds.
#[derive(Clone, Copy)]
pub struct Guard<'a> {
    pub test: &'a Term,
    pub holds: bool,
}

/// A load, an operator or a conversion of that site stands in a term.
pub fn has_site(term: &Term, wanted: Site) -> bool {
    match term {
        Term::Literal { .. } | Term::Variable { .. } | Term::Id { .. } => false,
        Term::Load {
            site,
            index: of,
            ..
        }
        | Term::Unary { site, of, .. }
        | Term::Convert { site, of, .. }
        | Term::Within {
            site,
            index: of,
            ..
        } => *site == wanted || has_site(of, wanted),
        Term::Binary {
            site,
            left,
            right,
            ..
        } => *site == wanted || has_site(left, wanted) || has_site(right, wanted),
        Term::Not { of } => has_site(of, wanted),
        Term::Compare { left, right, .. }
        | Term::And { left, right }
        | Term::Or { left, right }
        | Term::Minimum { left, right }
        | Term::Maximum { left, right }
        | Term::Shift {
            value: left,
            count: right,
            ..
        } => has_site(left, wanted) || has_site(right, wanted),
        Term::Select {
            test: first,
            taken: second,
            skipped: third,
        }
        | Term::Opaque {
            first,
            second,
            third,
            ..
        } => has_site(first, wanted) || has_site(second, wanted) || has_site(third, wanted),
    }
}

/// Takes up the tests on the way to a site in a term.
fn push_inner<'a>(
    guards: &mut Vec<Guard<'a>>,
    term: &'a Term,
    wanted: Site,
) -> Result<(), AllocError> {
    match term {
        Term::Literal { .. } | Term::Variable { .. } | Term::Id { .. } => Ok(()),
        Term::Load { index: of, .. }
        | Term::Unary { of, .. }
        | Term::Convert { of, .. }
        | Term::Within { index: of, .. }
        | Term::Not { of } => push_inner(guards, of, wanted),
        Term::And { left, right } | Term::Or { left, right } => {
            if has_site(right, wanted) {
                guards.push(Guard {
                    test: left,
                    holds: matches!(term, Term::And { .. }),
                })?;
            }
            push_inner(guards, left, wanted)?;
            push_inner(guards, right, wanted)
        }
        Term::Binary { left, right, .. }
        | Term::Compare { left, right, .. }
        | Term::Minimum { left, right }
        | Term::Maximum { left, right }
        | Term::Shift {
            value: left,
            count: right,
            ..
        } => {
            push_inner(guards, left, wanted)?;
            push_inner(guards, right, wanted)
        }
        Term::Opaque {
            first,
            second,
            third,
            ..
        } => {
            push_inner(guards, first, wanted)?;
            push_inner(guards, second, wanted)?;
            push_inner(guards, third, wanted)
        }
        Term::Select {
            test,
            taken,
            skipped,
        } => {
            if has_site(taken, wanted) || has_site(skipped, wanted) {
                guards.push(Guard {
                    test,
                    holds: has_site(taken, wanted),
                })?;
            }
            push_inner(guards, test, wanted)?;
            push_inner(guards, taken, wanted)?;
            push_inner(guards, skipped, wanted)
        }
    }
}

/// The site stands in a term, which is the last one of a statement that is looked at: the tests on the way there are taken up.
fn is_met<'a>(
    guards: &mut Vec<Guard<'a>>,
    term: &'a Term,
    wanted: Site,
) -> Result<bool, AllocError> {
    if !has_site(term, wanted) {
        return Ok(false);
    }
    push_inner(guards, term, wanted)?;
    Ok(true)
}

/// The last statement leaves a block.
fn leaves(body: &[Statement]) -> bool {
    matches!(
        body.last(),
        Some(Statement::Return { .. } | Statement::Break { .. } | Statement::Continue { .. })
    )
}

/// The test that holds behind a statement that is left early where it does not.
fn behind<'a>(statement: &'a Statement) -> Option<Guard<'a>> {
    match statement {
        Statement::If { test, taken, .. } if leaves(taken.as_slice()) => Some(Guard {
            test,
            holds: false,
        }),
        Statement::If {
            test,
            taken,
            skipped,
            ..
        } if !taken.is_empty() && leaves(skipped.as_slice()) => Some(Guard { test, holds: true }),
        _ => None,
    }
}

/// The tests that hold in a block in front of the site, where the site stands in it.
#[cycle(seeking)]
fn seek_under<'a>(
    body: &'a [Statement],
    guard: Guard<'a>,
    wanted: Site,
    guards: &mut Vec<Guard<'a>>,
) -> Result<bool, AllocError> {
    guards.push(guard)?;
    if seek_all(body, wanted, guards)? {
        return Ok(true);
    }
    drop(guards.pop());
    Ok(false)
}

/// Takes up the tests that hold at a site, where it stands in a statement.
#[cycle(seeking)]
fn seek<'a>(
    statement: &'a Statement,
    wanted: Site,
    guards: &mut Vec<Guard<'a>>,
) -> Result<bool, AllocError> {
    match statement {
        Statement::Set { value, .. } => is_met(guards, value, wanted),
        Statement::Store {
            site,
            index,
            value,
            ..
        } => Ok(
            *site == wanted || is_met(guards, index, wanted)? || is_met(guards, value, wanted)?,
        ),
        Statement::If {
            test,
            taken,
            skipped,
            ..
        } => {
            if is_met(guards, test, wanted)? {
                return Ok(true);
            }
            let holds = Guard { test, holds: true };
            if seek_under(taken.as_slice(), holds, wanted, guards)? {
                return Ok(true);
            }
            let fails = Guard { test, holds: false };
            seek_under(skipped.as_slice(), fails, wanted, guards)
        }
        Statement::Loop {
            test,
            body,
            update,
            ..
        } => {
            if is_met(guards, test, wanted)? {
                return Ok(true);
            }
            let holds = Guard { test, holds: true };
            if seek_under(body.as_slice(), holds, wanted, guards)? {
                return Ok(true);
            }
            seek_under(update.as_slice(), holds, wanted, guards)
        }
        Statement::Barrier { .. }
        | Statement::Return { .. }
        | Statement::Break { .. }
        | Statement::Continue { .. } => Ok(false),
    }
}

/// Takes up the tests that hold at a site, where it stands in a block.
#[cycle(seeking)]
fn seek_all<'a>(
    body: &'a [Statement],
    wanted: Site,
    guards: &mut Vec<Guard<'a>>,
) -> Result<bool, AllocError> {
    let before = guards.len();
    for statement in body {
        if seek(statement, wanted, guards)? {
            return Ok(true);
        }
        if let Some(guard) = behind(statement) {
            guards.push(guard)?;
        }
    }
    guards.truncate(before);
    Ok(false)
}

/// The tests that hold at a site, the outermost first.
pub fn guards_at(
    alloc: Global,
    body: &[Statement],
    wanted: Site,
) -> Result<Vec<Guard<'_>>, AllocError> {
    let mut guards = Vec::new(alloc);
    seek_all(body, wanted, &mut guards)?;
    Ok(guards)
}
