//! The bodies of functions of the file.

ghost use Rattle.std.specs.Prelude.{◌≡◌, Ok, false};
ghost use Rattle.core_code.specs.View.{site as site_seen};
ghost use Rattle.opencl_tree.specs.View.{expression, maybe, statement as statement_seen, statements as statements_seen};
ghost use Rattle.opencl_values.specs.View.{Gives};
ghost use Rattle.opencl_core.specs.Parts as parts;
ghost use Rattle.opencl_core.specs.Tails as rules;
ghost use Rattle.opencl_core.specs.View as seen;
ghost use Rattle.opencl_core.specs.Writing as writing;

use crate::parts::put_if;
use crate::rooms::{Part, Room};
use crate::writing::{Around, drawn_test, returned, write_all, write_statement};
use core_code::tree::Site;
use opencl_tree::tree::{Expr, Stmt};
use opencl_values::error::{Construct, Fault, ValueError, refused};
use std::alloc::Global;

/// Whether there is a `return` in a statement.
#[cycle(returning)]
fn returns_in(of: &Stmt) -> bool
    ensures { result ≡ rules.returns_in (statement_seen of.now) }
{
    match of {
        Stmt::If { taken, skipped, .. } => {
            returns_among(taken.as_slice()) || returns_among(skipped.as_slice())
        }
        Stmt::While { body, .. } => returns_among(body.as_slice()),
        Stmt::Do { body, .. } => returns_among(body.as_slice()),
        Stmt::For { body, .. } => returns_among(body.as_slice()),
        Stmt::Switch { body, .. } => returns_among(body.as_slice()),
        Stmt::Block { body, .. } => returns_among(body.as_slice()),
        Stmt::Return { .. } => true,
        Stmt::Declare(_)
        | Stmt::Typedef(_)
        | Stmt::Evaluate { .. }
        | Stmt::Case { .. }
        | Stmt::Default { .. }
        | Stmt::Break { .. }
        | Stmt::Continue { .. }
        | Stmt::Empty { .. } => false,
    }
}

#[cycle(returning)]
fn returns_among(of: &[Stmt]) -> bool
    ensures { result ≡ rules.returns_among (statements_seen of.now) }
{
    for statement in of {
        if returns_in(statement) {
            return true;
        }
    }
    false
}

// Whether the last statement is a `return`, whichever way is gone.
#[cycle(ending)]
fn ends_with(of: &Stmt) -> bool
    ensures { result ≡ rules.ends_with (statement_seen of.now) }
{
    match of {
        Stmt::Return { .. } => true,
        Stmt::If { taken, skipped, .. } => {
            let taken_ends = ends(taken.as_slice());
            let skipped_ends = ends(skipped.as_slice());
            taken_ends && skipped_ends
        }
        Stmt::Block { body, .. } => ends(body.as_slice()),
        _ => false,
    }
}

#[cycle(ending)]
fn ends(of: &[Stmt]) -> bool
    ensures { result ≡ rules.ends (statements_seen of.now) }
{
    let mut so = false;
    for statement in of {
        so = ends_with(statement);
    }
    so
}

fn is_none(of: &[Stmt]) -> bool
    ensures { result ≡ rules.is_none (statements_seen of.now) }
{
    match of {
        [] => true,
        [_, ..] => false,
    }
}

fn is_if(of: &Stmt) -> bool
    ensures { result ≡ rules.is_if (statement_seen of.now) }
{
    matches!(of, Stmt::If { .. })
}

// A `return` that does not stand last on its way.
fn not_last(at: Site, room: &mut Room) -> Result<(), ValueError>
    ensures { Gives (λ _. seen.room room.new) result (rules.not_last (site_seen at) (seen.room room.old)) }
{
    let _ids = room.ids;
    refused(Fault::LeftOut(Construct::Function), at)
}

fn last_return(
    alloc: Global,
    at: Site,
    value: &Option<Expr>,
    is_last: bool,
    room: &mut Room,
) -> Result<(), ValueError>
    ensures { Gives (λ _. seen.room room.new) result (rules.last_return (site_seen at) (maybe value.now) is_last (seen.room room.old)) }
{
    if is_last {
        returned(alloc, at, value, room)
    } else {
        not_last(at, room)
    }
}

/// Writes the body of a function, of which each `return` stands last on its way.
#[cycle(tails)]
#[tactic(auto, unfolding(crate::specs::Tails::write_tail))]
pub fn write_tail<'a>(
    alloc: Global,
    body: &'a [Stmt],
    room: &mut Room<'a>,
) -> Result<(), ValueError>
    ensures { Gives (λ _. seen.room room.new) result (rules.write_tail (statements_seen body.now) (seen.room room.old)) }
{
    match body {
        [] => Ok(()),
        [first, behind @ ..] => tail_of(alloc, first, behind, room),
    }
}

// A statement, and what stands behind it.
#[cycle(tails)]
fn tail_of<'a>(
    alloc: Global,
    of: &'a Stmt,
    behind: &'a [Stmt],
    room: &mut Room<'a>,
) -> Result<(), ValueError>
    ensures { Gives (λ _. seen.room room.new) result (rules.tail_of (statement_seen of.now) (rules.is_none (statements_seen behind.now)) (rules.write_tail (statements_seen behind.now)) (seen.room room.old)) }
{
    if returns_in(of) {
        return tail_returning(alloc, of, behind, room);
    }
    write_statement(alloc, Around::Outside, of, room)?;
    write_tail(alloc, behind, room)
}

#[cycle(tails)]
#[tactic(auto, unfolding(crate::specs::Tails::tail_returning))]
fn tail_returning<'a>(
    alloc: Global,
    of: &'a Stmt,
    behind: &'a [Stmt],
    room: &mut Room<'a>,
) -> Result<(), ValueError>
    ensures { Gives (λ _. seen.room room.new) result (rules.tail_returning (statement_seen of.now) (rules.is_none (statements_seen behind.now)) (rules.write_tail (statements_seen behind.now)) (seen.room room.old)) }
{
    match of {
        Stmt::Return { site, value, .. } => {
            last_return(alloc, *site, value, is_none(behind), room)
        }
        Stmt::Block { site, body, .. } => last_block(alloc, *site, is_none(behind), body, room),
        Stmt::If {
            site,
            test,
            taken,
            skipped,
            ..
        } => tail_if(alloc, *site, test, (taken, skipped, behind), room),
        Stmt::While { site, .. }
        | Stmt::Do { site, .. }
        | Stmt::For { site, .. }
        | Stmt::Switch { site, .. } => not_last(*site, room),
        Stmt::Declare(_)
        | Stmt::Typedef(_)
        | Stmt::Evaluate { .. }
        | Stmt::Case { .. }
        | Stmt::Default { .. }
        | Stmt::Break { .. }
        | Stmt::Continue { .. }
        | Stmt::Empty { .. } => Ok(()),
    }
}

#[cycle(tails)]
fn last_block<'a>(
    alloc: Global,
    at: Site,
    is_last: bool,
    body: &'a [Stmt],
    room: &mut Room<'a>,
) -> Result<(), ValueError>
    ensures { Gives (λ _. seen.room room.new) result (rules.last_block (site_seen at) is_last (rules.write_tail (statements_seen body.now)) (seen.room room.old)) }
{
    if is_last {
        tail_block(alloc, body, room)
    } else {
        not_last(at, room)
    }
}

// The body of a function, or a part of it, as a block.
#[cycle(tails)]
fn tail_block<'a>(alloc: Global, body: &'a [Stmt], room: &mut Room<'a>) -> Result<(), ValueError>
    ensures { Gives (λ _. seen.room room.new) result (writing.block (rules.write_tail (statements_seen body.now)) (seen.room room.old)) }
{
    let scope = room.open(alloc);
    write_tail(alloc, body, room)?;
    room.close(alloc, scope)?;
    Ok(())
}

#[cycle(tails)]
fn tail_part<'a>(alloc: Global, body: &'a [Stmt], room: &mut Room<'a>) -> Result<Part, ValueError>
    ensures { Gives (λ p. (seen.part p, seen.room room.new)) result (parts.part (writing.block (rules.write_tail (statements_seen body.now))) (seen.room room.old)) }
{
    let before = room.set_apart(alloc);
    tail_block(alloc, body, room)?;
    Ok(room.rejoin(before))
}

// Statements as a block, and behind it the end of a function.
#[cycle(tails)]
fn block_then<'a>(
    alloc: Global,
    first: &'a [Stmt],
    behind: &'a [Stmt],
    room: &mut Room<'a>,
) -> Result<(), ValueError>
    ensures { Gives (λ _. seen.room room.new) result (rules.block_then (statements_seen first.now) (rules.write_tail (statements_seen behind.now)) (seen.room room.old)) }
{
    let scope = room.open(alloc);
    write_all(alloc, Around::Outside, first, room)?;
    room.close(alloc, scope)?;
    write_tail(alloc, behind, room)
}

#[cycle(tails)]
fn then_block<'a>(
    alloc: Global,
    first: &'a [Stmt],
    behind: &'a [Stmt],
    room: &mut Room<'a>,
) -> Result<(), ValueError>
    ensures { Gives (λ _. seen.room room.new) result (writing.block (rules.block_then (statements_seen first.now) (rules.write_tail (statements_seen behind.now))) (seen.room room.old)) }
{
    let scope = room.open(alloc);
    block_then(alloc, first, behind, room)?;
    room.close(alloc, scope)?;
    Ok(())
}

#[cycle(tails)]
fn then_part<'a>(
    alloc: Global,
    first: &'a [Stmt],
    behind: &'a [Stmt],
    room: &mut Room<'a>,
) -> Result<Part, ValueError>
    ensures { Gives (λ p. (seen.part p, seen.room room.new)) result (parts.part (writing.block (rules.block_then (statements_seen first.now) (rules.write_tail (statements_seen behind.now)))) (seen.room room.old)) }
{
    let before = room.set_apart(alloc);
    then_block(alloc, first, behind, room)?;
    Ok(room.rejoin(before))
}

// A part of an `if` whose other part always returns, and what stands behind the `if`.
#[cycle(tails)]
#[tactic(auto, unfolding(crate::specs::Tails::else_tail))]
fn else_tail<'a>(
    alloc: Global,
    at: Site,
    of: &'a [Stmt],
    behind: &'a [Stmt],
    room: &mut Room<'a>,
) -> Result<(), ValueError>
    ensures { Gives (λ _. seen.room room.new) result (rules.else_tail (site_seen at) (rules.is_none (statements_seen behind.now)) (statements_seen of.now) (rules.write_tail (statements_seen behind.now)) (seen.room room.old)) }
{
    match of {
        [] => block_then(alloc, of, behind, room),
        [first, others @ ..] => {
            if is_if(first) && is_none(others) {
                tail_of(alloc, first, behind, room)
            } else if returns_among(of) {
                not_last(at, room)
            } else {
                block_then(alloc, of, behind, room)
            }
        }
    }
}

#[cycle(tails)]
fn else_block<'a>(
    alloc: Global,
    at: Site,
    of: &'a [Stmt],
    behind: &'a [Stmt],
    room: &mut Room<'a>,
) -> Result<(), ValueError>
    ensures { Gives (λ _. seen.room room.new) result (writing.block (rules.else_tail (site_seen at) (rules.is_none (statements_seen behind.now)) (statements_seen of.now) (rules.write_tail (statements_seen behind.now))) (seen.room room.old)) }
{
    let scope = room.open(alloc);
    else_tail(alloc, at, of, behind, room)?;
    room.close(alloc, scope)?;
    Ok(())
}

#[cycle(tails)]
fn else_part<'a>(
    alloc: Global,
    at: Site,
    of: &'a [Stmt],
    behind: &'a [Stmt],
    room: &mut Room<'a>,
) -> Result<Part, ValueError>
    ensures { Gives (λ p. (seen.part p, seen.room room.new)) result (parts.part (writing.block (rules.else_tail (site_seen at) (rules.is_none (statements_seen behind.now)) (statements_seen of.now) (rules.write_tail (statements_seen behind.now)))) (seen.room room.old)) }
{
    let before = room.set_apart(alloc);
    else_block(alloc, at, of, behind, room)?;
    Ok(room.rejoin(before))
}

#[cycle(tails)]
fn both_last<'a>(
    alloc: Global,
    at: Site,
    test: &Expr,
    taken: &'a [Stmt],
    skipped: &'a [Stmt],
    room: &mut Room<'a>,
) -> Result<(), ValueError>
    ensures { Gives (λ _. seen.room room.new) result (writing.choice_of (site_seen at) (expression test.now) (rules.write_tail (statements_seen taken.now)) (rules.write_tail (statements_seen skipped.now)) (seen.room room.old)) }
{
    let (number, test) = drawn_test(alloc, at, test, room)?;
    let taken = tail_part(alloc, taken, room)?;
    let skipped = tail_part(alloc, skipped, room)?;
    put_if(at, number, test, taken, skipped, room)
}

#[cycle(tails)]
fn taken_last<'a>(
    alloc: Global,
    at: Site,
    test: &Expr,
    parts: (&'a [Stmt], &'a [Stmt], &'a [Stmt]),
    room: &mut Room<'a>,
) -> Result<(), ValueError>
    ensures { Gives (λ _. seen.room room.new) result (writing.choice_of (site_seen at) (expression test.now) (rules.write_tail (statements_seen parts.entry.0.now)) (rules.else_tail (site_seen at) (rules.is_none (statements_seen parts.entry.2.now)) (statements_seen parts.entry.1.now) (rules.write_tail (statements_seen parts.entry.2.now))) (seen.room room.old)) }
{
    let (taken, skipped, behind) = parts;
    let (number, test) = drawn_test(alloc, at, test, room)?;
    let taken = tail_part(alloc, taken, room)?;
    let skipped = else_part(alloc, at, skipped, behind, room)?;
    put_if(at, number, test, taken, skipped, room)
}

#[cycle(tails)]
fn skipped_last<'a>(
    alloc: Global,
    at: Site,
    test: &Expr,
    parts: (&'a [Stmt], &'a [Stmt], &'a [Stmt]),
    room: &mut Room<'a>,
) -> Result<(), ValueError>
    ensures { Gives (λ _. seen.room room.new) result (writing.choice_of (site_seen at) (expression test.now) (rules.block_then (statements_seen parts.entry.0.now) (rules.write_tail (statements_seen parts.entry.2.now))) (rules.write_tail (statements_seen parts.entry.1.now)) (seen.room room.old)) }
{
    let (taken, skipped, behind) = parts;
    let (number, test) = drawn_test(alloc, at, test, room)?;
    let taken = then_part(alloc, taken, behind, room)?;
    let skipped = tail_part(alloc, skipped, room)?;
    put_if(at, number, test, taken, skipped, room)
}

// An `if` with a `return` in it: its parts, and what stands behind it.
#[cycle(tails)]
#[tactic(auto, unfolding(crate::specs::Tails::tail_if))]
fn tail_if<'a>(
    alloc: Global,
    at: Site,
    test: &Expr,
    parts: (&'a [Stmt], &'a [Stmt], &'a [Stmt]),
    room: &mut Room<'a>,
) -> Result<(), ValueError>
    ensures { Gives (λ _. seen.room room.new) result (rules.tail_if (site_seen at) (expression test.now) (statements_seen parts.entry.0.now) (statements_seen parts.entry.1.now) (rules.is_none (statements_seen parts.entry.2.now)) (rules.write_tail (statements_seen parts.entry.0.now)) (rules.write_tail (statements_seen parts.entry.1.now)) (rules.else_tail (site_seen at) (rules.is_none (statements_seen parts.entry.2.now)) (statements_seen parts.entry.1.now) (rules.write_tail (statements_seen parts.entry.2.now))) (rules.write_tail (statements_seen parts.entry.2.now)) (seen.room room.old)) }
{
    let (taken, skipped, behind) = parts;
    if is_none(behind) {
        both_last(alloc, at, test, taken, skipped, room)
    } else if ends(taken) {
        taken_last(alloc, at, test, parts, room)
    } else if ends(skipped) && !returns_among(taken) {
        skipped_last(alloc, at, test, parts, room)
    } else {
        not_last(at, room)
    }
}
