//! Loops with a barrier of which a turn may miss one.

ghost use Rattle.std.specs.Prelude.{◌≡◌, ◌||◌};
ghost use Rattle.core_code.specs.View.{statement as statement_seen, statements as statements_seen};
ghost use Rattle.arrivals.specs.Loops as loops;

use crate::barriers::{either, holds_barrier};
use core_code::tree::Statement;

/// An item may come through behind the statement without a barrier.
#[cycle(slips)]
fn slips(statement: &Statement) -> bool
    ensures { result ≡ loops.slips (statement_seen statement.now) }
{
    match statement {
        Statement::Set { .. } | Statement::Store { .. } | Statement::Loop { .. } => true,
        Statement::If { taken, skipped, .. } => {
            either(slip(taken.as_slice()), slip(skipped.as_slice()))
        }
        Statement::Barrier { .. }
        | Statement::Return { .. }
        | Statement::Break { .. }
        | Statement::Continue { .. } => false,
    }
}

/// An item may come through behind the statements without a barrier.
#[cycle(slips)]
fn slip(body: &[Statement]) -> bool
    ensures { result ≡ loops.slip (statements_seen body.now) }
{
    for statement in body {
        if !slips(statement) {
            return false;
        }
    }
    true
}

/// An item may come to a `continue` in the statement without a barrier.
#[cycle(skips)]
fn skips(statement: &Statement) -> bool
    ensures { result ≡ loops.skips (statement_seen statement.now) }
{
    match statement {
        Statement::If { taken, skipped, .. } => {
            either(skip(taken.as_slice()), skip(skipped.as_slice()))
        }
        Statement::Continue { .. } => true,
        Statement::Set { .. }
        | Statement::Store { .. }
        | Statement::Loop { .. }
        | Statement::Barrier { .. }
        | Statement::Return { .. }
        | Statement::Break { .. } => false,
    }
}

/// An item may come to a `continue` in the statements without a barrier.
#[cycle(skips)]
fn skip(body: &[Statement]) -> bool
    ensures { result ≡ loops.skip (statements_seen body.now) }
{
    for statement in body {
        if skips(statement) {
            return true;
        }
        if !slips(statement) {
            return false;
        }
    }
    false
}

/// The first of two numbers that may be there.
fn first_of(first: Option<u32>, second: Option<u32>) -> Option<u32>
    ensures { result ≡ loops.first_of first second }
{
    match first {
        None => second,
        Some(number) => Some(number),
    }
}

/// A loop with a barrier that may miss it.
fn loop_fault(holds: bool, misses: bool, number: u32) -> Option<u32>
    ensures { result ≡ loops.loop_fault holds misses number }
{
    if holds && misses { Some(number) } else { None }
}

/// The number of a loop itself, if its body or its update has a barrier and a turn may miss it.
fn own_fault(number: u32, body: &[Statement], update: &[Statement]) -> Option<u32>
    ensures { result ≡ loops.loop_fault (loops.have_barrier (statements_seen body.now) || loops.have_barrier (statements_seen update.now)) (loops.slip (statements_seen body.now) || loops.skip (statements_seen body.now)) number }
{
    loop_fault(
        holds_barrier(body, update),
        either(slip(body), skip(body)),
        number,
    )
}

/// The first loop with a barrier in the statement that may miss it.
#[cycle(unmet)]
fn unmet_one(statement: &Statement) -> Option<u32>
    ensures { result ≡ loops.unmet_one (statement_seen statement.now) }
{
    match statement {
        Statement::If { taken, skipped, .. } => {
            first_of(unmet(taken.as_slice()), unmet(skipped.as_slice()))
        }
        Statement::Loop {
            number,
            body,
            update,
            ..
        } => {
            let own = own_fault(*number, body.as_slice(), update.as_slice());
            let inside = first_of(unmet(body.as_slice()), unmet(update.as_slice()));
            first_of(own, inside)
        }
        Statement::Set { .. }
        | Statement::Store { .. }
        | Statement::Barrier { .. }
        | Statement::Return { .. }
        | Statement::Break { .. }
        | Statement::Continue { .. } => None,
    }
}

/// The first loop with a barrier in source order, by its number, through whose body an item may come without one.
#[cycle(unmet)]
pub fn unmet(body: &[Statement]) -> Option<u32>
    ensures { result ≡ loops.unmet (statements_seen body.now) }
{
    for statement in body {
        let number = unmet_one(statement);
        if number.is_some() {
            return number;
        }
    }
    None
}
