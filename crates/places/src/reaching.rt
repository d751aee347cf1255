//! With which lists one head is reached, from the end of statements to their front.

ghost use Rattle.std.specs.Prelude.{◌≡◌, ◌||◌, ◌∷◌, [], nat_eq, IfOk};
ghost use Rattle.core_code.specs.View.{statement as statement_seen, statements as statements_seen};
ghost use Rattle.arrivals.specs.Loops.{have_barrier as barrier_in};
ghost use Rattle.arrivals.specs.Places.{NoList};
ghost use Rattle.places.specs.Frames.{exits as exits_seen};
ghost use Rattle.places.specs.Reaching as reaching;
ghost use Rattle.places.specs.View.{lists as lists_seen};

use crate::barriers::holds_barrier;
use crate::exits::{Exits, back_of, out_of};
use crate::lists::Lists;
use core_code::tree::Statement;
use std::alloc::{AllocError, Global};

/// The lists with which a head is reached from a loop with a barrier, by those from its body and from behind it.
fn by_turn(number: u32, body: Lists, go: Lists) -> Result<Lists, AllocError>
    ensures { IfOk result (λ l. lists_seen l ≡ reaching.join (reaching.after (lists_seen body) (number ∷ [])) (lists_seen go)) }
{
    let turned = body.after(number)?;
    Ok(turned.join(go))
}

/// The lists with which a head is reached from a loop without a barrier, which is the head itself or another.
fn by_head(alloc: Global, is: bool, body: Lists, update: Lists, go: Lists) -> Lists
    ensures { lists_seen result ≡ reaching.join (reaching.at_head is) (reaching.join (reaching.join (lists_seen body) (lists_seen update)) (lists_seen go)) }
{
    Lists::at_head(alloc, is).join(body.join(update).join(go))
}

/// The lists with which a head is reached from a statement, by those from behind it and from the ways out.
#[cycle(reaching)]
pub fn from_statement(
    alloc: Global,
    head: u32,
    statement: &Statement,
    go: Lists,
    exits: Exits<'_>,
) -> Result<Lists, AllocError>
    ensures { IfOk result (λ l. lists_seen l ≡ reaching.by_statement head (statement_seen statement.now) (lists_seen go) (exits_seen exits.entry)) }
{
    match statement {
        Statement::Set { .. } | Statement::Store { .. } => Ok(go),
        Statement::If { taken, skipped, .. } => {
            let again = go.copy(alloc)?;
            let first = from_statements(alloc, head, taken.as_slice(), again, exits)?;
            let second = from_statements(alloc, head, skipped.as_slice(), go, exits)?;
            Ok(first.join(second))
        }
        Statement::Loop {
            number,
            body,
            update,
            ..
        } => {
            let inside = from_body(alloc, head, body.as_slice(), &go)?;
            if holds_barrier(body.as_slice(), update.as_slice()) {
                let turned = by_turn(*number, inside, go)?;
                return Ok(turned);
            }
            let updated = from_body(alloc, head, update.as_slice(), &go)?;
            Ok(by_head(alloc, *number == head, inside, updated, go))
        }
        Statement::Barrier { .. } | Statement::Return { .. } => Ok(Lists::NoList),
        Statement::Break { of, .. } => out_of(alloc, exits, *of),
        Statement::Continue { of, .. } => back_of(alloc, exits, *of),
    }
}

/// The lists with which a head is reached from the body or the update of a loop, by those from behind that.
#[cycle(reaching)]
fn from_body(alloc: Global, head: u32, body: &[Statement], go: &Lists) -> Result<Lists, AllocError>
    ensures { IfOk result (λ l. lists_seen l ≡ reaching.by_statements head (statements_seen body.now) NoList (reaching.in_body (lists_seen go.now))) }
{
    from_statements(alloc, head, body, Lists::NoList, Exits::Inside(go))
}

/// The lists with which a head is reached from statements one after the other.
#[cycle(reaching)]
pub fn from_statements(
    alloc: Global,
    head: u32,
    body: &[Statement],
    go: Lists,
    exits: Exits<'_>,
) -> Result<Lists, AllocError>
    ensures { IfOk result (λ l. lists_seen l ≡ reaching.by_statements head (statements_seen body.now) (lists_seen go) (exits_seen exits.entry)) }
{
    let mut here = go;
    let mut at = body.len();
    while at > 0 {
        at -= 1;
        here = from_statement(alloc, head, &body[at], here, exits)?;
    }
    Ok(here)
}
