//! With which lists one head is reached from what is left.

ghost use Rattle.std.specs.Prelude.{◌≡◌, IfOk};
ghost use Rattle.semantics.specs.Core as core;
ghost use Rattle.semantics.specs.Item as items;
ghost use Rattle.core_code.specs.View.{statement as statement_seen, statements as statements_seen};
ghost use Rattle.arrivals.specs.Places.{lists_of, reached};
ghost use Rattle.places.specs.Behind.{found as found_seen, rest_before as rest_passed, rests_before};
ghost use Rattle.places.specs.Reaching as reaching;
ghost use Rattle.places.specs.View.{lists as lists_seen, left};

use crate::exits::{Exits, Frame};
use crate::lists::Lists;
use crate::point::Rest;
use crate::reaching::{from_statement, from_statements};
use core_code::tree::Statement;
use std::alloc::{AllocError, Global};

/// The lists with which a head is reached: from the front, and past each statement of it and from its update, the innermost last.
#[derive(Drop)]
pub struct Found {
    pub go: Lists,
    pub frames: Vec<Frame>,
}

#[tactic(auto, using(crate::proofs::Framing::frames_more))]
/// The lists with one statement more in front, by those with which the head is reached from there and from its update.
fn passed(number: u32, go: Lists, back: Lists, found: Found) -> Result<Found, AllocError>
    ensures { IfOk result (λ f. found_seen f ≡ reaching.passed number (lists_seen go) (lists_seen back) (found_seen found)) }
{
    let mut frames = found.frames;
    let frame = Frame {
        number,
        out: found.go,
        back,
    };
    frames.push(frame)?;
    Ok(Found { go, frames })
}

/// The lists with which a head is reached from a statement that stands in front of what was found.
fn go_before(
    alloc: Global,
    head: u32,
    statement: &Statement,
    found: &Found,
) -> Result<Lists, AllocError>
    ensures { IfOk result (λ l. lists_seen l ≡ reaching.by_statement head (statement_seen statement.now) (found_seen found.now).go (found_seen found.now).exits) }
{
    let go = found.go.copy(alloc)?;
    from_statement(
        alloc,
        head,
        statement,
        go,
        Exits::Around(found.frames.as_slice()),
    )
}

/// The lists with which a head is reached from the update of a statement that stands in front of what was found.
fn back_before(
    alloc: Global,
    head: u32,
    statement: &Statement,
    go: &Lists,
    found: &Found,
) -> Result<Lists, AllocError>
    ensures { IfOk result (λ l. lists_seen l ≡ reaching.by_statements head (items.update_of (statement_seen statement.now)) (lists_seen go.now) (found_seen found.now).exits) }
{
    let go = go.copy(alloc)?;
    let update = statement.update();
    from_statements(
        alloc,
        head,
        update,
        go,
        Exits::Around(found.frames.as_slice()),
    )
}

/// The lists with one statement more in front of what was found.
fn before(
    alloc: Global,
    head: u32,
    statement: &Statement,
    found: Found,
) -> Result<Found, AllocError>
    ensures { IfOk result (λ f. found_seen f ≡ reaching.before head (statement_seen statement.now) (found_seen found)) }
{
    let go = go_before(alloc, head, statement, &found)?;
    let back = back_before(alloc, head, statement, &go, &found)?;
    passed(statement.number(), go, back, found)
}

/// Goes in front of a list of statements, from the last one to the first.
fn all_before(
    alloc: Global,
    head: u32,
    body: &[Statement],
    found: Found,
) -> Result<Found, AllocError>
    ensures { IfOk result (λ f. found_seen f ≡ reaching.all_before head (statements_seen body.now) (found_seen found)) }
{
    let mut here = found;
    let mut at = body.len();
    while at > 0 {
        at -= 1;
        here = before(alloc, head, &body[at], here)?;
    }
    Ok(here)
}

/// The statements of a list, or a loop that has turned.
fn rest_before(alloc: Global, head: u32, rest: Rest<'_>, found: Found) -> Result<Found, AllocError>
    ensures { IfOk result (λ f. found_seen f ≡ rest_passed head rest.entry (found_seen found)) }
{
    match rest {
        Rest::Fresh(body) => all_before(alloc, head, body, found),
        Rest::Turning(statement) => before(alloc, head, statement, found),
    }
}

/// Goes in front of all lists that are left behind a point, the outermost first.
fn all_rest(alloc: Global, head: u32, rest: &[Rest<'_>]) -> Result<Found, AllocError>
    ensures { IfOk result (λ f. found_seen f ≡ rests_before head rest.now reaching.nothing) }
{
    let mut found = Found {
        go: Lists::NoList,
        frames: Vec::new(alloc),
    };
    for one in rest {
        found = rest_before(alloc, head, *one, found)?;
    }
    Ok(found)
}

#[tactic(auto, using(crate::proofs::Reached::found_reached, crate::proofs::Framing::rests_found))]
/// The lists with which the head of that number is reached from what is left behind a point.
pub fn reached_from(alloc: Global, head: u32, rest: &[Rest<'_>]) -> Result<Lists, AllocError>
    ensures { IfOk result (λ l. lists_seen l ≡ lists_of head (reached (left rest.now))) }
{
    let found = all_rest(alloc, head, rest)?;
    Ok(found.go)
}
