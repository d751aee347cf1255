//! The places of a kernel, in order.

ghost use Rattle.std.specs.Prelude.{◌≡◌, ◌++◌, ◌∷◌, [], map, Some, IfOk, OnOk, MatchResult};
ghost use Rattle.core_code.specs.View.{statement as statement_seen, statements as statements_seen};
ghost use Rattle.arrivals.specs.Places as meaning;
ghost use Rattle.arrivals.specs.Places.{reached, heads_among};
ghost use Rattle.places.specs.Answers.{ArePlaces, IsRefused};
ghost use Rattle.places.specs.Listing.{placed, placed_barriers};
ghost use Rattle.places.specs.View.{left, maybe_point, place as place_seen, point as point_seen};

use crate::barriers::holds_barrier;
use crate::behind::reached_from;
use crate::error::PlaceError;
use crate::faults::unmet;
use crate::place::{Place, push_head, push_own};
use crate::point::{Point, Rest};
use crate::pointing::points_of;
use core_code::tree::{Core, Statement};
use std::alloc::{AllocError, Global};

/// The statement is a loop without a barrier.
fn is_head(statement: &Statement) -> bool
    ensures { result ≡ meaning.is_head (statement_seen statement.now) }
{
    match statement {
        Statement::Loop { body, update, .. } => !holds_barrier(body.as_slice(), update.as_slice()),
        _ => false,
    }
}

/// The statement is a barrier.
fn is_barrier(statement: &Statement) -> bool
    ensures { result ≡ meaning.is_barrier (statement_seen statement.now) }
{
    match statement {
        Statement::Barrier { .. } => true,
        _ => false,
    }
}

/// Adds the place of a point under an anchor, if it is a head that is reached from there.
fn push_if_head<'a>(
    alloc: Global,
    anchor: &Option<Point<'a>>,
    rest: &[Rest<'a>],
    point: &Point<'a>,
    places: &mut Vec<Place<'a>>,
) -> Result<(), AllocError>
    ensures { OnOk result (map place_seen places.new.items ≡ map place_seen places.old.items ++ heads_among (maybe_point anchor.now) (reached (left rest.now)) (point_seen point.now ∷ [])) }
{
    if is_head(point.statement) {
        let found = reached_from(alloc, point.statement.number(), rest)?;
        push_head(alloc, anchor, point, found, places)?;
    }
    Ok(())
}

#[tactic(auto, using(crate::proofs::Listed::heads_more))]
/// The places of an anchor behind which that is left.
fn push_placed<'a>(
    alloc: Global,
    anchor: &Option<Point<'a>>,
    rest: &[Rest<'a>],
    all: &[Point<'a>],
    places: &mut Vec<Place<'a>>,
) -> Result<(), AllocError>
    ensures { OnOk result (map place_seen places.new.items ≡ map place_seen places.old.items ++ placed (maybe_point anchor.now) (left rest.now) (map point_seen all.now)) }
{
    push_own(alloc, anchor, places)?;
    for point in all {
        push_if_head(alloc, anchor, rest, point, places)?;
    }
    Ok(())
}

/// Adds the places of a barrier: the barrier itself, and the loops without a barrier that are reached from it.
fn push_barrier<'a>(
    alloc: Global,
    barrier: &Point<'a>,
    all: &[Point<'a>],
    places: &mut Vec<Place<'a>>,
) -> Result<(), AllocError>
    ensures { OnOk result (map place_seen places.new.items ≡ map place_seen places.old.items ++ placed (Some (point_seen barrier.now)) (point_seen barrier.now).rest (map point_seen all.now)) }
{
    let anchor = barrier.copy(alloc)?;
    push_placed(alloc, &Some(anchor), barrier.rest.as_slice(), all, places)
}

/// Adds the places of all barriers among the points of a kernel, in order.
fn push_barriers<'a>(
    alloc: Global,
    all: &[Point<'a>],
    places: &mut Vec<Place<'a>>,
) -> Result<(), AllocError>
    ensures { OnOk result (map place_seen places.new.items ≡ map place_seen places.old.items ++ placed_barriers (map point_seen all.now) (map point_seen all.now)) }
{
    for point in all {
        if is_barrier(point.statement) {
            push_barrier(alloc, point, all, places)?;
        }
    }
    Ok(())
}

/// The places of a kernel, of its entry first and then of each barrier, in order.
fn all_places<'a>(alloc: Global, body: &'a [Statement]) -> Result<Vec<Place<'a>>, AllocError>
    ensures { IfOk result (λ v. map place_seen v.items ≡ meaning.places (statements_seen body.now)) }
{
    let all = points_of(alloc, body)?;
    let mut places = Vec::new(alloc);
    push_placed(
        alloc,
        &None,
        &[Rest::Fresh(body)],
        all.as_slice(),
        &mut places,
    )?;
    push_barriers(alloc, all.as_slice(), &mut places)?;
    Ok(places)
}

/// The places of a kernel: its entry and each barrier, in order, each with the loops without a barrier that are reached from there.
/// Where an item may miss the barrier of a loop, the first such loop.
pub fn places<'a>(alloc: Global, core: &'a Core) -> Result<Vec<Place<'a>>, PlaceError>
    ensures { MatchResult result (λ v. ArePlaces (statements_seen core.now.body.items) v.items) (λ e. IsRefused (statements_seen core.now.body.items) e) }
{
    if let Some(number) = unmet(core.body.as_slice()) {
        return Err(PlaceError::Missed(number));
    }
    let all = all_places(alloc, core.body.as_slice())?;
    Ok(all)
}
