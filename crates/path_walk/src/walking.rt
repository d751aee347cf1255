//! A place, walked along one path.

ghost use Rattle.std.specs.Prelude.{◌≡◌, MatchResult};
ghost use Rattle.core_code.specs.View.{kernel as core_seen};
ghost use Rattle.arrivals.specs.Places.{behind};
ghost use Rattle.arrivals.specs.Symbolic.{sketch, sketch_from};
ghost use Rattle.facts.specs.Refusals.{IsMemory};
ghost use Rattle.places.specs.View.{maybe_point, place as place_seen, turns as place_turns};
ghost use Rattle.obligations.specs.Walking.{course};
ghost use Rattle.path_steps.specs.Paths.{collect};
ghost use Rattle.path_steps.specs.Refusals.{Refused};
ghost use Rattle.path_steps.specs.View.{followed, turns as turns_seen};
ghost use Rattle.arrival_claims.specs.Claims.{Comes};
ghost use Rattle.arrival_claims.specs.View.{placed};
ghost use Rattle.path_walk.specs.Heads.{EndsAt};
ghost use Rattle.path_walk.specs.Rests.{ComesAlong, NotLeft};
ghost use Rattle.path_walk.specs.declared.flow.Flow.TheVariants.{Through};

use crate::flow::Flow;
use crate::heads::walk_head;
use crate::rests::walk_left;
use arrival_claims::Placing;
use domain::Domain;
use facts::WalkError;
use path_steps::{Halt, Path};
use places::{Place, Point, Rest};
use std::alloc::Global;

/// The turns of a place, the oldest first.
fn oldest_first(alloc: Global, turns: &Option<Vec<u32>>) -> Result<Option<Vec<u32>>, WalkError>
    ensures { MatchResult result (λ t. turns_seen t ≡ place_turns turns.now) IsMemory }
{
    match turns {
        None => Ok(None),
        Some(list) => {
            let mut oldest = Vec::from_slice(alloc, list.as_slice())?;
            oldest.reverse();
            Ok(Some(oldest))
        }
    }
}

/// The anchor itself: the whole body, or what is left behind a barrier.
fn walk_anchor<D: Domain>(
    placing: &Placing<'_, D>,
    path: &mut Path<D>,
    anchor: &Option<Point<'_>>,
    turns: &mut Option<Vec<u32>>,
) -> Result<(), Halt>
    ensures { MatchResult result (λ _. ComesAlong (placed D.Domain placing.now) (behind (core_seen placing.now.core.now).body (maybe_point anchor.now)) Through (followed path.old) (turns_seen turns.old) (followed path.new)) (λ h. NotLeft (placed D.Domain placing.now) (behind (core_seen placing.now.core.now).body (maybe_point anchor.now)) Through (followed path.old) (turns_seen turns.old) h (followed path.new)) }
{
    match anchor {
        None => {
            let rests = [Rest::Fresh(placing.core.body.as_slice())];
            walk_left(placing, path, Flow::Through, &rests, turns)
        }
        Some(point) => {
            let rests = point.rest.as_slice();
            walk_left(placing, path, Flow::Through, rests, turns)
        }
    }
}

/// Walks from a place to the path's end: from behind its anchor, or from the test of its loop.
fn walk_from<D: Domain>(
    placing: &Placing<'_, D>,
    path: &mut Path<D>,
    place: &Place<'_>,
    turns: &mut Option<Vec<u32>>,
) -> Result<(), Halt>
    ensures { MatchResult result (λ _. Comes (followed path.old) (sketch_from (course (placed D.Domain placing.now)) (core_seen placing.now.core.now).body (place_seen place.now).anchor (place_seen place.now).head (turns_seen turns.old)) (followed path.new).found) (λ h. EndsAt (followed path.old) (sketch_from (course (placed D.Domain placing.now)) (core_seen placing.now.core.now).body (place_seen place.now).anchor (place_seen place.now).head (turns_seen turns.old)) h (followed path.new)) }
{
    match &place.head {
        None => walk_anchor(placing, path, &place.anchor, turns),
        Some(head) => walk_head(placing, path, head, turns),
    }
}

/// A path from a place, from where it stands to its end.
pub fn walk_place<D: Domain>(
    placing: &Placing<'_, D>,
    place: &Place<'_>,
    path: Path<D>,
) -> Result<Path<D>, WalkError>
    ensures { MatchResult result (λ p. (followed p).found ≡ collect (followed path).found (sketch (course (placed D.Domain placing.now)) (core_seen placing.now.core.now).body (place_seen place.now) (followed path).state)) (λ e. Refused e (collect (followed path).found (sketch (course (placed D.Domain placing.now)) (core_seen placing.now.core.now).body (place_seen place.now) (followed path).state))) }
{
    let mut path = path;
    let mut turns = oldest_first(placing.setting.alloc, &place.turns)?;
    match walk_from(placing, &mut path, place, &mut turns) {
        Ok(()) | Err(Halt::Dead) => Ok(path),
        Err(Halt::Refused(error)) => Err(error),
    }
}
