//! What is left at a place, from its innermost list to its outermost one.

ghost use Rattle.std.specs.Prelude.{◌≡◌, [], MatchResult};
ghost use Rattle.path_steps.specs.View.{followed, turns as turns_seen};
ghost use Rattle.arrival_claims.specs.View.{placed};
ghost use Rattle.path_walk.specs.Rests.{PassesOne, NotOne, PassesLeft, NotLeft, ComesAlong, IsRefusedAlong};
ghost use Rattle.places.specs.View.{left};

use crate::flow::{Flow, stop_here};
use crate::fronts::{walk_front, walk_fronts};
use arrival_claims::Placing;
use domain::Domain;
use facts::WalkError;
use path_steps::{Halt, Path, Stop};
use places::Rest;

/// The statements of a list, or a loop that has turned.
fn walk_rest<D: Domain>(
    placing: &Placing<'_, D>,
    path: &mut Path<D>,
    flow: Flow,
    rest: Rest<'_>,
    turns: &mut Option<Vec<u32>>,
) -> Result<Flow, Halt>
    ensures { MatchResult result (λ f. PassesOne (placed D.Domain placing.now) rest.entry flow (followed path.old) (turns_seen turns.old) f (followed path.new) (turns_seen turns.new)) (λ h. NotOne (placed D.Domain placing.now) rest.entry flow (followed path.old) (turns_seen turns.old) h (followed path.new)) }
{
    match rest {
        Rest::Fresh(body) => walk_fronts(placing, path, flow, body, turns),
        Rest::Turning(statement) => { walk_front(placing, path, flow, true, statement, turns) }
    }
}

/// Walks the lists of statements that are left behind a point, from the innermost list, which is the last one, and says how they are left.
fn walk_rests<D: Domain>(
    placing: &Placing<'_, D>,
    path: &mut Path<D>,
    flow: Flow,
    rests: &[Rest<'_>],
    turns: &mut Option<Vec<u32>>,
) -> Result<Flow, Halt>
    ensures { MatchResult result (λ f. PassesLeft (placed D.Domain placing.now) (left rests.now) flow (followed path.old) (turns_seen turns.old) f (followed path.new) (turns_seen turns.new)) (λ h. NotLeft (placed D.Domain placing.now) (left rests.now) flow (followed path.old) (turns_seen turns.old) h (followed path.new)) }
{
    let mut here = flow;
    let mut at = rests.len();
    while at > 0 {
        at -= 1;
        here = walk_rest(placing, path, here, rests[at], turns)?;
    }
    Ok(here)
}

/// Stops the path at the item's end behind all that was left, unless it was stopped before.
fn end<D: Domain>(
    placing: &Placing<'_, D>,
    path: &mut Path<D>,
    flow: Flow,
    turns: &mut Option<Vec<u32>>,
) -> Result<(), WalkError>
    ensures { MatchResult result (λ _. ComesAlong (placed D.Domain placing.now) [] flow (followed path.old) (turns_seen turns.old) (followed path.new)) (IsRefusedAlong (placed D.Domain placing.now) [] flow (followed path.old) (turns_seen turns.old)) }
{
    match flow {
        Flow::Stopped => Ok(()),
        Flow::Through | Flow::Broke(_) | Flow::Continued(_) => {
            stop_here(placing, path, Stop::End, turns)
        }
    }
}

/// Walks what is left behind a point, to the path's end.
pub fn walk_left<D: Domain>(
    placing: &Placing<'_, D>,
    path: &mut Path<D>,
    flow: Flow,
    rests: &[Rest<'_>],
    turns: &mut Option<Vec<u32>>,
) -> Result<(), Halt>
    ensures { MatchResult result (λ _. ComesAlong (placed D.Domain placing.now) (left rests.now) flow (followed path.old) (turns_seen turns.old) (followed path.new)) (λ h. NotLeft (placed D.Domain placing.now) (left rests.now) flow (followed path.old) (turns_seen turns.old) h (followed path.new)) }
{
    let flow = walk_rests(placing, path, flow, rests, turns)?;
    end(placing, path, flow, turns)?;
    Ok(())
}
