//! How an item leaves statements along a path.

ghost use Rattle.std.specs.Prelude.{◌≡◌, MatchResult};
ghost use Rattle.arrivals.specs.Trees.{turned};
ghost use Rattle.facts.specs.Refusals.{IsMemory};
ghost use Rattle.obligations.specs.Walking as walking;
ghost use Rattle.path_steps.specs.View.{followed, stop as stop_seen, turns as turns_seen};
ghost use Rattle.arrival_claims.specs.Claims.{Comes, IsRefusedAt};
ghost use Rattle.arrival_claims.specs.View.{placed};

use arrival_claims::{Placing, stop};
use domain::Domain;
use facts::WalkError;
use path_steps::{Path, Stop};

/// The ways in which statements are left: through, by a `break` or a `continue` of the loop of that number, or the path stopped in them.
#[derive(Clone, Copy)]
pub enum Flow {
    Through,
    Broke(u32),
    Continued(u32),
    Stopped,
}

#[tactic(auto, using(crate::proofs::Turned::turned_more))]
/// The loop of that number turns once more; the oldest stands first.
pub fn turn(turns: &mut Option<Vec<u32>>, number: u32) -> Result<(), WalkError>
    ensures { MatchResult result (λ _. turns_seen turns.new ≡ turned number (turns_seen turns.old)) IsMemory }
{
    if let Some(list) = turns {
        list.push(number)?;
    }
    Ok(())
}

/// Stops the path at a place, with the loops that turned since its anchor.
pub fn stop_here<D: Domain>(
    placing: &Placing<'_, D>,
    path: &mut Path<D>,
    place: Stop,
    turns: &mut Option<Vec<u32>>,
) -> Result<(), WalkError>
    ensures { MatchResult result (λ _. Comes (followed path.old) (walking.stops (placed D.Domain placing.now) (stop_seen place) (turns_seen turns.old)) (followed path.new).found) (IsRefusedAt (followed path.old) (walking.stops (placed D.Domain placing.now) (stop_seen place) (turns_seen turns.old))) }
{
    let list = turns.take();
    stop(placing, path, place, list)
}
