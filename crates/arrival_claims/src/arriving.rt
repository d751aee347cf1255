//! A path comes to a place, or to its end.

ghost use Rattle.std.specs.Prelude.{◌≡◌, map, MatchResult};
ghost use Rattle.linear.specs.Forms.{forms};
ghost use Rattle.obligations.specs.Roots as roots;
ghost use Rattle.obligations.specs.Walking as walking;
ghost use Rattle.path_steps.specs.Leads.{Steps};
ghost use Rattle.path_steps.specs.Refusals.{StopsAtStep};
ghost use Rattle.path_steps.specs.View.{followed, stop as stop_seen, turns as turns_seen};
ghost use Rattle.obligations.specs.View.{congruence as congruence_seen, multiple as multiple_seen};
ghost use Rattle.arrival_claims.specs.Claims as claims;
ghost use Rattle.arrival_claims.specs.Claims.{Comes, IsRefusedAt};
ghost use Rattle.arrival_claims.specs.View.{placed};

use crate::claiming::claim_facts;
use crate::dividing::claim_congruences;
use crate::lookups::{congruences_of, facts_of, multiples_of};
use crate::multiplying::claim_multiples;
use crate::placing::Placing;
use crate::slots::are_slots;
use domain::Domain;
use facts::WalkError;
use linear::Form;
use obligations::{Congruence, Multiple};
use path_steps::{Goal, Path, Sort, Stop};
use std::alloc::Global;

#[tactic(auto, unfolding(path_steps::specs::Paths::collect))]
/// Claims that -1 is at least 0, which is shown only where no item comes there.
pub fn refuse<D: Domain>(alloc: Global, path: &mut Path<D>) -> Result<(), WalkError>
    ensures { MatchResult result (λ _. Comes (followed path.old) walking.refused (followed path.new).found) (IsRefusedAt (followed path.old) walking.refused) }
{
    let form = Form::constant(alloc, -1);
    path.claim(Sort::OfFact, true, false, Goal::AtLeastZero(form))?;
    Ok(())
}

#[tactic(auto, unfolding(crate::specs::View::placed, path_steps::specs::View::followed))]
/// The path's variables have their kinds, and the parameters that nothing assigns have their arguments.
fn has_slots<D: Domain>(placing: &Placing<'_, D>, path: &Path<D>) -> bool
    ensures { result ≡ roots.are_slots (placed D.Domain placing.now).kernel 0 (roots.kinds (placed D.Domain placing.now).kernel) (followed path.now).state.variables }
{
    are_slots(placing.core, path.variables.as_slice())
}

#[tactic(auto, unfolding(crate::specs::View::placed))]
/// The facts of a place; of the entry there are none.
fn facts_at<'a, D: Domain>(
    placing: &Placing<'a, D>,
    anchor: Option<u32>,
    head: Option<u32>,
) -> &'a [Form]
    ensures { forms result.now ≡ roots.facts_at (placed D.Domain placing.now).notes anchor head }
{
    match (anchor, head) {
        (None, None) => &[],
        _ => facts_of(placing.notes.places.as_slice(), anchor, head),
    }
}

#[tactic(auto, unfolding(crate::specs::View::placed))]
/// The congruences of a place; of the entry there are none.
fn congruences_at<'a, D: Domain>(
    placing: &Placing<'a, D>,
    anchor: Option<u32>,
    head: Option<u32>,
) -> &'a [Congruence]
    ensures { map congruence_seen result.now ≡ roots.congruences_at (placed D.Domain placing.now).notes anchor head }
{
    match (anchor, head) {
        (None, None) => &[],
        _ => congruences_of(placing.notes.places.as_slice(), anchor, head),
    }
}

#[tactic(auto, unfolding(crate::specs::View::placed))]
/// The multiples of a place, in the wide walk; of the entry there are none.
fn multiples_at<'a, D: Domain>(
    placing: &Placing<'a, D>,
    anchor: Option<u32>,
    head: Option<u32>,
) -> &'a [Multiple]
    ensures { map multiple_seen result.now ≡ roots.multiples_at (placed D.Domain placing.now).notes anchor head }
{
    if !placing.notes.is_wide {
        return &[];
    }
    match (anchor, head) {
        (None, None) => &[],
        _ => multiples_of(placing.notes.places.as_slice(), anchor, head),
    }
}

/// Claims the facts, then the congruences, then the multiples that are said of a place by its anchor and its loop.
fn claim_lines<D: Domain>(
    placing: &Placing<'_, D>,
    path: &mut Path<D>,
    anchor: Option<u32>,
    head: Option<u32>,
) -> Result<(), WalkError>
    ensures { MatchResult result (λ _. Steps (followed path.old) (followed path.new) (walking.claim_lines (placed D.Domain placing.now) anchor head)) (λ e. StopsAtStep (followed path.old) e (walking.claim_lines (placed D.Domain placing.now) anchor head)) }
{
    claim_facts(placing, path, facts_at(placing, anchor, head))?;
    claim_congruences(placing, path, congruences_at(placing, anchor, head))?;
    claim_multiples(placing, path, multiples_at(placing, anchor, head))
}

/// Claims what is said of the place that a path reaches, and notes the end; a path whose variables are not of their kinds is refused.
fn arrive_at<D: Domain>(
    placing: &Placing<'_, D>,
    path: &mut Path<D>,
    anchor: Option<u32>,
    head: Option<u32>,
    stop: Stop,
    turns: Option<Vec<u32>>,
) -> Result<(), WalkError>
    ensures { MatchResult result (λ _. Comes (followed path.old) (walking.arrive_at (placed D.Domain placing.now) anchor head (stop_seen stop) (turns_seen turns)) (followed path.new).found) (IsRefusedAt (followed path.old) (walking.arrive_at (placed D.Domain placing.now) anchor head (stop_seen stop) (turns_seen turns))) }
{
    if !has_slots(placing, path) {
        return refuse(placing.setting.alloc, path);
    }
    claim_lines(placing, path, anchor, head)?;
    path.arrive(placing.setting.alloc, stop, turns)?;
    Ok(())
}

#[tactic(auto, unfolding(path_steps::specs::Paths::collect))]
/// A path comes to an item's end.
fn end<D: Domain>(
    alloc: Global,
    path: &mut Path<D>,
    turns: Option<Vec<u32>>,
) -> Result<(), WalkError>
    ensures { MatchResult result (λ _. Comes (followed path.old) (claims.end_at (turns_seen turns)) (followed path.new).found) (IsRefusedAt (followed path.old) (claims.end_at (turns_seen turns))) }
{
    path.arrive(alloc, Stop::End, turns)?;
    Ok(())
}

/// Claims what is said of the place or the end at which a path stops, and notes the end.
pub fn stop<D: Domain>(
    placing: &Placing<'_, D>,
    path: &mut Path<D>,
    stop: Stop,
    turns: Option<Vec<u32>>,
) -> Result<(), WalkError>
    ensures { MatchResult result (λ _. Comes (followed path.old) (walking.stops (placed D.Domain placing.now) (stop_seen stop) (turns_seen turns)) (followed path.new).found) (IsRefusedAt (followed path.old) (walking.stops (placed D.Domain placing.now) (stop_seen stop) (turns_seen turns))) }
{
    match stop {
        Stop::Barrier(number) => { arrive_at(placing, path, Some(number), None, stop, turns) }
        Stop::Head { number, again } => {
            let stop = Stop::Head { number, again };
            arrive_at(placing, path, placing.anchor, Some(number), stop, turns)
        }
        Stop::End => end(placing.setting.alloc, path, turns),
    }
}
