//! A loop's ranking is as it was said.

ghost use Rattle.std.specs.Prelude.{◌≡◌, MatchResult};
ghost use Rattle.linear.specs.Forms.{form as form_seen, forms};
ghost use Rattle.facts.specs.Refusals.{IsMemory};
ghost use Rattle.walk_trees.specs.Statements.{spot_of};
ghost use Rattle.obligations.specs.Walking as walking;
ghost use Rattle.path_steps.specs.Leads.{Steps};
ghost use Rattle.path_steps.specs.Paths.{with_spot};
ghost use Rattle.path_steps.specs.Refusals.{StopsAtStep};
ghost use Rattle.path_steps.specs.View.{followed};
ghost use Rattle.arrival_claims.specs.Bounds.{bound};
ghost use Rattle.arrival_claims.specs.Claims as claims;
ghost use Rattle.arrival_claims.specs.Unfit.{IsPut, IsNotPut};
ghost use Rattle.arrival_claims.specs.View.{placed};

use crate::claiming::{claim_never, claim_told};
use crate::dividing::with_product;
use crate::lookups::ranking_of;
use crate::placing::Placing;
use crate::progress::{Progress, fallen, fallen_by, holds, opens};
use crate::replacing::{PathForm, put};
use crate::symbols::{copied, rank_now};
use core_code::tree::Site;
use domain::Domain;
use facts::WalkError;
use linear::Form;
use loop_bounds::Bound;
use path_steps::{Path, Sort, Spot};
use std::alloc::Global;

/// The walk stands at a statement.
pub fn stand_before<D: Domain>(path: &mut Path<D>, statement: u32)
    ensures { followed path.new ≡ with_spot (followed path.old) (spot_of statement) }
{
    path.stand(Spot {
        statement,
        site: Site { line: 0, column: 0 },
    });
}

#[tactic(auto, unfolding(crate::specs::View::placed))]
/// The form that ranks a loop; 0 where none is said.
fn loop_form<D: Domain>(placing: &Placing<'_, D>, number: u32) -> Result<Form, WalkError>
    ensures { MatchResult result (λ f. form_seen f ≡ ((placed D.Domain placing.now).notes.ranking number).form) IsMemory }
{
    match ranking_of(placing.notes.rankings.as_slice(), number) {
        Some(Bound::Down { form, .. }) => copied(placing.setting.alloc, form),
        Some(Bound::Halving { form, .. }) => copied(placing.setting.alloc, form),
        Some(Bound::Doubling { form, .. }) => copied(placing.setting.alloc, form),
        None => Ok(Form::constant(placing.setting.alloc, 0)),
    }
}

#[tactic(auto, unfolding(crate::specs::View::placed))]
/// The change of a loop's form in each turn; where nothing is said of the loop, a fall from at most 0.
fn progress_of<D: Domain>(placing: &Placing<'_, D>, number: u32) -> Progress
    ensures { bound result ≡ ((placed D.Domain placing.now).notes.ranking number).bound }
{
    match ranking_of(placing.notes.rankings.as_slice(), number) {
        Some(Bound::Down { step, most, .. }) => Progress::Down {
            step: step.size(),
            most: *most,
        },
        Some(Bound::Halving { most, .. }) => Progress::Halving { most: *most },
        Some(Bound::Doubling { least, most, .. }) => Progress::Doubling {
            least: least.number(),
            most: *most,
        },
        None => Progress::Down { step: 1, most: 0 },
    }
}

/// The ranking of a loop, in the terms of the path, if each of its products has a form there.
fn rank_on<D: Domain>(
    placing: &Placing<'_, D>,
    path: &Path<D>,
    number: u32,
) -> Result<Option<PathForm>, WalkError>
    ensures { MatchResult result (IsPut (walking.on_path (placed D.Domain placing.now) (followed path.now).state) ((placed D.Domain placing.now).notes.ranking number).form) (IsNotPut (walking.on_path (placed D.Domain placing.now) (followed path.now).state) ((placed D.Domain placing.now).notes.ranking number).form) }
{
    let form = loop_form(placing, number)?;
    put(placing, path, &form)
}

/// Claims that a ranking in the path's terms is as it is said, where the loop opens.
fn put_opened<D: Domain>(
    placing: &Placing<'_, D>,
    path: &mut Path<D>,
    number: u32,
    told: PathForm,
) -> Result<(), WalkError>
    ensures { MatchResult result (λ _. Steps (followed path.old) (followed path.new) (claims.put_opened (placed D.Domain placing.now) number (forms told.made.items) (form_seen told.form))) (λ e. StopsAtStep (followed path.old) e (claims.put_opened (placed D.Domain placing.now) number (forms told.made.items) (form_seen told.form))) }
{
    let progress = progress_of(placing, number);
    let form = opens(placing.setting.alloc, progress, &told.form)?;
    claim_told(placing.setting, path, Sort::OfRanking, told.made, form)
}

/// Claims that a loop's ranking is as it is said, where the loop opens.
fn claim_opened<D: Domain>(
    placing: &Placing<'_, D>,
    path: &mut Path<D>,
    number: u32,
) -> Result<(), WalkError>
    ensures { MatchResult result (λ _. Steps (followed path.old) (followed path.new) (claims.claim_opened (placed D.Domain placing.now) number)) (λ e. StopsAtStep (followed path.old) e (claims.claim_opened (placed D.Domain placing.now) number)) }
{
    match rank_on(placing, path, number)? {
        Some(told) => put_opened(placing, path, number, told),
        None => claim_never(placing.setting.alloc, path),
    }
}

/// Claims that a ranking in the path's terms has fallen in a turn, by the step at least or to a half at most; or that it has doubled at
/// least.
fn put_fallen<D: Domain>(
    placing: &Placing<'_, D>,
    path: &mut Path<D>,
    number: u32,
    told: PathForm,
) -> Result<(), WalkError>
    ensures { MatchResult result (λ _. Steps (followed path.old) (followed path.new) (claims.put_fallen (placed D.Domain placing.now) number (forms told.made.items) (form_seen told.form))) (λ e. StopsAtStep (followed path.old) e (claims.put_fallen (placed D.Domain placing.now) number (forms told.made.items) (form_seen told.form))) }
{
    let before = rank_now(placing.setting.alloc, path, number as u64)?;
    let progress = progress_of(placing, number);
    let way = fallen_by(placing.setting.alloc, progress, &before, &told.form)?;
    let form = fallen(placing.setting.alloc, progress, &before, &told.form, &way)?;
    let made = with_product(placing.setting.alloc, told.made, &way)?;
    claim_told(placing.setting, path, Sort::OfRanking, made, form)
}

/// Claims that a loop's ranking has fallen in a turn, or doubled.
fn claim_fallen<D: Domain>(
    placing: &Placing<'_, D>,
    path: &mut Path<D>,
    number: u32,
) -> Result<(), WalkError>
    ensures { MatchResult result (λ _. Steps (followed path.old) (followed path.new) (claims.claim_fallen (placed D.Domain placing.now) number)) (λ e. StopsAtStep (followed path.old) e (claims.claim_fallen (placed D.Domain placing.now) number)) }
{
    match rank_on(placing, path, number)? {
        Some(told) => put_fallen(placing, path, number, told),
        None => claim_never(placing.setting.alloc, path),
    }
}

/// Claims that a ranking in the path's terms is as it is said where the loop's test was true, and notes its value there.
fn put_entered<D: Domain>(
    placing: &Placing<'_, D>,
    path: &mut Path<D>,
    number: u32,
    told: PathForm,
) -> Result<(), WalkError>
    ensures { MatchResult result (λ _. Steps (followed path.old) (followed path.new) (claims.put_entered (placed D.Domain placing.now) number (forms told.made.items) (form_seen told.form))) (λ e. StopsAtStep (followed path.old) e (claims.put_entered (placed D.Domain placing.now) number (forms told.made.items) (form_seen told.form))) }
{
    let progress = progress_of(placing, number);
    let form = holds(placing.setting.alloc, progress, &told.form)?;
    claim_told(placing.setting, path, Sort::OfRanking, told.made, form)?;
    path.rank(number, told.form)?;
    Ok(())
}

/// Of a loop whose ranking has no form on the path nothing is shown where its test was true.
fn never_entered<D: Domain>(alloc: Global, path: &mut Path<D>, number: u32) -> Result<(), WalkError>
    ensures { MatchResult result (λ _. Steps (followed path.old) (followed path.new) (claims.never_entered number)) (λ e. StopsAtStep (followed path.old) e (claims.never_entered number)) }
{
    claim_never(alloc, path)?;
    path.rank(number, Form::constant(alloc, 0))?;
    Ok(())
}

/// Claims that a loop's ranking is as it is said where the loop's test was true, and notes its value there.
fn claim_entered<D: Domain>(
    placing: &Placing<'_, D>,
    path: &mut Path<D>,
    number: u32,
) -> Result<(), WalkError>
    ensures { MatchResult result (λ _. Steps (followed path.old) (followed path.new) (claims.claim_entered (placed D.Domain placing.now) number)) (λ e. StopsAtStep (followed path.old) e (claims.claim_entered (placed D.Domain placing.now) number)) }
{
    match rank_on(placing, path, number)? {
        Some(told) => put_entered(placing, path, number, told),
        None => never_entered(placing.setting.alloc, path, number),
    }
}

/// A path comes to a loop's test: the loop opens, or has turned.
pub fn arrive<D: Domain>(
    placing: &Placing<'_, D>,
    path: &mut Path<D>,
    number: u32,
    again: bool,
) -> Result<(), WalkError>
    ensures { MatchResult result (λ _. Steps (followed path.old) (followed path.new) (walking.arrive (placed D.Domain placing.now) number again)) (λ e. StopsAtStep (followed path.old) e (walking.arrive (placed D.Domain placing.now) number again)) }
{
    stand_before(path, number);
    if again {
        claim_fallen(placing, path, number)
    } else {
        claim_opened(placing, path, number)
    }
}

/// Enters a turn of a loop whose test was true: its ranking is claimed to be as it is said there.
pub fn enter<D: Domain>(
    placing: &Placing<'_, D>,
    path: &mut Path<D>,
    number: u32,
) -> Result<(), WalkError>
    ensures { MatchResult result (λ _. Steps (followed path.old) (followed path.new) (walking.enter (placed D.Domain placing.now) number)) (λ e. StopsAtStep (followed path.old) e (walking.enter (placed D.Domain placing.now) number)) }
{
    stand_before(path, number);
    claim_entered(placing, path, number)
}
