//! Facts that are said of a place hold where a path comes there.

ghost use Rattle.std.specs.Prelude.{◌≡◌, MatchResult};
ghost use Rattle.linear.specs.Forms.{form as form_seen, forms};
ghost use Rattle.obligations.specs.Walking as walking;
ghost use Rattle.path_steps.specs.Leads.{Steps};
ghost use Rattle.path_steps.specs.Refusals.{StopsAtStep};
ghost use Rattle.path_steps.specs.View.{followed, sort as sort_seen, setting as seen};
ghost use Rattle.arrival_claims.specs.Claims as claims;
ghost use Rattle.arrival_claims.specs.View.{placed};

use crate::placing::Placing;
use crate::replacing::put;
use domain::Domain;
use facts::WalkError;
use linear::Form;
use path_steps::{Goal, Path, Setting, Sort, settles};
use std::alloc::Global;

/// A claim that a form is at least 0 that is put together of others.
pub fn claim_told<D: Domain>(
    setting: &Setting<D>,
    path: &mut Path<D>,
    sort: Sort,
    made: Vec<Form>,
    form: Form,
) -> Result<(), WalkError>
    ensures { MatchResult result (λ _. Steps (followed path.old) (followed path.new) (claims.claim_told (seen D.Domain setting.now) (sort_seen sort) (forms made.items) (form_seen form))) (λ e. StopsAtStep (followed path.old) e (claims.claim_told (seen D.Domain setting.now) (sort_seen sort) (forms made.items) (form_seen form))) }
{
    let settled = settles(setting, path, &form);
    path.claim(sort, true, settled, Goal::Replaced { made, form })?;
    Ok(())
}

/// Claims that -1 is at least 0, which is shown only where no item comes there.
pub fn claim_never<D: Domain>(alloc: Global, path: &mut Path<D>) -> Result<(), WalkError>
    ensures { MatchResult result (λ _. Steps (followed path.old) (followed path.new) walking.never) (λ e. StopsAtStep (followed path.old) e walking.never) }
{
    let form = Form::constant(alloc, -1);
    path.claim(Sort::OfFact, true, false, Goal::AtLeastZero(form))?;
    Ok(())
}

/// Claims that one fact of a place holds where the path comes there.
fn claim_fact<D: Domain>(
    placing: &Placing<'_, D>,
    path: &mut Path<D>,
    fact: &Form,
) -> Result<(), WalkError>
    ensures { MatchResult result (λ _. Steps (followed path.old) (followed path.new) (walking.claim_fact (placed D.Domain placing.now) (form_seen fact.now))) (λ e. StopsAtStep (followed path.old) e (walking.claim_fact (placed D.Domain placing.now) (form_seen fact.now))) }
{
    match put(placing, path, fact)? {
        Some(told) => claim_told(placing.setting, path, Sort::OfFact, told.made, told.form),
        None => claim_never(placing.setting.alloc, path),
    }
}

/// Claims that each of a place's facts holds where the path comes there, one after another.
pub fn claim_facts<D: Domain>(
    placing: &Placing<'_, D>,
    path: &mut Path<D>,
    facts: &[Form],
) -> Result<(), WalkError>
    ensures { MatchResult result (λ _. Steps (followed path.old) (followed path.new) (walking.claim_facts (placed D.Domain placing.now) (forms facts.now))) (λ e. StopsAtStep (followed path.old) e (walking.claim_facts (placed D.Domain placing.now) (forms facts.now))) }
{
    for fact in facts {
        claim_fact(placing, path, fact)?;
    }
    Ok(())
}
