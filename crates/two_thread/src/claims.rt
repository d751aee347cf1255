//! Claims by their numbers, and their facts.

ghost use Rattle.std.specs.Prelude.{◌≡◌, ◌++◌, ◌∷◌, [], ◌<◌, MatchResult, true, length};
ghost use Rattle.linear.specs.Exact.{fits};
ghost use Rattle.linear.specs.Forms.{form as form_seen, forms};
ghost use Rattle.facts.specs.Refusals.{IsMemory, IsUnfit};
ghost use Rattle.facts.specs.Symbols as symbols;
ghost use Rattle.walk_trees.specs.Trees.{facts_by};
ghost use Rattle.path_steps.specs.View.{sort as sort_seen, spot as spot_seen, goal_seen};
ghost use Rattle.two_thread.specs.Goals.{manner as manner_seen, owed, denial_by, maybe_form, maybe_forms};
ghost use Rattle.walk_trees.specs.Fitting.{denials_fit};
ghost use Rattle.two_thread.specs.Fitting.{claims_fit};
ghost use Rattle.two_thread.specs.Refusals.{DoNotFit};
ghost use Rattle.two_thread.specs.View.{met_claims, nth_claim, IsPlaceOfClaim};

use crate::manner::Manner;
use crate::met::Met;
use crate::on_path::OnPath;
use facts::{WalkError, copy_all, number_less};
use linear::Form;
use path_steps::{Goal, Sort, Spot};
use std::alloc::Global;

/// The path on which a claim stands, and its number there, by its number among all claims.
pub fn place_of_claim<D: Copy>(met: &Met<D>, i: usize) -> OnPath
    requires { i < length met.now.claims.items }
    ensures { IsPlaceOfClaim met.now i result }
{
    met.claims[i]
}

/// The sort of a claim, by its number.
pub fn sort_of<D: Copy>(met: &Met<D>, i: usize) -> Sort
    requires { i < length met.now.claims.items }
    ensures { sort_seen result ≡ (nth_claim met.now i).demand.sort }
{
    let place = place_of_claim(met, i);
    let tagged = &met.paths[place.path];
    tagged.path.claims[place.item].sort
}

/// The source place that a claim comes from, by its number.
pub fn spot_of_claim<D: Copy>(met: &Met<D>, i: usize) -> Spot
    requires { i < length met.now.claims.items }
    ensures { spot_seen result ≡ (nth_claim met.now i).demand.spot }
{
    let place = place_of_claim(met, i);
    let tagged = &met.paths[place.path];
    tagged.path.claims[place.item].spot
}

/// A claim has to be shown even where a certificate has no entry for it.
pub fn is_needed<D: Copy>(met: &Met<D>, i: usize) -> bool
    requires { i < length met.now.claims.items }
    ensures { result ≡ (nth_claim met.now i).needed }
{
    let place = place_of_claim(met, i);
    let tagged = &met.paths[place.path];
    tagged.path.claims[place.item].needed
}

/// The domain alone shows a claim, given by its number.
pub fn is_settled<D: Copy>(met: &Met<D>, i: usize) -> bool
    requires { i < length met.now.claims.items }
    ensures { result ≡ (nth_claim met.now i).settled }
{
    let place = place_of_claim(met, i);
    let tagged = &met.paths[place.path];
    tagged.path.claims[place.item].settled
}

/// The form that is at least 0 exactly where the given one is not: `-1 - form`.
fn denial(alloc: Global, form: &Form) -> Result<Form, WalkError>
    ensures fits { MatchResult result (λ _. fits (symbols.denial (form_seen form.now)) ≡ true) (λ e. IsUnfit e (symbols.denial (form_seen form.now))) }
    ensures exact { MatchResult result (λ f. form_seen f ≡ symbols.denial (form_seen form.now)) (λ e. IsUnfit e (symbols.denial (form_seen form.now))) }
{
    number_less(alloc, -1, form)
}

/// The form that denies a goal, to be refuted where the goal is shown in this manner; none where the manner does not fit the goal.
fn denial_of(alloc: Global, goal: &Goal, manner: Manner) -> Result<Option<Form>, WalkError>
    ensures { MatchResult result (λ o. maybe_form o ≡ denial_by (manner_seen manner) (goal_seen goal.now)) (DoNotFit (denials_fit (goal_seen goal.now))) }
{
    match (goal, manner) {
        (Goal::AtLeastZero(form), Manner::Plainly)
        | (Goal::Either(form, _), Manner::ByPositive)
        | (Goal::Either(_, form), Manner::ByNegative)
        | (Goal::Replaced { form, .. }, Manner::Plainly)
        | (Goal::Divided { form, .. }, Manner::ByQuotient) => Ok(Some(denial(alloc, form)?)),
        (Goal::AtLeastZero(_) | Goal::Either(_, _), _)
        | (Goal::Replaced { .. } | Goal::Divided { .. }, _) => Ok(None),
    }
}

/// All that denies a goal is of `i64`, or an error.
fn try_goal(alloc: Global, goal: &Goal) -> Result<(), WalkError>
    ensures { MatchResult result (λ _. denials_fit (goal_seen goal.now) ≡ true) (DoNotFit (denials_fit (goal_seen goal.now))) }
{
    match goal {
        Goal::AtLeastZero(form) | Goal::Replaced { form, .. } | Goal::Divided { form, .. } => {
            denial(alloc, form)?;
        }
        Goal::Either(positive, negative) => {
            denial(alloc, positive)?;
            denial(alloc, negative)?;
        }
    }
    Ok(())
}

/// Fails where a number of what denies a claim's goal is too large for `i64`.
fn try_claim<D: Copy>(alloc: Global, met: &Met<D>, i: usize) -> Result<(), WalkError>
    requires { i < length met.now.claims.items }
    ensures { MatchResult result (λ _. denials_fit (nth_claim met.now i).goal ≡ true) (DoNotFit (denials_fit (nth_claim met.now i).goal)) }
{
    let place = place_of_claim(met, i);
    let tagged = &met.paths[place.path];
    let claim = &tagged.path.claims[place.item];
    try_goal(alloc, &claim.goal)
}

/// Fails where a number of what denies some claim is too large for `i64`.
pub fn try_denials<D: Copy>(alloc: Global, met: &Met<D>) -> Result<(), WalkError>
    ensures { MatchResult result (λ _. claims_fit (met_claims met.now) ≡ true) (DoNotFit (claims_fit (met_claims met.now))) }
{
    for i in 0..met.claims.len() {
        try_claim(alloc, met, i)?;
    }
    Ok(())
}

#[tactic(auto, using(facts::proofs::Facts::copies))]
/// Facts of the launch, facts of an item, and one more.
fn gathered(alloc: Global, launch: &[Form], of: &[Form], last: Form) -> Result<Vec<Form>, WalkError>
    ensures { MatchResult result (λ v. forms v.items ≡ (forms launch.now ++ forms of.now) ++ form_seen last ∷ []) IsMemory }
{
    let mut facts = Vec::new(alloc);
    copy_all(alloc, &mut facts, launch)?;
    copy_all(alloc, &mut facts, of)?;
    facts.push(last)?;
    Ok(facts)
}

/// The facts of a claim that is shown in a manner, which are to be impossible; none where the manner does not fit.
pub fn claim_facts<D: Copy>(
    alloc: Global,
    launch: &[Form],
    met: &Met<D>,
    i: usize,
    manner: Manner,
) -> Result<Option<Vec<Form>>, WalkError>
    requires { i < length met.now.claims.items }
    ensures { MatchResult result (λ r. maybe_forms r ≡ facts_by (manner_seen manner) (owed (forms launch.now) (nth_claim met.now i))) (DoNotFit (denials_fit (nth_claim met.now i).goal)) }
{
    let place = place_of_claim(met, i);
    let tagged = &met.paths[place.path];
    let claim = &tagged.path.claims[place.item];
    let Some(last) = denial_of(alloc, &claim.goal, manner)? else {
        return Ok(None);
    };
    let facts = gathered(alloc, launch, &tagged.path.facts[..claim.facts], last)?;
    Ok(Some(facts))
}
