//! Forms that are said to be multiples of others are so where a path comes there.

ghost use Rattle.std.specs.Prelude.{◌≡◌, ◌+◌, ◌&&◌, None, Some, map, MatchOption, MatchResult};
ghost use Rattle.linear.specs.Forms.{form as form_seen, forms};
ghost use Rattle.facts.specs.Refusals.{IsMemory};
ghost use Rattle.walk_trees.specs.Operators.{small_product as product_of};
ghost use Rattle.obligations.specs.View.{multiple as multiple_seen};
ghost use Rattle.obligations.specs.Walking as walking;
ghost use Rattle.obligations.specs.Walking.{has_form};
ghost use Rattle.path_steps.specs.Leads.{Steps};
ghost use Rattle.path_steps.specs.Refusals.{StopsAtStep};
ghost use Rattle.path_steps.specs.View.{followed};
ghost use Rattle.arrival_claims.specs.Claims as claims;
ghost use Rattle.arrival_claims.specs.Unfit.{AreMade, AreNotMade, ArePut, AreNotPut};
ghost use Rattle.arrival_claims.specs.View.{placed};

use crate::claiming::claim_never;
use crate::dividing::{claim_divided, next_quotient};
use crate::factors::is_replaceable;
use crate::placing::Placing;
use crate::replacing::{PathForm, replaced, replaced_behind};
use domain::Domain;
use facts::WalkError;
use linear::Form;
use obligations::Multiple;
use path_steps::{Goal, Path, Sort, small_product};
use std::alloc::Global;

/// A form and the one that it is a multiple of, in a path's terms, and the forms that were made on the way.
#[derive(Drop)]
pub struct PathMultiple {
    pub made: Vec<Form>,
    pub form: Form,
    pub of: Form,
}

/// Both forms of a multiple in the path's terms.
fn both_replaced<D: Domain>(
    placing: &Placing<'_, D>,
    path: &Path<D>,
    multiple: &Multiple,
) -> Result<PathMultiple, WalkError>
    ensures { MatchResult result (AreMade (walking.on_path (placed D.Domain placing.now) (followed path.now).state) (multiple_seen multiple.now)) (AreNotMade (walking.on_path (placed D.Domain placing.now) (followed path.now).state) (multiple_seen multiple.now)) }
{
    let told = replaced(placing, path, &multiple.form)?;
    let of = replaced_behind(placing, path, &multiple.of, told.made)?;
    Ok(PathMultiple {
        made: of.made,
        form: told.form,
        of: of.form,
    })
}

/// Whether each product of both forms has a form on the path.
fn are_replaceable<D: Domain>(
    placing: &Placing<'_, D>,
    path: &Path<D>,
    multiple: &Multiple,
) -> Result<bool, WalkError>
    ensures { MatchResult result (λ b. b ≡ (has_form (placed D.Domain placing.now) (followed path.now).state (multiple_seen multiple.now).form && has_form (placed D.Domain placing.now) (followed path.now).state (multiple_seen multiple.now).of)) IsMemory }
{
    if !is_replaceable(placing, path, &multiple.form)? {
        return Ok(false);
    }
    is_replaceable(placing, path, &multiple.of)
}

/// Both forms in the path's terms, if each of their products has a form there.
fn put_both<D: Domain>(
    placing: &Placing<'_, D>,
    path: &Path<D>,
    multiple: &Multiple,
) -> Result<Option<PathMultiple>, WalkError>
    ensures { MatchResult result (ArePut (placed D.Domain placing.now) (followed path.now).state (multiple_seen multiple.now)) (AreNotPut (placed D.Domain placing.now) (followed path.now).state (multiple_seen multiple.now)) }
{
    if !are_replaceable(placing, path, multiple)? {
        return Ok(None);
    }
    let told = both_replaced(placing, path, multiple)?;
    Ok(Some(told))
}

/// Claims that a number is at least 0 that is not, of forms that have no product.
fn claim_none<D: Domain>(alloc: Global, path: &mut Path<D>, told: PathForm) -> Result<(), WalkError>
    ensures { MatchResult result (λ _. Steps (followed path.old) (followed path.new) (walking.claim_product (forms told.made.items) (form_seen told.form) None)) (λ e. StopsAtStep (followed path.old) e (walking.claim_product (forms told.made.items) (form_seen told.form) None)) }
{
    let form = Form::constant(alloc, -1);
    let made = told.made;
    path.claim(
        Sort::OfCongruence,
        true,
        false,
        Goal::Divided { made, form },
    )?;
    Ok(())
}

/// The product of a form and the quotient that the entry of the next claim names, where it is and is small.
fn next_multiple<D: Domain>(
    placing: &Placing<'_, D>,
    path: &Path<D>,
    of: &Form,
) -> Result<Option<Form>, WalkError>
    ensures { MatchResult result (λ r. MatchOption r (product_of (form_seen of.now) ((placed D.Domain placing.now).notes.quotient ((followed path.now).state.claims + 1)) ≡ None) (λ f. product_of (form_seen of.now) ((placed D.Domain placing.now).notes.quotient ((followed path.now).state.claims + 1)) ≡ Some (form_seen f))) IsMemory }
{
    let quotient = next_quotient(placing, path)?;
    small_product(placing.setting.alloc, of, &quotient)
}

/// Claims that a form in the path's terms is the product of another one and the quotient that the entry of the next claim names.
fn claim_put<D: Domain>(
    placing: &Placing<'_, D>,
    path: &mut Path<D>,
    told: PathMultiple,
) -> Result<(), WalkError>
    ensures { MatchResult result (λ _. Steps (followed path.old) (followed path.new) (claims.claim_put_multiple (placed D.Domain placing.now) (forms told.made.items) (form_seen told.form) (form_seen told.of))) (λ e. StopsAtStep (followed path.old) e (claims.claim_put_multiple (placed D.Domain placing.now) (forms told.made.items) (form_seen told.form) (form_seen told.of))) }
{
    let PathMultiple { made, form, of } = told;
    let told = PathForm { made, form };
    match next_multiple(placing, path, &of)? {
        Some(product) => claim_divided(placing.setting.alloc, path, false, told, &product),
        None => claim_none(placing.setting.alloc, path, told),
    }
}

/// Claims that one multiple of a place is so where the path comes there.
fn claim_multiple<D: Domain>(
    placing: &Placing<'_, D>,
    path: &mut Path<D>,
    multiple: &Multiple,
) -> Result<(), WalkError>
    ensures { MatchResult result (λ _. Steps (followed path.old) (followed path.new) (walking.claim_multiple (placed D.Domain placing.now) (multiple_seen multiple.now))) (λ e. StopsAtStep (followed path.old) e (walking.claim_multiple (placed D.Domain placing.now) (multiple_seen multiple.now))) }
{
    match put_both(placing, path, multiple)? {
        Some(told) => claim_put(placing, path, told),
        None => claim_never(placing.setting.alloc, path),
    }
}

/// Claims that each of a place's multiples is so where the path comes there, one after another.
pub fn claim_multiples<D: Domain>(
    placing: &Placing<'_, D>,
    path: &mut Path<D>,
    multiples: &[Multiple],
) -> Result<(), WalkError>
    ensures { MatchResult result (λ _. Steps (followed path.old) (followed path.new) (walking.claim_multiples (placed D.Domain placing.now) (map multiple_seen multiples.now))) (λ e. StopsAtStep (followed path.old) e (walking.claim_multiples (placed D.Domain placing.now) (map multiple_seen multiples.now))) }
{
    for multiple in multiples {
        claim_multiple(placing, path, multiple)?;
    }
    Ok(())
}
