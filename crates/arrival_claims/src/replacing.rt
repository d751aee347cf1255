//! What is said of a place, put in the terms of a path.

ghost use Rattle.std.specs.Prelude.{◌≡◌, ◌++◌, [], ◌∷◌, MatchResult, IfOk};
ghost use Rattle.linear.specs.Exact.{sum, multiple};
ghost use Rattle.linear.specs.Forms.{form as form_seen, forms};
ghost use Rattle.linear.specs.Terms.{term as term_seen};
ghost use Rattle.facts.specs.Refusals.{IsMemory, IsUnfit};
ghost use Rattle.obligations.specs.Replacing.{form_of as form_by, made as made_by};
ghost use Rattle.obligations.specs.Walking.{on_path};
ghost use Rattle.path_steps.specs.View.{followed};
ghost use Rattle.arrival_claims.specs.Unfit.{AreUnfit, IsReplaced, IsAdded, IsPut, IsNotPut};
ghost use Rattle.arrival_claims.specs.View.{placed};

use crate::factors::{form_of, is_replaceable};
use crate::placing::Placing;
use crate::symbols::copied;
use domain::Domain;
use facts::WalkError;
use linear::{Form, Term};
use path_steps::Path;
use std::alloc::Global;

/// A form in a path's terms, and the forms that were made on the way.
#[derive(Drop)]
pub struct PathForm {
    pub made: Vec<Form>,
    pub form: Form,
}

/// A term with its symbol's value on the path in place of the symbol.
fn part<D: Domain>(placing: &Placing<'_, D>, path: &Path<D>, term: Term) -> Result<Form, WalkError>
    ensures { MatchResult result (λ f. form_seen f ≡ multiple (term_seen term).coefficient (form_by (on_path (placed D.Domain placing.now) (followed path.now).state) (term_seen term).symbol)) (λ e. IsUnfit e (multiple (term_seen term).coefficient (form_by (on_path (placed D.Domain placing.now) (followed path.now).state) (term_seen term).symbol))) }
{
    let form = form_of(placing, path, term.symbol)?;
    let part = form.times(placing.setting.alloc, term.coefficient)?;
    Ok(part)
}

#[tactic(auto, using(facts::proofs::Facts::copies))]
/// Keeps a form that was made on the way to a claim.
pub fn keep(made: &mut Vec<Form>, form: Form) -> Result<(), WalkError>
    ensures { MatchResult result (λ _. forms made.new.items ≡ forms made.old.items ++ form_seen form ∷ []) IsMemory }
{
    made.push(form)?;
    Ok(())
}

/// The sum of the form so far and a part; the form so far is kept as one that was made on the way.
fn added(alloc: Global, made: &mut Vec<Form>, so_far: &Form, part: Form) -> Result<Form, WalkError>
    ensures form { IfOk result (λ f. form_seen f ≡ sum (form_seen so_far.now) (form_seen part)) }
    ensures made { MatchResult result (λ _. forms made.new.items ≡ forms made.old.items ++ form_seen part ∷ sum (form_seen so_far.now) (form_seen part) ∷ []) (λ e. IsUnfit e (sum (form_seen so_far.now) (form_seen part))) }
{
    let total = so_far.add(alloc, &part)?;
    let copy = copied(alloc, &total)?;
    keep(made, part)?;
    keep(made, copy)?;
    Ok(total)
}

/// The constant, then the terms in their order; forms that were made before stand in front of those that are made on the way.
pub fn replaced_behind<D: Domain>(
    placing: &Placing<'_, D>,
    path: &Path<D>,
    form: &Form,
    before: Vec<Form>,
) -> Result<PathForm, WalkError>
    ensures { MatchResult result (IsAdded (on_path (placed D.Domain placing.now) (followed path.now).state) (form_seen form.now) (forms before.items)) (λ e. AreUnfit e (forms before.items ++ made_by (on_path (placed D.Domain placing.now) (followed path.now).state) (form_seen form.now))) }
{
    let mut made = before;
    let mut so_far = Form::constant(placing.setting.alloc, form.constant_part());
    for term in form.terms() {
        let part = part(placing, path, *term)?;
        so_far = added(placing.setting.alloc, &mut made, &so_far, part)?;
    }
    Ok(PathForm { made, form: so_far })
}

/// A form in the path's terms, with those that were made on the way.
pub fn replaced<D: Domain>(
    placing: &Placing<'_, D>,
    path: &Path<D>,
    form: &Form,
) -> Result<PathForm, WalkError>
    ensures { MatchResult result (IsReplaced (on_path (placed D.Domain placing.now) (followed path.now).state) (form_seen form.now)) (λ e. AreUnfit e (made_by (on_path (placed D.Domain placing.now) (followed path.now).state) (form_seen form.now))) }
{
    replaced_behind(placing, path, form, Vec::new(placing.setting.alloc))
}

/// A form in the path's terms, if each of its products has a form there.
pub fn put<D: Domain>(
    placing: &Placing<'_, D>,
    path: &Path<D>,
    form: &Form,
) -> Result<Option<PathForm>, WalkError>
    ensures { MatchResult result (IsPut (on_path (placed D.Domain placing.now) (followed path.now).state) (form_seen form.now)) (IsNotPut (on_path (placed D.Domain placing.now) (followed path.now).state) (form_seen form.now)) }
{
    if !is_replaceable(placing, path, form)? {
        return Ok(None);
    }
    let told = replaced(placing, path, form)?;
    Ok(Some(told))
}
