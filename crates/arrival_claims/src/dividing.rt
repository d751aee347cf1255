//! Congruences that are said of a place hold where a path comes there.

ghost use Rattle.std.specs.Prelude.{◌≡◌, ◌≤◌, ◌+◌, ◌++◌, [], ◌∷◌, pos, true, false, map, MatchResult};
ghost use Rattle.linear.specs.Exact.{multiple};
ghost use Rattle.linear.specs.Forms.{form as form_seen, forms};
ghost use Rattle.linear.specs.Terms.{terms as terms_seen};
ghost use Rattle.facts.specs.Refusals.{IsMemory, IsUnfit};
ghost use Rattle.facts.specs.Symbols.{minus};
ghost use Rattle.obligations.specs.Walking as walking;
ghost use Rattle.path_steps.specs.Leads.{Steps};
ghost use Rattle.path_steps.specs.Refusals.{StopsAtStep};
ghost use Rattle.path_steps.specs.View.{followed};
ghost use Rattle.obligations.specs.View.{congruence as congruence_seen};
ghost use Rattle.arrival_claims.specs.Claims as claims;
ghost use Rattle.arrival_claims.specs.View.{placed};

use crate::claiming::claim_never;
use crate::lookups::quotient_of;
use crate::placing::Placing;
use crate::replacing::{PathForm, keep, put};
use crate::symbols::copied;
use domain::Domain;
use facts::WalkError;
use linear::{Form, Term};
use obligations::Congruence;
use path_steps::{Goal, Path, Sort};
use std::alloc::Global;

/// A number divides another; 0 divides 0 alone.
fn divides(modulus: u64, number: i64) -> bool
    ensures { result ≡ walking.divides modulus number }
{
    let size = number.unsigned_abs();
    if modulus == 0 {
        size == 0
    } else {
        size % modulus == 0
    }
}

/// The modulus divides the coefficient of each term.
fn divides_terms(modulus: u64, terms: &[Term]) -> bool
    ensures { result ≡ walking.divides_terms modulus (terms_seen terms.now) }
{
    for term in terms {
        if !divides(modulus, term.coefficient) {
            return false;
        }
    }
    true
}

/// The modulus divides each coefficient and the constant of a form.
fn divides_form(modulus: u64, form: &Form) -> bool
    ensures { result ≡ walking.divides_form modulus (form_seen form.now) }
{
    divides_terms(modulus, form.terms()) && divides(modulus, form.constant_part())
}

/// One form less another.
pub fn difference(alloc: Global, left: &Form, right: &Form) -> Result<Form, WalkError>
    ensures { MatchResult result (λ f. form_seen f ≡ minus (form_seen left.now) (form_seen right.now)) (λ e. IsUnfit e (minus (form_seen left.now) (form_seen right.now))) }
{
    let form = left.sub(alloc, right)?;
    Ok(form)
}

/// The forms that were made, with the product.
pub fn with_product(alloc: Global, made: Vec<Form>, product: &Form) -> Result<Vec<Form>, WalkError>
    ensures { MatchResult result (λ v. forms v.items ≡ forms made.items ++ form_seen product.now ∷ []) IsMemory }
{
    let mut made = made;
    let copy = copied(alloc, product)?;
    keep(&mut made, copy)?;
    Ok(made)
}

/// The form is at least the product.
fn claim_over<D: Domain>(
    alloc: Global,
    path: &mut Path<D>,
    settled: bool,
    made: Vec<Form>,
    form: &Form,
    product: &Form,
) -> Result<(), WalkError>
    ensures { MatchResult result (λ _. Steps (followed path.old) (followed path.new) (claims.claim_over settled (forms made.items) (form_seen form.now) (form_seen product.now))) (λ e. StopsAtStep (followed path.old) e (claims.claim_over settled (forms made.items) (form_seen form.now) (form_seen product.now))) }
{
    let over = difference(alloc, form, product)?;
    let made = with_product(alloc, made, product)?;
    path.claim(
        Sort::OfCongruence,
        true,
        settled,
        Goal::Divided { made, form: over },
    )?;
    Ok(())
}

/// The product is at least the form.
fn claim_under<D: Domain>(
    alloc: Global,
    path: &mut Path<D>,
    settled: bool,
    form: &Form,
    product: &Form,
) -> Result<(), WalkError>
    ensures { MatchResult result (λ _. Steps (followed path.old) (followed path.new) (claims.claim_under settled (form_seen form.now) (form_seen product.now))) (λ e. StopsAtStep (followed path.old) e (claims.claim_under settled (form_seen form.now) (form_seen product.now))) }
{
    let under = difference(alloc, product, form)?;
    let made = Vec::new(alloc);
    path.claim(
        Sort::OfCongruence,
        true,
        settled,
        Goal::Divided { made, form: under },
    )?;
    Ok(())
}

/// Claims that a form is at least the product with the named quotient, and that it is at most that.
pub fn claim_divided<D: Domain>(
    alloc: Global,
    path: &mut Path<D>,
    settled: bool,
    told: PathForm,
    product: &Form,
) -> Result<(), WalkError>
    ensures { MatchResult result (λ _. Steps (followed path.old) (followed path.new) (claims.claim_divided settled (forms told.made.items) (form_seen told.form) (form_seen product.now))) (λ e. StopsAtStep (followed path.old) e (claims.claim_divided settled (forms told.made.items) (form_seen told.form) (form_seen product.now))) }
{
    let PathForm { made, form } = told;
    claim_over(alloc, path, settled, made, &form, product)?;
    claim_under(alloc, path, settled, &form, product)
}

/// Whether a form has neither terms nor a constant.
fn is_nothing(form: &Form) -> bool
    ensures nothing { result ≡ true → ((form_seen form.now).terms ≡ []) × ((form_seen form.now).constant ≡ pos 0) }
    ensures other { result ≡ false → (form_seen form.now).terms ≡ [] → (form_seen form.now).constant ≡ pos 0 → ⊥ }
{
    form.terms().is_empty() && form.constant_part() == 0
}

/// A form so many times.
fn product_of(alloc: Global, number: i64, form: &Form) -> Result<Form, WalkError>
    ensures { MatchResult result (λ f. form_seen f ≡ multiple number (form_seen form.now)) (λ e. IsUnfit e (multiple number (form_seen form.now))) }
{
    let product = form.times(alloc, number)?;
    Ok(product)
}

/// A form times a number of 2^63 or more, as twice its half; an error for a greater number than 2^63, unless the form is 0.
fn times_many(alloc: Global, number: u64, form: &Form) -> Result<Form, WalkError>
    requires { 9223372036854775808 ≤ number }
    ensures { MatchResult result (λ f. form_seen f ≡ multiple (pos number) (form_seen form.now)) (λ e. IsUnfit e (multiple (pos number) (form_seen form.now))) }
{
    if is_nothing(form) {
        return Ok(Form::constant(alloc, 0));
    }
    if number > 1 << 63 {
        return Err(WalkError::TooLarge);
    }
    let half = product_of(alloc, 1 << 62, form)?;
    let product = product_of(alloc, 2, &half)?;
    Ok(product)
}

/// A form times a number of `u64`; an error where a number of the product is too large for `i64`.
pub fn times(alloc: Global, number: u64, form: &Form) -> Result<Form, WalkError>
    ensures { MatchResult result (λ f. form_seen f ≡ multiple (pos number) (form_seen form.now)) (λ e. IsUnfit e (multiple (pos number) (form_seen form.now))) }
{
    if number >= 1 << 63 {
        return times_many(alloc, number, form);
    }
    product_of(alloc, number as i64, form)
}

#[tactic(auto, unfolding(path_steps::specs::View::followed, crate::specs::View::placed))]
/// The quotient that the entry of the next claim names.
pub fn next_quotient<D: Domain>(placing: &Placing<'_, D>, path: &Path<D>) -> Result<Form, WalkError>
    ensures { MatchResult result (λ f. form_seen f ≡ (placed D.Domain placing.now).notes.quotient ((followed path.now).state.claims + 1)) IsMemory }
{
    let claim = path.count as u64 + 1;
    match quotient_of(placing.notes.quotients.as_slice(), claim) {
        Some(form) => copied(placing.setting.alloc, form),
        None => Ok(Form::constant(placing.setting.alloc, 0)),
    }
}

/// The product of the modulus and the quotient that the entry of the next claim names.
fn next_product<D: Domain>(
    placing: &Placing<'_, D>,
    path: &Path<D>,
    modulus: u64,
) -> Result<Form, WalkError>
    ensures { MatchResult result (λ f. form_seen f ≡ multiple (pos modulus) ((placed D.Domain placing.now).notes.quotient ((followed path.now).state.claims + 1))) (λ e. IsUnfit e (multiple (pos modulus) ((placed D.Domain placing.now).notes.quotient ((followed path.now).state.claims + 1)))) }
{
    let quotient = next_quotient(placing, path)?;
    times(placing.setting.alloc, modulus, &quotient)
}

/// Claims that a form in the path's terms is the product of a modulus and the quotient that the entry of the next claim names.
fn claim_put<D: Domain>(
    placing: &Placing<'_, D>,
    path: &mut Path<D>,
    modulus: u64,
    told: PathForm,
) -> Result<(), WalkError>
    ensures { MatchResult result (λ _. Steps (followed path.old) (followed path.new) (claims.claim_put (placed D.Domain placing.now) modulus (forms told.made.items) (form_seen told.form))) (λ e. StopsAtStep (followed path.old) e (claims.claim_put (placed D.Domain placing.now) modulus (forms told.made.items) (form_seen told.form))) }
{
    let product = next_product(placing, path, modulus)?;
    let settled = divides_form(modulus, &told.form);
    claim_divided(placing.setting.alloc, path, settled, told, &product)
}

/// Claims that one congruence of a place holds where the path comes there.
fn claim_congruence<D: Domain>(
    placing: &Placing<'_, D>,
    path: &mut Path<D>,
    congruence: &Congruence,
) -> Result<(), WalkError>
    ensures { MatchResult result (λ _. Steps (followed path.old) (followed path.new) (walking.claim_congruence (placed D.Domain placing.now) (congruence_seen congruence.now))) (λ e. StopsAtStep (followed path.old) e (walking.claim_congruence (placed D.Domain placing.now) (congruence_seen congruence.now))) }
{
    match put(placing, path, &congruence.form)? {
        Some(told) => claim_put(placing, path, congruence.modulus, told),
        None => claim_never(placing.setting.alloc, path),
    }
}

/// Claims that each of a place's congruences holds where the path comes there, one after another.
pub fn claim_congruences<D: Domain>(
    placing: &Placing<'_, D>,
    path: &mut Path<D>,
    congruences: &[Congruence],
) -> Result<(), WalkError>
    ensures { MatchResult result (λ _. Steps (followed path.old) (followed path.new) (walking.claim_congruences (placed D.Domain placing.now) (map congruence_seen congruences.now))) (λ e. StopsAtStep (followed path.old) e (walking.claim_congruences (placed D.Domain placing.now) (map congruence_seen congruences.now))) }
{
    for congruence in congruences {
        claim_congruence(placing, path, congruence)?;
    }
    Ok(())
}
