//! Ways that are joined: in place of a fork new symbols say how much each of two numbers is more than the other one.

ghost use Rattle.std.specs.Prelude.{◌≡◌, ◌++◌, ◌∷◌, [], pos, negsuc, false, true, cond, IfOk, MatchOption, MatchResult};
ghost use Rattle.linear.specs.Exact.{sum, multiple, fits};
ghost use Rattle.linear.specs.Forms.{form as form_seen};
ghost use Rattle.linear.specs.Sizes.{size};
ghost use Rattle.words.specs.View.{kind as kind_seen};
ghost use Rattle.facts.specs.Refusals.{IsMemory, IsUnfit};
ghost use Rattle.facts.specs.Symbols.{constant, minus, equals};
ghost use Rattle.facts.specs.View.{maybe_form};
ghost use Rattle.walk_trees.specs.Joined as joined;
ghost use Rattle.walk_trees.specs.Operators.{small_product};
ghost use Rattle.walk_trees.specs.Values as values;
ghost use Rattle.path_steps.specs.Joins.{distance, nearer, told, reach};
ghost use Rattle.path_steps.specs.Leads.{Steps, Leads, LeadsTwo};
ghost use Rattle.path_steps.specs.Refusals.{StopsAtStep, Stops, StopsTwo};
ghost use Rattle.path_steps.specs.View.{followed, setting as seen, value as value_seen};

use crate::bounds::bounds_of;
use crate::exact::small_product;
use crate::held::element_at;
use crate::path::{Path, Value};
use crate::ranges::invent;
use crate::setting::Setting;
use crate::tests::{difference, negated};
use domain::Domain;
use facts::{WalkError, less_number};
use linear::Form;
use std::alloc::Global;

/// An upper end leaves room for 1, or for 0.
fn is_open_to(is_apart: bool, high: Option<i64>) -> bool
    ensures { result ≡ joined.is_open_to (reach is_apart) high }
{
    match high {
        Some(high) => { if is_apart { 1 <= high } else { 0 <= high } }
        None => true,
    }
}

/// Some numbers of the elements make a form at least 1, or at least 0.
fn may_reach<D: Domain>(setting: &Setting<D>, path: &Path<D>, is_apart: bool, form: &Form) -> bool
    ensures { result ≡ joined.may_reach (seen D.Domain setting.now) (reach is_apart) (form_seen form.now) (followed path.now).state }
{
    is_open_to(is_apart, bounds_of(setting, path, form).high)
}

/// One form less another, if all numbers of it are of `i64`.
fn fitting_difference(alloc: Global, left: &Form, right: &Form) -> Result<Option<Form>, WalkError>
    ensures { MatchResult result (λ r. MatchOption r (fits (minus (form_seen left.now) (form_seen right.now)) ≡ false) (λ f. form_seen f ≡ minus (form_seen left.now) (form_seen right.now))) IsMemory }
{
    match difference(alloc, left, right) {
        Ok(form) => Ok(Some(form)),
        Err(WalkError::TooLarge) => Ok(None),
        Err(WalkError::TooMany) => Err(WalkError::TooMany),
        Err(WalkError::Memory) => Err(WalkError::Memory),
    }
}

/// The negation of a form, if all numbers of it are of `i64`.
fn fitting_negation(alloc: Global, form: &Form) -> Result<Option<Form>, WalkError>
    ensures { MatchResult result (λ r. MatchOption r (fits (multiple (negsuc 0) (form_seen form.now)) ≡ false) (λ f. form_seen f ≡ multiple (negsuc 0) (form_seen form.now))) IsMemory }
{
    match negated(alloc, form) {
        Ok(form) => Ok(Some(form)),
        Err(WalkError::TooLarge) => Ok(None),
        Err(WalkError::TooMany) => Err(WalkError::TooMany),
        Err(WalkError::Memory) => Err(WalkError::Memory),
    }
}

/// Two differences of two numbers, one the negation of the other.
#[derive(Drop)]
pub struct Differences {
    pub more: Form,
    pub less: Form,
}

/// The differences of two numbers, if the ways on which the first one is more or less than the second one are joined. The second of these
/// ways is that on which it is less, or, where the numbers need not be apart, at most as much.
pub fn joined_differences<D: Domain>(
    setting: &Setting<D>,
    path: &Path<D>,
    are_apart: bool,
    left: &Form,
    right: &Form,
) -> Result<Option<Differences>, WalkError>
    ensures { MatchResult result (λ r. MatchOption r (joined.are_joined (seen D.Domain setting.now) (reach are_apart) (minus (form_seen left.now) (form_seen right.now)) (minus (form_seen right.now) (form_seen left.now)) (followed path.now).state ≡ false) (λ d. (joined.are_joined (seen D.Domain setting.now) (reach are_apart) (minus (form_seen left.now) (form_seen right.now)) (minus (form_seen right.now) (form_seen left.now)) (followed path.now).state ≡ true) × (form_seen d.more ≡ minus (form_seen left.now) (form_seen right.now)) × (form_seen d.less ≡ minus (form_seen right.now) (form_seen left.now)))) IsMemory }
{
    if !setting.joins {
        return Ok(None);
    }
    let Some(more) = fitting_difference(setting.alloc, left, right)? else {
        return Ok(None);
    };
    if !may_reach(setting, path, true, &more) {
        return Ok(None);
    }
    let Some(less) = fitting_difference(setting.alloc, right, left)? else {
        return Ok(None);
    };
    if !may_reach(setting, path, are_apart, &less) {
        return Ok(None);
    }
    Ok(Some(Differences { more, less }))
}

/// The negation of a form, if the ways on which the form is above 0 or below 0 are joined.
pub fn joined_negation<D: Domain>(
    setting: &Setting<D>,
    path: &Path<D>,
    form: &Form,
) -> Result<Option<Form>, WalkError>
    ensures { MatchResult result (λ r. MatchOption r (joined.are_joined (seen D.Domain setting.now) (pos 1) (form_seen form.now) (multiple (negsuc 0) (form_seen form.now)) (followed path.now).state ≡ false) (λ f. (joined.are_joined (seen D.Domain setting.now) (pos 1) (form_seen form.now) (multiple (negsuc 0) (form_seen form.now)) (followed path.now).state ≡ true) × (form_seen f ≡ multiple (negsuc 0) (form_seen form.now)))) IsMemory }
{
    if !setting.joins {
        return Ok(None);
    }
    if !may_reach(setting, path, true, form) {
        return Ok(None);
    }
    let Some(negation) = fitting_negation(setting.alloc, form)? else {
        return Ok(None);
    };
    if !may_reach(setting, path, true, &negation) {
        return Ok(None);
    }
    Ok(Some(negation))
}

/// The domain's element of the greater one of a difference and 0.
fn excess<D: Domain>(setting: &Setting<D>, path: &Path<D>, difference: &Form) -> D
    ensures { result ≡ joined.excess (seen D.Domain setting.now) (followed path.now).state (form_seen difference.now) }
{
    let element = D::of(0).join(element_at(setting, path, difference));
    element.at_least(0)
}

/// The product of two new symbols is at most 0, where it is a form.
fn know_product<D: Copy>(
    alloc: Global,
    path: &mut Path<D>,
    first: &Form,
    second: &Form,
) -> Result<(), WalkError>
    ensures { MatchResult result (λ _. Steps (followed path.old) (followed path.new) (λ st go. joined.know_product (small_product (form_seen first.now) (form_seen second.now)) (go st))) (λ e. StopsAtStep (followed path.old) e (λ st go. joined.know_product (small_product (form_seen first.now) (form_seen second.now)) (go st))) }
{
    if let Some(product) = small_product(alloc, first, second)? {
        let fact = negated(alloc, &product)?;
        path.know(fact)?;
    }
    Ok(())
}

/// Two new symbols: how much the first of two numbers is more than the second one, and the second more than the first. One of them is 0.
fn invent_excesses<D: Domain>(
    setting: &Setting<D>,
    path: &mut Path<D>,
    more: &Form,
    less: &Form,
) -> Result<(Form, Form), WalkError>
    ensures leads { MatchResult result (λ p. LeadsTwo (followed path.old) (followed path.new) (joined.invent_excesses (seen D.Domain setting.now) (form_seen more.now) (form_seen less.now)) (form_seen p.0) (form_seen p.1)) (λ e. StopsTwo (followed path.old) e (joined.invent_excesses (seen D.Domain setting.now) (form_seen more.now) (form_seen less.now))) }
    ensures first { IfOk result (λ p. size (form_seen p.0) ≡ 1) }
    ensures second { IfOk result (λ p. size (form_seen p.1) ≡ 1) }
{
    let above = excess(setting, path, more);
    let first = invent(setting, path, above)?;
    let below = excess(setting, path, less);
    let second = invent(setting, path, below)?;
    know_product(setting.alloc, path, &first, &second)?;
    Ok((first, second))
}

/// The sum of two new symbols.
fn small_sum(alloc: Global, left: &Form, right: &Form) -> Result<Form, WalkError>
    requires left { size (form_seen left.now) ≡ 1 }
    requires right { size (form_seen right.now) ≡ 1 }
    ensures { MatchResult result (λ f. form_seen f ≡ sum (form_seen left.now) (form_seen right.now)) IsMemory }
{
    let form = left.add(alloc, right)?;
    Ok(form)
}

/// The difference of two new symbols.
fn small_difference(alloc: Global, left: &Form, right: &Form) -> Result<Form, WalkError>
    requires left { size (form_seen left.now) ≡ 1 }
    requires right { size (form_seen right.now) ≡ 1 }
    ensures { MatchResult result (λ f. form_seen f ≡ minus (form_seen left.now) (form_seen right.now)) IsMemory }
{
    let form = left.sub(alloc, right)?;
    Ok(form)
}

/// A fact: a form is at least another one.
fn know_difference<D: Copy>(
    alloc: Global,
    path: &mut Path<D>,
    left: &Form,
    right: &Form,
) -> Result<(), WalkError>
    ensures { MatchResult result (λ _. Steps (followed path.old) (followed path.new) (told (minus (form_seen left.now) (form_seen right.now) ∷ []))) (λ e. StopsAtStep (followed path.old) e (told (minus (form_seen left.now) (form_seen right.now) ∷ []))) }
{
    let fact = difference(alloc, left, right)?;
    path.know(fact)?;
    Ok(())
}

/// Two facts: a form is another one.
fn know_equal<D: Copy>(
    alloc: Global,
    path: &mut Path<D>,
    left: &Form,
    right: &Form,
) -> Result<(), WalkError>
    ensures { MatchResult result (λ _. Steps (followed path.old) (followed path.new) (told (equals (form_seen left.now) (form_seen right.now)))) (λ e. StopsAtStep (followed path.old) e (told (equals (form_seen left.now) (form_seen right.now)))) }
{
    know_difference(alloc, path, left, right)?;
    know_difference(alloc, path, right, left)
}

/// A fact: the sum of two new symbols is at least 1.
fn know_apart<D: Copy>(
    alloc: Global,
    path: &mut Path<D>,
    first: &Form,
    second: &Form,
) -> Result<(), WalkError>
    requires first { size (form_seen first.now) ≡ 1 }
    requires second { size (form_seen second.now) ≡ 1 }
    ensures { MatchResult result (λ _. Steps (followed path.old) (followed path.new) (told (minus (sum (form_seen first.now) (form_seen second.now)) (constant (pos 1)) ∷ []))) (λ e. StopsAtStep (followed path.old) e (told (minus (sum (form_seen first.now) (form_seen second.now)) (constant (pos 1)) ∷ []))) }
{
    let both = small_sum(alloc, first, second)?;
    let fact = less_number(alloc, &both, 1)?;
    path.know(fact)?;
    Ok(())
}

/// One way on which two numbers differ, by their differences.
pub fn tell_apart<D: Domain>(
    setting: &Setting<D>,
    path: &mut Path<D>,
    more: &Form,
    less: &Form,
) -> Result<(), WalkError>
    ensures { MatchResult result (λ _. Steps (followed path.old) (followed path.new) (joined.told_apart (seen D.Domain setting.now) (form_seen more.now) (form_seen less.now))) (λ e. StopsAtStep (followed path.old) e (joined.told_apart (seen D.Domain setting.now) (form_seen more.now) (form_seen less.now))) }
{
    let (first, second) = invent_excesses(setting, path, more, less)?;
    let net = small_difference(setting.alloc, &first, &second)?;
    know_equal(setting.alloc, path, more, &net)?;
    know_apart(setting.alloc, path, &first, &second)
}

/// At most an upper end.
fn under_end<D: Domain>(high: Option<i64>, element: D) -> D
    ensures { result ≡ joined.under_end D.Domain high element }
{
    match high {
        Some(high) => element.at_most(high),
        None => element,
    }
}

/// At least a lower end.
fn over_end<D: Domain>(low: Option<i64>, element: D) -> D
    ensures { result ≡ joined.over_end D.Domain low element }
{
    match low {
        Some(low) => element.at_least(low),
        None => element,
    }
}

/// The domain's element of the less of two numbers, or of the greater one.
fn picked_element<D: Domain>(
    setting: &Setting<D>,
    path: &Path<D>,
    is_greater: bool,
    left: &Form,
    right: &Form,
) -> D
    ensures { result ≡ joined.picked_element (seen D.Domain setting.now) is_greater (followed path.now).state (form_seen left.now) (form_seen right.now) }
{
    let one = element_at(setting, path, left);
    let other = element_at(setting, path, right);
    let either = one.join(other);
    if is_greater {
        return over_end(other.bounds().low, over_end(one.bounds().low, either));
    }
    under_end(other.bounds().high, under_end(one.bounds().high, either))
}

/// A new symbol with another one added, or taken away.
fn moved(alloc: Global, is_down: bool, from: &Form, by: &Form) -> Result<Form, WalkError>
    requires from { size (form_seen from.now) ≡ 1 }
    requires by { size (form_seen by.now) ≡ 1 }
    ensures { MatchResult result (λ f. form_seen f ≡ distance is_down (form_seen from.now) (form_seen by.now)) IsMemory }
{
    if is_down {
        return small_difference(alloc, from, by);
    }
    small_sum(alloc, from, by)
}

/// The first of two forms, or the second one.
fn nearer<'a>(is_first: bool, first: &'a Form, second: &'a Form) -> &'a Form
    ensures { form_seen result.now ≡ nearer is_first (form_seen first.now) (form_seen second.now) }
{
    if is_first { first } else { second }
}

/// The less of two numbers of one kind, or the greater one, by their differences: a new symbol, and how far each of the two is from it.
pub fn pick_joined<D: Domain>(
    setting: &Setting<D>,
    path: &mut Path<D>,
    is_greater: bool,
    left: &Value,
    right: &Value,
    apart: &Differences,
) -> Result<Value, WalkError>
    requires more { form_seen apart.now.more ≡ minus (value_seen right.now).form (value_seen left.now).form }
    requires less { form_seen apart.now.less ≡ minus (value_seen left.now).form (value_seen right.now).form }
    ensures { MatchResult result (λ v. Leads (followed path.old) (followed path.new) (joined.pick_joined (seen D.Domain setting.now) is_greater (value_seen left.now).kind (value_seen left.now).form (value_seen right.now).form) (value_seen v)) (λ e. Stops (followed path.old) e (joined.pick_joined (seen D.Domain setting.now) is_greater (value_seen left.now).kind (value_seen left.now).form (value_seen right.now).form)) }
{
    let element = picked_element(setting, path, is_greater, &left.form, &right.form);
    let picked = invent(setting, path, element)?;
    let (first, second) = invent_excesses(setting, path, &apart.more, &apart.less)?;
    let by_first = moved(setting.alloc, is_greater, &picked, &first)?;
    let by_second = moved(setting.alloc, is_greater, &picked, &second)?;
    let near = nearer(is_greater, &left.form, &right.form);
    let far = nearer(!is_greater, &left.form, &right.form);
    know_equal(setting.alloc, path, near, &by_first)?;
    know_equal(setting.alloc, path, far, &by_second)?;
    Ok(Value {
        kind: left.kind,
        form: picked,
    })
}
