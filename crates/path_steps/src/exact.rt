//! Sums, differences, products and multiples: exact, and then in the range of their kind.

ghost use Rattle.std.specs.Prelude.{◌≡◌, pos, negsuc, None, Some, MatchOption, MatchResult};
ghost use Rattle.linear.specs.Exact.{sum, multiple};
ghost use Rattle.linear.specs.Forms.{form as form_seen};
ghost use Rattle.semantics.specs.Word.{Multiply};
ghost use Rattle.words.specs.View.{kind as kind_seen};
ghost use Rattle.facts.specs.Symbols.{minus};
ghost use Rattle.facts.specs.Refusals.{IsMemory, IsUnfit};
ghost use Rattle.walk_trees.specs.Walks as walks;
ghost use Rattle.walk_trees.specs.Operators as operators;
ghost use Rattle.path_steps.specs.Leads.{Leads};
ghost use Rattle.path_steps.specs.Refusals.{Stops, StopsAtForm};
ghost use Rattle.path_steps.specs.View.{followed, setting as seen, value as value_seen};

use crate::held::element_at;
use crate::path::{Path, Value};
use crate::ranges::{bounded, invent, ranged};
use crate::setting::Setting;
use crate::tests::{difference, is_number, negated};
use domain::Domain;
use facts::{WalkError, number_less};
use linear::Form;
use std::alloc::Global;
use words::Kind;

/// The sum of two forms.
fn total(alloc: Global, left: &Form, right: &Form) -> Result<Form, WalkError>
    ensures { MatchResult result (λ f. form_seen f ≡ sum (form_seen left.now) (form_seen right.now)) (λ e. IsUnfit e (sum (form_seen left.now) (form_seen right.now))) }
{
    let form = left.add(alloc, right)?;
    Ok(form)
}

/// The sum of two operands, claimed to be in the range of its kind or, of a `uint`, a new symbol.
pub fn ranged_sum<D: Domain>(
    setting: &Setting<D>,
    path: &mut Path<D>,
    kind: Kind,
    left: &Form,
    right: &Form,
) -> Result<Value, WalkError>
    ensures { MatchResult result (λ v. Leads (followed path.old) (followed path.new) (walks.ranged (seen D.Domain setting.now) (kind_seen kind) (sum (form_seen left.now) (form_seen right.now))) (value_seen v)) (λ e. Stops (followed path.old) e (walks.ranged (seen D.Domain setting.now) (kind_seen kind) (sum (form_seen left.now) (form_seen right.now)))) }
{
    let form = total(setting.alloc, left, right)?;
    ranged(setting, path, kind, form)
}

/// The difference of two operands, claimed to be in the range of its kind or, of a `uint`, a new symbol.
pub fn ranged_difference<D: Domain>(
    setting: &Setting<D>,
    path: &mut Path<D>,
    kind: Kind,
    left: &Form,
    right: &Form,
) -> Result<Value, WalkError>
    ensures { MatchResult result (λ v. Leads (followed path.old) (followed path.new) (walks.ranged (seen D.Domain setting.now) (kind_seen kind) (minus (form_seen left.now) (form_seen right.now))) (value_seen v)) (λ e. Stops (followed path.old) e (walks.ranged (seen D.Domain setting.now) (kind_seen kind) (minus (form_seen left.now) (form_seen right.now)))) }
{
    let form = difference(setting.alloc, left, right)?;
    ranged(setting, path, kind, form)
}

/// The negation of an operand, claimed to be in the range of its kind or, of a `uint`, a new symbol.
pub fn ranged_negation<D: Domain>(
    setting: &Setting<D>,
    path: &mut Path<D>,
    kind: Kind,
    of: &Form,
) -> Result<Value, WalkError>
    ensures { MatchResult result (λ v. Leads (followed path.old) (followed path.new) (walks.ranged (seen D.Domain setting.now) (kind_seen kind) (multiple (negsuc 0) (form_seen of.now))) (value_seen v)) (λ e. Stops (followed path.old) e (walks.ranged (seen D.Domain setting.now) (kind_seen kind) (multiple (negsuc 0) (form_seen of.now)))) }
{
    let form = negated(setting.alloc, of)?;
    ranged(setting, path, kind, form)
}

/// All bits turned round: the greatest number of a `uint` less a form, or -1 less it.
fn complement(alloc: Global, kind: Kind, of: &Form) -> Result<Form, WalkError>
    ensures { MatchResult result (λ f. form_seen f ≡ operators.complement (kind_seen kind) (form_seen of.now)) (λ e. IsUnfit e (operators.complement (kind_seen kind) (form_seen of.now))) }
{
    match kind {
        Kind::Int | Kind::Size => number_less(alloc, -1, of),
        Kind::Uint => number_less(alloc, 4_294_967_295, of),
    }
}

/// The complement of an operand, claimed to be in the range of its kind or, of a `uint`, a new symbol.
pub fn ranged_complement<D: Domain>(
    setting: &Setting<D>,
    path: &mut Path<D>,
    kind: Kind,
    of: &Form,
) -> Result<Value, WalkError>
    ensures { MatchResult result (λ v. Leads (followed path.old) (followed path.new) (walks.ranged (seen D.Domain setting.now) (kind_seen kind) (operators.complement (kind_seen kind) (form_seen of.now))) (value_seen v)) (λ e. Stops (followed path.old) e (walks.ranged (seen D.Domain setting.now) (kind_seen kind) (operators.complement (kind_seen kind) (form_seen of.now)))) }
{
    let form = complement(setting.alloc, kind, of)?;
    ranged(setting, path, kind, form)
}

/// The product of two forms, where it is and has at most 24 terms.
pub fn small_product(alloc: Global, left: &Form, right: &Form) -> Result<Option<Form>, WalkError>
    ensures { MatchResult result (λ r. MatchOption r (operators.small_product (form_seen left.now) (form_seen right.now) ≡ None) (λ f. operators.small_product (form_seen left.now) (form_seen right.now) ≡ Some (form_seen f))) IsMemory }
{
    let Some(form) = left.product(alloc, right)? else {
        return Ok(None);
    };
    if form.terms().len() <= 24 {
        return Ok(Some(form));
    }
    Ok(None)
}

/// The product of two forms with what an element knows of it as facts, else a new symbol of that element.
fn multiplied<D: Domain>(
    setting: &Setting<D>,
    path: &mut Path<D>,
    left: &Form,
    right: &Form,
    element: D,
) -> Result<Form, WalkError>
    ensures { MatchResult result (λ f. Leads (followed path.old) (followed path.new) (operators.multiplied (seen D.Domain setting.now) (operators.small_product (form_seen left.now) (form_seen right.now)) element) (form_seen f)) (λ e. Stops (followed path.old) e (operators.multiplied (seen D.Domain setting.now) (operators.small_product (form_seen left.now) (form_seen right.now)) element)) }
{
    match small_product(setting.alloc, left, right)? {
        Some(form) => bounded(setting, path, form, element),
        None => invent(setting, path, element),
    }
}

/// The product of two forms with terms: in the wide walk the product of the forms where it is small, else a new symbol.
fn product_in<D: Domain>(
    setting: &Setting<D>,
    path: &mut Path<D>,
    left: &Form,
    right: &Form,
    element: D,
) -> Result<Form, WalkError>
    ensures { MatchResult result (λ f. Leads (followed path.old) (followed path.new) (operators.product_in (seen D.Domain setting.now) setting.now.is_wide (form_seen left.now) (form_seen right.now) element) (form_seen f)) (λ e. Stops (followed path.old) e (operators.product_in (seen D.Domain setting.now) setting.now.is_wide (form_seen left.now) (form_seen right.now) element)) }
{
    if setting.is_wide {
        return multiplied(setting, path, left, right, element);
    }
    invent(setting, path, element)
}

/// The product of two forms: exact where one of them is a number, and in the wide walk where it is small, else a new symbol.
fn product<D: Domain>(
    setting: &Setting<D>,
    path: &mut Path<D>,
    left: &Form,
    right: &Form,
) -> Result<Form, WalkError>
    ensures { MatchResult result (λ f. Leads (followed path.old) (followed path.new) (operators.product (seen D.Domain setting.now) (form_seen left.now).terms (form_seen right.now).terms (form_seen left.now) (form_seen right.now)) (form_seen f)) (λ e. StopsAtForm (seen D.Domain setting.now) (followed path.old) e (operators.product (seen D.Domain setting.now) (form_seen left.now).terms (form_seen right.now).terms (form_seen left.now) (form_seen right.now))) }
{
    if is_number(right) {
        let form = left.times(setting.alloc, right.constant_part())?;
        return Ok(form);
    }
    if is_number(left) {
        let form = right.times(setting.alloc, left.constant_part())?;
        return Ok(form);
    }
    let element = element_at(setting, path, left).mul(element_at(setting, path, right));
    product_in(setting, path, left, right, element)
}

/// The product of two operands, claimed to be in the range of its kind or, of a `uint`, a new symbol.
pub fn ranged_product<D: Domain>(
    setting: &Setting<D>,
    path: &mut Path<D>,
    kind: Kind,
    left: &Form,
    right: &Form,
) -> Result<Value, WalkError>
    ensures { MatchResult result (λ v. Leads (followed path.old) (followed path.new) (operators.operate (seen D.Domain setting.now) Multiply (kind_seen kind) (form_seen left.now) (form_seen right.now)) (value_seen v)) (λ e. Stops (followed path.old) e (operators.operate (seen D.Domain setting.now) Multiply (kind_seen kind) (form_seen left.now) (form_seen right.now))) }
{
    let form = product(setting, path, left, right)?;
    ranged(setting, path, kind, form)
}
