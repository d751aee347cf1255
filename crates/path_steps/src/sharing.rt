//! Quotients by forms that are no numbers.

ghost use Rattle.std.specs.Prelude.{◌≡◌, Some, pos, true, IfOk, IfErr, MatchResult};
ghost use Rattle.linear.specs.Exact.{fits};
ghost use Rattle.linear.specs.Forms.{form as form_seen};
ghost use Rattle.words.specs.View.{kind as kind_seen};
ghost use Rattle.facts.specs.Elements as elements;
ghost use Rattle.facts.specs.Refusals.{IsMemory, IsUnfit};
ghost use Rattle.facts.specs.Symbols.{constant, minus};
ghost use Rattle.walk_trees.specs.Trees.{Tree, Know};
ghost use Rattle.walk_trees.specs.Walks as walks;
ghost use Rattle.walk_trees.specs.Operators as operators;
ghost use Rattle.walk_trees.specs.SharedQuotients as sharing;
ghost use Rattle.path_steps.specs.Paths.{collect};
ghost use Rattle.path_steps.specs.Sharing.{found_or_made, made};
ghost use Rattle.path_steps.specs.Leads.{Leads};
ghost use Rattle.path_steps.specs.Refusals.{Refused, Stops};
ghost use Rattle.facts.specs.View.{maybe_form};
ghost use Rattle.path_steps.specs.View.{followed, maybe_shared, setting as seen, shared_seen};

use crate::bounds::bounds_of;
use crate::dividing::named_by;
use crate::exact::small_product;
use crate::held::{element_at, settles};
use crate::path::{Path, Shared};
use crate::ranges::{count_of_news, invent};
use crate::setting::Setting;
use crate::shares::{found_quotient, keep};
use crate::tests::{copied, difference, is_number};
use domain::Domain;
use facts::{Side, WalkError, less_number, once_new};
use linear::Form;
use std::alloc::Global;
use words::Kind;

/// A lower end is above 0.
fn is_above_zero(low: Option<i64>) -> bool
    ensures { result ≡ elements.is_above_zero low }
{
    match low {
        Some(low) => 0 < low,
        None => false,
    }
}

/// In the wide walk a quotient by a form is kept: of a dividend of at least 0 by a divisor of at least 1.
fn is_shared<D: Domain>(
    setting: &Setting<D>,
    path: &Path<D>,
    kind: Kind,
    dividend: &Form,
    divisor: &Form,
) -> bool
    ensures { result ≡ sharing.is_shared (seen D.Domain setting.now) (followed path.now).state (kind_seen kind) (form_seen dividend.now) (form_seen divisor.now) }
{
    setting.is_wide
        && (!is_number(divisor)
            && (kind == Kind::Uint
                || (settles(setting, path, dividend)
                    && is_above_zero(bounds_of(setting, path, divisor).low))))
}

/// At most the greatest number of a kind.
fn within<D: Domain>(kind: Kind, element: D) -> D
    ensures { result ≡ D.at_most_of element (walks.greatest (kind_seen kind)) }
{
    match kind {
        Kind::Int => element.at_most(2_147_483_647),
        Kind::Uint | Kind::Size => element.at_most(4_294_967_295),
    }
}

/// The domain's element of a quotient that is rounded down.
fn quotient_element<D: Domain>(
    setting: &Setting<D>,
    path: &Path<D>,
    kind: Kind,
    dividend: &Form,
    divisor: &Form,
) -> D
    ensures { result ≡ sharing.quotient_element (seen D.Domain setting.now) (followed path.now).state (kind_seen kind) (form_seen dividend.now) (form_seen divisor.now) }
{
    let element = element_at(setting, path, dividend).div(element_at(setting, path, divisor));
    within(kind, element.at_least(0))
}

/// The domain's element of the remainder of a quotient that is rounded down.
fn left_element<D: Domain>(
    setting: &Setting<D>,
    path: &Path<D>,
    dividend: &Form,
    divisor: &Form,
) -> D
    ensures { result ≡ sharing.left_element (seen D.Domain setting.now) (followed path.now).state (form_seen dividend.now) (form_seen divisor.now) }
{
    let element = element_at(setting, path, dividend).rem(element_at(setting, path, divisor));
    element.at_least(0)
}

/// The product of the next new symbol and a divisor.
fn next_product<D: Domain>(
    setting: &Setting<D>,
    path: &Path<D>,
    divisor: &Form,
) -> Result<Option<Form>, WalkError>
    ensures { MatchResult result (λ h. maybe_form h ≡ operators.small_product (walks.newest (followed path.now).state) (form_seen divisor.now)) IsMemory }
{
    let newest = once_new(setting.alloc, Side::First, count_of_news(path))?;
    small_product(setting.alloc, &newest, divisor)
}

/// The fact that the remainder is below the divisor.
fn below_divisor(alloc: Global, divisor: &Form, left: &Form) -> Result<Form, WalkError>
    requires { fits (minus (form_seen divisor.now) (constant (pos 1))) ≡ true }
    ensures { MatchResult result (λ f. form_seen f ≡ sharing.below_divisor (form_seen divisor.now) (form_seen left.now)) (λ e. IsUnfit e (sharing.below_divisor (form_seen divisor.now) (form_seen left.now))) }
{
    let less = less_number(alloc, divisor, 1)?;
    difference(alloc, &less, left)
}

/// Adds the facts that what is left is from 0 up to below the divisor, and gives it.
fn know_parts<D: Copy>(
    alloc: Global,
    path: &mut Path<D>,
    dividend: &Form,
    divisor: &Form,
    product: &Form,
) -> Result<Form, WalkError>
    requires { fits (minus (form_seen divisor.now) (constant (pos 1))) ≡ true }
    ensures left { IfOk result (λ f. form_seen f ≡ minus (form_seen dividend.now) (form_seen product.now)) }
    ensures leads { IfOk result (λ _. (rest : Tree D) → collect (followed path.old).found (Know (minus (form_seen dividend.now) (form_seen product.now)) (Know (sharing.below_divisor (form_seen divisor.now) (minus (form_seen dividend.now) (form_seen product.now))) rest)) ≡ collect (followed path.new).found rest) }
    ensures state { IfOk result (λ _. (followed path.new).state ≡ (followed path.old).state) }
    ensures refused { IfErr result (λ e. (rest : Tree D) → Refused e (collect (followed path.old).found (Know (minus (form_seen dividend.now) (form_seen product.now)) (Know (sharing.below_divisor (form_seen divisor.now) (minus (form_seen dividend.now) (form_seen product.now))) rest)))) }
{
    let left = difference(alloc, dividend, product)?;
    path.know(copied(alloc, &left)?)?;
    let below = below_divisor(alloc, divisor, &left)?;
    path.know(below)?;
    Ok(left)
}

/// A quotient and what it leaves, as new symbols, by the product of quotient and divisor.
fn make<D: Domain>(
    setting: &Setting<D>,
    path: &mut Path<D>,
    kind: Kind,
    dividend: &Form,
    divisor: &Form,
    product: Form,
) -> Result<Shared, WalkError>
    requires { fits (minus (form_seen divisor.now) (constant (pos 1))) ≡ true }
    ensures { MatchResult result (λ q. Leads (followed path.old) (followed path.new) (sharing.make (seen D.Domain setting.now) (kind_seen kind) (form_seen dividend.now) (form_seen divisor.now) (form_seen product)) (Some (shared_seen q))) (λ e. Stops (followed path.old) e (sharing.make (seen D.Domain setting.now) (kind_seen kind) (form_seen dividend.now) (form_seen divisor.now) (form_seen product))) }
{
    let of_quotient = quotient_element(setting, path, kind, dividend, divisor);
    let of_left = left_element(setting, path, dividend, divisor);
    let quotient = invent(setting, path, of_quotient)?;
    let left = know_parts(setting.alloc, path, dividend, divisor, &product)?;
    let name = named_by(setting, path, of_left, &left)?;
    keep(setting.alloc, path, dividend, divisor, &quotient, &name)
}

/// A new quotient, where the product is.
fn made<D: Domain>(
    setting: &Setting<D>,
    path: &mut Path<D>,
    kind: Kind,
    dividend: &Form,
    divisor: &Form,
) -> Result<Option<Shared>, WalkError>
    requires { fits (minus (form_seen divisor.now) (constant (pos 1))) ≡ true }
    ensures { MatchResult result (λ q. Leads (followed path.old) (followed path.new) (made (seen D.Domain setting.now) (kind_seen kind) (form_seen dividend.now) (form_seen divisor.now)) (maybe_shared q)) (λ e. Stops (followed path.old) e (made (seen D.Domain setting.now) (kind_seen kind) (form_seen dividend.now) (form_seen divisor.now))) }
{
    match next_product(setting, path, divisor)? {
        Some(product) => {
            let shared = make(setting, path, kind, dividend, divisor, product)?;
            Ok(Some(shared))
        }
        None => Ok(None),
    }
}

/// An earlier quotient of the same forms, else a new one.
fn found_or_made<D: Domain>(
    setting: &Setting<D>,
    path: &mut Path<D>,
    kind: Kind,
    dividend: &Form,
    divisor: &Form,
) -> Result<Option<Shared>, WalkError>
    requires { fits (minus (form_seen divisor.now) (constant (pos 1))) ≡ true }
    ensures { MatchResult result (λ q. Leads (followed path.old) (followed path.new) (found_or_made (seen D.Domain setting.now) (kind_seen kind) (form_seen dividend.now) (form_seen divisor.now)) (maybe_shared q)) (λ e. Stops (followed path.old) e (found_or_made (seen D.Domain setting.now) (kind_seen kind) (form_seen dividend.now) (form_seen divisor.now))) }
{
    match found_quotient(setting.alloc, path, dividend, divisor)? {
        Some(shared) => Ok(Some(shared)),
        None => made(setting, path, kind, dividend, divisor),
    }
}

/// What there is of a quotient by a form. That the divisor's claim was of `i64` is known.
pub fn share<D: Domain>(
    setting: &Setting<D>,
    path: &mut Path<D>,
    kind: Kind,
    dividend: &Form,
    divisor: &Form,
) -> Result<Option<Shared>, WalkError>
    requires { fits (minus (form_seen divisor.now) (constant (pos 1))) ≡ true }
    ensures { MatchResult result (λ q. Leads (followed path.old) (followed path.new) (operators.share (seen D.Domain setting.now) (kind_seen kind) (form_seen dividend.now) (form_seen divisor.now)) (maybe_shared q)) (λ e. Stops (followed path.old) e (operators.share (seen D.Domain setting.now) (kind_seen kind) (form_seen dividend.now) (form_seen divisor.now))) }
{
    if is_shared(setting, path, kind, dividend, divisor) {
        return found_or_made(setting, path, kind, dividend, divisor);
    }
    Ok(None)
}
