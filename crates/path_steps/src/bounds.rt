//! What the elements tell of a form.

ghost use Rattle.std.specs.Prelude.{◌≡◌, MatchResult};
ghost use Rattle.linear.specs.Forms.{form as form_seen};
ghost use Rattle.words.specs.View.{kind as kind_seen};
ghost use Rattle.facts.specs.Elements as elements;
ghost use Rattle.facts.specs.Refusals.{IsMemory};
ghost use Rattle.walk_trees.specs.Walks as walks;
ghost use Rattle.walk_trees.specs.Bits as bits;
ghost use Rattle.path_steps.specs.View.{followed, setting as seen};

use crate::held::{element_at, settles};
use crate::path::Path;
use crate::setting::Setting;
use crate::tests::copied;
use domain::{Bounds, Domain};
use facts::WalkError;
use linear::Form;
use std::alloc::Global;
use words::Kind;

/// A form's ends on the path.
pub fn bounds_of<D: Domain>(setting: &Setting<D>, path: &Path<D>, form: &Form) -> Bounds
    ensures { result ≡ walks.bounds_of (seen D.Domain setting.now) (followed path.now).state (form_seen form.now) }
{
    element_at(setting, path, form).bounds()
}

/// An upper end is below 0.
fn is_below_zero(high: Option<i64>) -> bool
    ensures { result ≡ elements.is_below_zero high }
{
    match high {
        Some(high) => high < 0,
        None => false,
    }
}

/// No numbers of the elements make a form at least 0.
pub fn is_refuted<D: Domain>(setting: &Setting<D>, path: &Path<D>, form: &Form) -> bool
    ensures { result ≡ walks.is_refuted (seen D.Domain setting.now) (form_seen form.now) (followed path.now).state }
{
    is_below_zero(bounds_of(setting, path, form).high)
}

/// The number that both ends are, or a copy of the form.
fn one_number(alloc: Global, bounds: Bounds, form: &Form) -> Result<Form, WalkError>
    ensures { MatchResult result (λ f. form_seen f ≡ walks.one_number bounds.low bounds.high (form_seen form.now)) IsMemory }
{
    if let (Some(low), Some(high)) = (bounds.low, bounds.high) {
        if low == high {
            return Ok(Form::constant(alloc, low));
        }
    }
    copied(alloc, form)
}

/// A copy of a form; in the wide walk the number itself, where the elements leave one.
pub fn known_form<D: Domain>(
    setting: &Setting<D>,
    path: &Path<D>,
    form: &Form,
) -> Result<Form, WalkError>
    ensures { MatchResult result (λ f. form_seen f ≡ walks.known_form (seen D.Domain setting.now) (followed path.now).state (form_seen form.now)) IsMemory }
{
    if setting.is_wide {
        return one_number(setting.alloc, bounds_of(setting, path, form), form);
    }
    copied(setting.alloc, form)
}

/// A value of this kind is known not to be negative.
pub fn is_natural<D: Domain>(setting: &Setting<D>, path: &Path<D>, kind: Kind, form: &Form) -> bool
    ensures { result ≡ bits.is_natural (seen D.Domain setting.now) (followed path.now).state (kind_seen kind) (form_seen form.now) }
{
    match kind {
        Kind::Int | Kind::Size => settles(setting, path, form),
        Kind::Uint => true,
    }
}
