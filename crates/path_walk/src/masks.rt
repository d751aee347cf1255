//! The bits that two forms have in common.

ghost use Rattle.std.specs.Prelude.{MatchResult};
ghost use Rattle.linear.specs.Forms.{form as form_seen};
ghost use Rattle.words.specs.View.{kind as kind_seen};
ghost use Rattle.semantics.specs.Word.{BitAnd};
ghost use Rattle.walk_trees.specs.Operators as operators;
ghost use Rattle.path_steps.specs.Leads.{Leads};
ghost use Rattle.path_steps.specs.Refusals.{Stops};
ghost use Rattle.path_steps.specs.View.{followed, setting as seen, value as value_seen};
ghost use Rattle.path_walk.specs.OperatorSteps.{masked_here, met_or_masked};

use crate::cases::{are_from_zero, is_mask};
use crate::meeting::meet;
use crate::powers::above_bits;
use domain::Domain;
use facts::WalkError;
use linear::Form;
use path_steps::{Path, Setting, Value, any_of, element_at, invent, left_by};
use words::Kind;

/// A new symbol: with what the domain tells of bits where both forms are known to be at least 0, else any number of the kind.
fn masked_by<D: Domain>(
    setting: &Setting<D>,
    path: &mut Path<D>,
    kind: Kind,
    left: &Form,
    right: &Form,
) -> Result<Form, WalkError>
    ensures { MatchResult result (λ f. Leads (followed path.old) (followed path.new) (masked_here (seen D.Domain setting.now) (kind_seen kind) (form_seen left.now) (form_seen right.now)) (form_seen f)) (λ e. Stops (followed path.old) e (masked_here (seen D.Domain setting.now) (kind_seen kind) (form_seen left.now) (form_seen right.now))) }
{
    if are_from_zero(setting, path, left, right) {
        let element = element_at(setting, path, left).mask(element_at(setting, path, right));
        return invent(setting, path, element);
    }
    invent(setting, path, any_of(kind))
}

/// A new symbol for `x & y` where it is no remainder. The wide walk knows more of it.
fn met_or_masked<D: Domain>(
    setting: &Setting<D>,
    path: &mut Path<D>,
    kind: Kind,
    left: &Form,
    right: &Form,
) -> Result<Form, WalkError>
    ensures { MatchResult result (λ f. Leads (followed path.old) (followed path.new) (met_or_masked (seen D.Domain setting.now) (kind_seen kind) (form_seen left.now) (form_seen right.now)) (form_seen f)) (λ e. Stops (followed path.old) e (met_or_masked (seen D.Domain setting.now) (kind_seen kind) (form_seen left.now) (form_seen right.now))) }
{
    if setting.is_wide {
        return meet(setting, path, kind, left, right);
    }
    masked_by(setting, path, kind, left, right)
}

/// The lowest bits are a remainder.
fn masked<D: Domain>(
    setting: &Setting<D>,
    path: &mut Path<D>,
    kind: Kind,
    left: &Form,
    right: &Form,
) -> Result<Form, WalkError>
    ensures { MatchResult result (λ f. Leads (followed path.old) (followed path.new) (operators.masked (seen D.Domain setting.now) (operators.is_mask setting.now.is_wide (kind_seen kind) (form_seen right.now)) (kind_seen kind) (form_seen left.now) (form_seen right.now)) (form_seen f)) (λ e. Stops (followed path.old) e (operators.masked (seen D.Domain setting.now) (operators.is_mask setting.now.is_wide (kind_seen kind) (form_seen right.now)) (kind_seen kind) (form_seen left.now) (form_seen right.now))) }
{
    if is_mask(setting.is_wide, kind, right) {
        let number = above_bits(right.constant_part());
        return left_by(setting, path, kind, left, number);
    }
    met_or_masked(setting, path, kind, left, right)
}

/// The value of the bits that two operands both have.
pub fn mask<D: Domain>(
    setting: &Setting<D>,
    path: &mut Path<D>,
    kind: Kind,
    left: &Form,
    right: &Form,
) -> Result<Value, WalkError>
    ensures { MatchResult result (λ v. Leads (followed path.old) (followed path.new) (operators.operate (seen D.Domain setting.now) BitAnd (kind_seen kind) (form_seen left.now) (form_seen right.now)) (value_seen v)) (λ e. Stops (followed path.old) e (operators.operate (seen D.Domain setting.now) BitAnd (kind_seen kind) (form_seen left.now) (form_seen right.now))) }
{
    let form = masked(setting, path, kind, left, right)?;
    Ok(Value { kind, form })
}
