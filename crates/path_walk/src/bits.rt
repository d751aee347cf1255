//! The values of bits that one of two forms has.

ghost use Rattle.std.specs.Prelude.{◌≡◌, true, MatchResult};
ghost use Rattle.linear.specs.Forms.{form as form_seen};
ghost use Rattle.words.specs.View.{kind as kind_seen};
ghost use Rattle.semantics.specs.Word.{BitOr, BitXor};
ghost use Rattle.walk_trees.specs.Operators as operators;
ghost use Rattle.path_steps.specs.Leads.{Leads};
ghost use Rattle.path_steps.specs.Refusals.{Stops};
ghost use Rattle.path_steps.specs.View.{followed, setting as seen, value as value_seen};
ghost use Rattle.path_walk.specs.OperatorSteps.{joined_value, differing_value};

use crate::joining::{differ, join};
use domain::Domain;
use facts::WalkError;
use linear::Form;
use path_steps::{Path, Setting, Value, unknown};
use words::Kind;

/// The bits that at least one of two operands has, in the wide walk.
fn joined_value<D: Domain>(
    setting: &Setting<D>,
    path: &mut Path<D>,
    kind: Kind,
    left: &Form,
    right: &Form,
) -> Result<Value, WalkError>
    requires { setting.now.is_wide ≡ true }
    ensures { MatchResult result (λ v. Leads (followed path.old) (followed path.new) (joined_value (seen D.Domain setting.now) (kind_seen kind) (form_seen left.now) (form_seen right.now)) (value_seen v)) (λ e. Stops (followed path.old) e (joined_value (seen D.Domain setting.now) (kind_seen kind) (form_seen left.now) (form_seen right.now))) }
{
    let form = join(setting, path, kind, left, right)?;
    Ok(Value { kind, form })
}

/// The value of the bits that at least one of two operands has: any number of the kind, but in the wide walk.
pub fn either_bits<D: Domain>(
    setting: &Setting<D>,
    path: &mut Path<D>,
    kind: Kind,
    left: &Form,
    right: &Form,
) -> Result<Value, WalkError>
    ensures { MatchResult result (λ v. Leads (followed path.old) (followed path.new) (operators.operate (seen D.Domain setting.now) BitOr (kind_seen kind) (form_seen left.now) (form_seen right.now)) (value_seen v)) (λ e. Stops (followed path.old) e (operators.operate (seen D.Domain setting.now) BitOr (kind_seen kind) (form_seen left.now) (form_seen right.now))) }
{
    if setting.is_wide {
        return joined_value(setting, path, kind, left, right);
    }
    unknown(setting, path, kind)
}

/// The bits that one of two operands has, in the wide walk.
fn differing_value<D: Domain>(
    setting: &Setting<D>,
    path: &mut Path<D>,
    kind: Kind,
    left: &Form,
    right: &Form,
) -> Result<Value, WalkError>
    requires { setting.now.is_wide ≡ true }
    ensures { MatchResult result (λ v. Leads (followed path.old) (followed path.new) (differing_value (seen D.Domain setting.now) (kind_seen kind) (form_seen left.now) (form_seen right.now)) (value_seen v)) (λ e. Stops (followed path.old) e (differing_value (seen D.Domain setting.now) (kind_seen kind) (form_seen left.now) (form_seen right.now))) }
{
    let form = differ(setting, path, kind, left, right)?;
    Ok(Value { kind, form })
}

/// The value of the bits that one of two operands has: any number of the kind, but in the wide walk.
pub fn other_bits<D: Domain>(
    setting: &Setting<D>,
    path: &mut Path<D>,
    kind: Kind,
    left: &Form,
    right: &Form,
) -> Result<Value, WalkError>
    ensures { MatchResult result (λ v. Leads (followed path.old) (followed path.new) (operators.operate (seen D.Domain setting.now) BitXor (kind_seen kind) (form_seen left.now) (form_seen right.now)) (value_seen v)) (λ e. Stops (followed path.old) e (operators.operate (seen D.Domain setting.now) BitXor (kind_seen kind) (form_seen left.now) (form_seen right.now))) }
{
    if setting.is_wide {
        return differing_value(setting, path, kind, left, right);
    }
    unknown(setting, path, kind)
}
