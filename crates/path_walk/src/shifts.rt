//! Shifts by a count.

ghost use Rattle.std.specs.Prelude.{◌≤◌, ◌^◌, pos, MatchResult};
ghost use Rattle.linear.specs.Exact.{multiple};
ghost use Rattle.linear.specs.Forms.{form as form_seen};
ghost use Rattle.words.specs.View.{kind as kind_seen};
ghost use Rattle.semantics.specs.Word.{Uint};
ghost use Rattle.walk_trees.specs.Walks as walks;
ghost use Rattle.walk_trees.specs.Operators as operators;
ghost use Rattle.path_steps.specs.Leads.{Leads};
ghost use Rattle.path_steps.specs.Refusals.{Stops};
ghost use Rattle.path_steps.specs.View.{followed, setting as seen, value as value_seen};

use crate::dividing::quotient_alone;
use crate::powers::power_of;
use domain::Domain;
use facts::WalkError;
use linear::Form;
use path_steps::{Path, Setting, Value, ranged_product, unknown};
use words::Kind;

/// A form times a power of 2, in its kind.
pub fn shifted_left<D: Domain>(
    setting: &Setting<D>,
    path: &mut Path<D>,
    kind: Kind,
    of: &Form,
    count: u32,
) -> Result<Value, WalkError>
    requires { count ≤ 31 }
    ensures { MatchResult result (λ v. Leads (followed path.old) (followed path.new) (walks.ranged (seen D.Domain setting.now) (kind_seen kind) (multiple (pos (2 ^ count)) (form_seen of.now))) (value_seen v)) (λ e. Stops (followed path.old) e (walks.ranged (seen D.Domain setting.now) (kind_seen kind) (multiple (pos (2 ^ count)) (form_seen of.now)))) }
{
    let factor = Form::constant(setting.alloc, power_of(count));
    ranged_product(setting, path, kind, of, &factor)
}

/// The quotient by a power of 2, which is a form of this kind.
fn halved<D: Domain>(
    setting: &Setting<D>,
    path: &mut Path<D>,
    kind: Kind,
    of: &Form,
    count: u32,
) -> Result<Value, WalkError>
    requires { count ≤ 31 }
    ensures { MatchResult result (λ v. Leads (followed path.old) (followed path.new) (operators.shifted (seen D.Domain setting.now) Uint (kind_seen kind) (form_seen of.now) count) (value_seen v)) (λ e. Stops (followed path.old) e (operators.shifted (seen D.Domain setting.now) Uint (kind_seen kind) (form_seen of.now) count)) }
{
    let divisor = power_of(count);
    let form = quotient_alone(setting, path, kind, of, divisor)?;
    Ok(Value { kind, form })
}

/// The value of a shift to the right: of a `uint` or a size the quotient by a power of 2, else any number of the kind.
pub fn shifted_right<D: Domain>(
    setting: &Setting<D>,
    path: &mut Path<D>,
    from: Kind,
    kind: Kind,
    of: &Form,
    count: u32,
) -> Result<Value, WalkError>
    requires { count ≤ 31 }
    ensures { MatchResult result (λ v. Leads (followed path.old) (followed path.new) (operators.shifted (seen D.Domain setting.now) (kind_seen from) (kind_seen kind) (form_seen of.now) count) (value_seen v)) (λ e. Stops (followed path.old) e (operators.shifted (seen D.Domain setting.now) (kind_seen from) (kind_seen kind) (form_seen of.now) count)) }
{
    match from {
        Kind::Uint | Kind::Size => halved(setting, path, kind, of, count),
        Kind::Int => unknown(setting, path, kind),
    }
}
