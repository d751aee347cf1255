//! Remainders.

ghost use Rattle.std.specs.Prelude.{◌≡◌, pos, true, false, MatchResult};
ghost use Rattle.linear.specs.Exact.{fits};
ghost use Rattle.linear.specs.Forms.{form as form_seen};
ghost use Rattle.words.specs.View.{kind as kind_seen};
ghost use Rattle.semantics.specs.Word.{Remainder};
ghost use Rattle.facts.specs.Symbols.{constant, minus};
ghost use Rattle.walk_trees.specs.Operators as operators;
ghost use Rattle.walk_trees.specs.SharedQuotients as sharing;
ghost use Rattle.path_steps.specs.Leads.{Leads};
ghost use Rattle.path_steps.specs.Refusals.{Stops};
ghost use Rattle.path_steps.specs.View.{followed, maybe_shared, setting as seen, value as value_seen};

use domain::Domain;
use facts::WalkError;
use linear::Form;
use path_steps::{
    Path, Setting, Shared, Value, claim_dividend, claim_divisor, element_at, invent, left_by, share,
};
use words::Kind;

/// The remainder where one was found; else a new symbol with the domain's element of the remainder.
fn left_or_new<D: Domain>(
    setting: &Setting<D>,
    path: &mut Path<D>,
    shared: Option<Shared>,
    dividend: &Form,
    divisor: &Form,
) -> Result<Form, WalkError>
    ensures { MatchResult result (λ f. Leads (followed path.old) (followed path.new) (sharing.left_or_new (seen D.Domain setting.now) (maybe_shared shared) (form_seen dividend.now) (form_seen divisor.now)) (form_seen f)) (λ e. Stops (followed path.old) e (sharing.left_or_new (seen D.Domain setting.now) (maybe_shared shared) (form_seen dividend.now) (form_seen divisor.now))) }
{
    match shared {
        Some(shared) => Ok(shared.left),
        None => {
            let element = element_at(setting, path, dividend).rem(element_at(
                setting, path, divisor,
            ));
            invent(setting, path, element)
        }
    }
}

/// A remainder that is not exact: that of a shared quotient where it is by a form.
fn remaining_by_form<D: Domain>(
    setting: &Setting<D>,
    path: &mut Path<D>,
    kind: Kind,
    dividend: &Form,
    divisor: &Form,
) -> Result<Form, WalkError>
    requires { fits (minus (form_seen divisor.now) (constant (pos 1))) ≡ true }
    ensures { MatchResult result (λ f. Leads (followed path.old) (followed path.new) (operators.remaining (seen D.Domain setting.now) false (kind_seen kind) (form_seen dividend.now) (form_seen divisor.now)) (form_seen f)) (λ e. Stops (followed path.old) e (operators.remaining (seen D.Domain setting.now) false (kind_seen kind) (form_seen dividend.now) (form_seen divisor.now))) }
{
    let shared = share(setting, path, kind, dividend, divisor)?;
    left_or_new(setting, path, shared, dividend, divisor)
}

/// A remainder: exact where it is to be, or as it is by a form.
fn remaining<D: Domain>(
    setting: &Setting<D>,
    path: &mut Path<D>,
    exactly: bool,
    kind: Kind,
    dividend: &Form,
    divisor: &Form,
) -> Result<Form, WalkError>
    requires positive { exactly ≡ true → operators.is_positive (form_seen divisor.now) ≡ true }
    requires fit { fits (minus (form_seen divisor.now) (constant (pos 1))) ≡ true }
    ensures { MatchResult result (λ f. Leads (followed path.old) (followed path.new) (operators.remaining (seen D.Domain setting.now) exactly (kind_seen kind) (form_seen dividend.now) (form_seen divisor.now)) (form_seen f)) (λ e. Stops (followed path.old) e (operators.remaining (seen D.Domain setting.now) exactly (kind_seen kind) (form_seen dividend.now) (form_seen divisor.now))) }
{
    if exactly {
        let number = divisor.constant_part();
        return left_by(setting, path, kind, dividend, number);
    }
    remaining_by_form(setting, path, kind, dividend, divisor)
}

/// A remainder, behind the claims of its divisor and of its dividend.
pub fn remain<D: Domain>(
    setting: &Setting<D>,
    path: &mut Path<D>,
    kind: Kind,
    left: &Form,
    right: &Form,
) -> Result<Value, WalkError>
    ensures { MatchResult result (λ v. Leads (followed path.old) (followed path.new) (operators.operate (seen D.Domain setting.now) Remainder (kind_seen kind) (form_seen left.now) (form_seen right.now)) (value_seen v)) (λ e. Stops (followed path.old) e (operators.operate (seen D.Domain setting.now) Remainder (kind_seen kind) (form_seen left.now) (form_seen right.now))) }
{
    claim_divisor(setting, path, kind, left, right)?;
    let exactly = claim_dividend(setting, path, kind, left, right)?;
    let form = remaining(setting, path, exactly, kind, left, right)?;
    Ok(Value { kind, form })
}
