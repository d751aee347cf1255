//! Quotients.

ghost use Rattle.std.specs.Prelude.{◌≡◌, ◌<ℤ◌, pos, true, false, MatchResult};
ghost use Rattle.linear.specs.Exact.{fits};
ghost use Rattle.linear.specs.Forms.{form as form_seen};
ghost use Rattle.words.specs.View.{kind as kind_seen};
ghost use Rattle.semantics.specs.Word.{Divide};
ghost use Rattle.facts.specs.Symbols.{constant, minus};
ghost use Rattle.walk_trees.specs.Operators as operators;
ghost use Rattle.walk_trees.specs.SharedQuotients as sharing;
ghost use Rattle.path_steps.specs.Leads.{Leads};
ghost use Rattle.path_steps.specs.Refusals.{Stops};
ghost use Rattle.path_steps.specs.View.{followed, maybe_shared, setting as seen, value as value_seen};
ghost use Rattle.path_walk.specs.OperatorSteps.{quotient_alone};

use domain::Domain;
use facts::WalkError;
use linear::Form;
use path_steps::{
    Path, Setting, Shared, Value, claim_dividend, claim_divisor, element_at, invent, quotient,
    share,
};
use words::Kind;

/// The quotient of a form that is at least 0 by a number above 0.
pub fn quotient_alone<D: Domain>(
    setting: &Setting<D>,
    path: &mut Path<D>,
    kind: Kind,
    of: &Form,
    number: i64,
) -> Result<Form, WalkError>
    requires { pos 0 <ℤ number }
    ensures { MatchResult result (λ f. Leads (followed path.old) (followed path.new) (quotient_alone (seen D.Domain setting.now) (kind_seen kind) (form_seen of.now) number) (form_seen f)) (λ e. Stops (followed path.old) e (quotient_alone (seen D.Domain setting.now) (kind_seen kind) (form_seen of.now) number)) }
{
    let parts = quotient(setting, path, kind, of, number)?;
    Ok(parts.0)
}

/// The quotient where one was found; else a new symbol with the domain's element of the quotient.
fn quotient_or_new<D: Domain>(
    setting: &Setting<D>,
    path: &mut Path<D>,
    shared: Option<Shared>,
    dividend: &Form,
    divisor: &Form,
) -> Result<Form, WalkError>
    ensures { MatchResult result (λ f. Leads (followed path.old) (followed path.new) (sharing.quotient_or_new (seen D.Domain setting.now) (maybe_shared shared) (form_seen dividend.now) (form_seen divisor.now)) (form_seen f)) (λ e. Stops (followed path.old) e (sharing.quotient_or_new (seen D.Domain setting.now) (maybe_shared shared) (form_seen dividend.now) (form_seen divisor.now))) }
{
    match shared {
        Some(shared) => Ok(shared.quotient),
        None => {
            let element = element_at(setting, path, dividend).div(element_at(
                setting, path, divisor,
            ));
            invent(setting, path, element)
        }
    }
}

/// A quotient that is not exact: shared where it is by a form.
fn divided_by_form<D: Domain>(
    setting: &Setting<D>,
    path: &mut Path<D>,
    kind: Kind,
    dividend: &Form,
    divisor: &Form,
) -> Result<Form, WalkError>
    requires { fits (minus (form_seen divisor.now) (constant (pos 1))) ≡ true }
    ensures { MatchResult result (λ f. Leads (followed path.old) (followed path.new) (operators.divided (seen D.Domain setting.now) false (kind_seen kind) (form_seen dividend.now) (form_seen divisor.now)) (form_seen f)) (λ e. Stops (followed path.old) e (operators.divided (seen D.Domain setting.now) false (kind_seen kind) (form_seen dividend.now) (form_seen divisor.now))) }
{
    let shared = share(setting, path, kind, dividend, divisor)?;
    quotient_or_new(setting, path, shared, dividend, divisor)
}

/// A quotient: exact where it is to be, or as it is by a form.
fn divided<D: Domain>(
    setting: &Setting<D>,
    path: &mut Path<D>,
    exactly: bool,
    kind: Kind,
    dividend: &Form,
    divisor: &Form,
) -> Result<Form, WalkError>
    requires positive { exactly ≡ true → operators.is_positive (form_seen divisor.now) ≡ true }
    requires fit { fits (minus (form_seen divisor.now) (constant (pos 1))) ≡ true }
    ensures { MatchResult result (λ f. Leads (followed path.old) (followed path.new) (operators.divided (seen D.Domain setting.now) exactly (kind_seen kind) (form_seen dividend.now) (form_seen divisor.now)) (form_seen f)) (λ e. Stops (followed path.old) e (operators.divided (seen D.Domain setting.now) exactly (kind_seen kind) (form_seen dividend.now) (form_seen divisor.now))) }
{
    if exactly {
        let number = divisor.constant_part();
        return quotient_alone(setting, path, kind, dividend, number);
    }
    divided_by_form(setting, path, kind, dividend, divisor)
}

/// A quotient, behind the claims of its divisor and of its dividend.
pub fn divide<D: Domain>(
    setting: &Setting<D>,
    path: &mut Path<D>,
    kind: Kind,
    left: &Form,
    right: &Form,
) -> Result<Value, WalkError>
    ensures { MatchResult result (λ v. Leads (followed path.old) (followed path.new) (operators.operate (seen D.Domain setting.now) Divide (kind_seen kind) (form_seen left.now) (form_seen right.now)) (value_seen v)) (λ e. Stops (followed path.old) e (operators.operate (seen D.Domain setting.now) Divide (kind_seen kind) (form_seen left.now) (form_seen right.now))) }
{
    claim_divisor(setting, path, kind, left, right)?;
    let exactly = claim_dividend(setting, path, kind, left, right)?;
    let form = divided(setting, path, exactly, kind, left, right)?;
    Ok(Value { kind, form })
}
