//! Whether a quotient is exact, and what is to be shown of its dividend.

ghost use Rattle.std.specs.Prelude.{◌≡◌, ◌+◌, true, IfOk, MatchResult};
ghost use Rattle.linear.specs.Forms.{form as form_seen};
ghost use Rattle.words.specs.View.{kind as kind_seen};
ghost use Rattle.walk_trees.specs.Operators as operators;
ghost use Rattle.path_steps.specs.Divisors.{claim_natural, is_from_zero};
ghost use Rattle.path_steps.specs.Leads.{Leads};
ghost use Rattle.path_steps.specs.Refusals.{Stops};
ghost use Rattle.path_steps.specs.View.{followed, setting as seen};

use crate::bounds::is_natural;
use crate::held::settles;
use crate::path::{Path, Sort};
use crate::ranges::{claim_form, has_entry};
use crate::setting::Setting;
use crate::tests::{copied, is_number};
use domain::Domain;
use facts::WalkError;
use linear::Form;
use words::Kind;

/// A form is a number above 0.
pub fn is_positive(form: &Form) -> bool
    ensures { result ≡ operators.is_positive (form_seen form.now) }
{
    is_number(form) && 0 < form.constant_part()
}

/// A dividend is known to be at least 0; in the wide walk a `uint` is.
fn is_from_zero<D: Domain>(setting: &Setting<D>, path: &Path<D>, kind: Kind, form: &Form) -> bool
    ensures { result ≡ is_from_zero (seen D.Domain setting.now) (followed path.now).state (kind_seen kind) (form_seen form.now) }
{
    (setting.is_wide && kind == Kind::Uint) || settles(setting, path, form)
}

/// A quotient is exact: the divisor is a number above 0, and the dividend is known to be at least 0.
pub fn is_exact<D: Domain>(
    setting: &Setting<D>,
    path: &Path<D>,
    kind: Kind,
    dividend: &Form,
    divisor: &Form,
) -> bool
    ensures { result ≡ operators.is_exact (seen D.Domain setting.now) (followed path.now).state (kind_seen kind) (form_seen dividend.now) (form_seen divisor.now) }
{
    is_positive(divisor) && is_from_zero(setting, path, kind, dividend)
}

/// The wide walk asks of an `int` that is divided by a number above 0, and may be negative, whether its entry shows that it is not.
pub fn asks_dividend<D: Domain>(
    setting: &Setting<D>,
    path: &Path<D>,
    kind: Kind,
    dividend: &Form,
    divisor: &Form,
) -> bool
    ensures { result ≡ operators.asks_dividend (seen D.Domain setting.now) (followed path.now).state (kind_seen kind) (form_seen dividend.now) (form_seen divisor.now) }
{
    setting.is_wide && (is_positive(divisor) && !is_natural(setting, path, kind, dividend))
}

#[tactic(auto, unfolding(crate::specs::View::followed))]
/// The next claim on the path has an entry.
fn has_next_entry<D: Domain>(setting: &Setting<D>, path: &Path<D>) -> bool
    ensures { result ≡ (seen D.Domain setting.now).has_entry ((followed path.now).state.claims + 1) }
{
    has_entry(setting, path.count as usize + 1)
}

/// A claim that a form is not negative, which is needed where it has an entry, and whether it has.
fn claim_natural<D: Domain>(
    setting: &Setting<D>,
    path: &mut Path<D>,
    form: &Form,
) -> Result<bool, WalkError>
    ensures { MatchResult result (λ b. Leads (followed path.old) (followed path.new) (claim_natural (seen D.Domain setting.now) (form_seen form.now)) b) (λ e. Stops (followed path.old) e (claim_natural (seen D.Domain setting.now) (form_seen form.now))) }
{
    let needed = has_next_entry(setting, path);
    let natural = copied(setting.alloc, form)?;
    claim_form(setting, path, Sort::OfRange(Kind::Uint), needed, natural)?;
    Ok(needed)
}

/// Whether a quotient is exact, behind the claim of its dividend if it is asked. Then the divisor is a number above 0.
pub fn claim_dividend<D: Domain>(
    setting: &Setting<D>,
    path: &mut Path<D>,
    kind: Kind,
    dividend: &Form,
    divisor: &Form,
) -> Result<bool, WalkError>
    ensures leads { MatchResult result (λ b. Leads (followed path.old) (followed path.new) (operators.claim_dividend (seen D.Domain setting.now) (kind_seen kind) (form_seen dividend.now) (form_seen divisor.now)) b) (λ e. Stops (followed path.old) e (operators.claim_dividend (seen D.Domain setting.now) (kind_seen kind) (form_seen dividend.now) (form_seen divisor.now))) }
    ensures positive { IfOk result (λ b. b ≡ true → operators.is_positive (form_seen divisor.now) ≡ true) }
{
    if asks_dividend(setting, path, kind, dividend, divisor) {
        return claim_natural(setting, path, dividend);
    }
    Ok(is_exact(setting, path, kind, dividend, divisor))
}
