//! What is to be shown of divisors.

ghost use Rattle.std.specs.Prelude.{◌≡◌, ◌||◌, pos, negsuc, true, IfOk, MatchResult};
ghost use Rattle.linear.specs.Exact.{fits};
ghost use Rattle.linear.specs.Forms.{form as form_seen};
ghost use Rattle.words.specs.View.{kind as kind_seen};
ghost use Rattle.facts.specs.Symbols.{constant, minus};
ghost use Rattle.walk_trees.specs.Walks as walks;
ghost use Rattle.walk_trees.specs.Operators as operators;
ghost use Rattle.path_steps.specs.Divisors.{claim_nonzero, claim_overflow};
ghost use Rattle.path_steps.specs.Leads.{Steps};
ghost use Rattle.path_steps.specs.Refusals.{IsGoalUnfit, StopsAtStep};
ghost use Rattle.path_steps.specs.View.{followed, goal_seen, setting as seen};

use crate::bounds::bounds_of;
use crate::path::{Goal, Path, Sort};
use crate::setting::Setting;
use crate::tests::copied;
use domain::{Bounds, Domain};
use facts::{WalkError, less_number, number_less};
use linear::Form;
use std::alloc::Global;
use words::Kind;

/// The number 0 is below the low end or above the high one.
fn lacks_zero(bounds: Bounds) -> bool
    ensures { result ≡ operators.lacks bounds (pos 0) }
{
    let over = match bounds.low {
        Some(low) => 0 < low,
        None => false,
    };
    let under = match bounds.high {
        Some(high) => high < 0,
        None => false,
    };
    over || under
}

/// A divisor is at least 1, or at most -1.
fn divisor_goal(alloc: Global, divisor: &Form) -> Result<Goal, WalkError>
    ensures fit { IfOk result (λ _. fits (minus (form_seen divisor.now) (constant (pos 1))) ≡ true) }
    ensures goal { MatchResult result (λ g. goal_seen g ≡ operators.divisor_goal (form_seen divisor.now)) (λ e. IsGoalUnfit e (operators.divisor_goal (form_seen divisor.now))) }
{
    let positive = less_number(alloc, divisor, 1)?;
    let negative = number_less(alloc, -1, divisor)?;
    Ok(Goal::Either(positive, negative))
}

/// A claim that a divisor is not 0 (C99 6.5.5).
fn claim_nonzero<D: Domain>(
    setting: &Setting<D>,
    path: &mut Path<D>,
    divisor: &Form,
) -> Result<(), WalkError>
    ensures fit { IfOk result (λ _. fits (minus (form_seen divisor.now) (constant (pos 1))) ≡ true) }
    ensures steps { MatchResult result (λ _. Steps (followed path.old) (followed path.new) (claim_nonzero (seen D.Domain setting.now) (form_seen divisor.now))) (λ e. StopsAtStep (followed path.old) e (claim_nonzero (seen D.Domain setting.now) (form_seen divisor.now))) }
{
    let settled = lacks_zero(bounds_of(setting, path, divisor));
    let goal = divisor_goal(setting.alloc, divisor)?;
    path.claim(Sort::OfDivisor, true, settled, goal)?;
    Ok(())
}

/// The number -1 is below the low end or above the high one.
fn lacks_minus_one(bounds: Bounds) -> bool
    ensures { result ≡ operators.lacks bounds (negsuc 0) }
{
    let over = match bounds.low {
        Some(low) => -1 < low,
        None => false,
    };
    let under = match bounds.high {
        Some(high) => high < -1,
        None => false,
    };
    over || under
}

/// The ends leave out the least `int`.
fn lacks_least(bounds: Bounds) -> bool
    ensures { result ≡ operators.lacks bounds (negsuc 2147483647) }
{
    let over = match bounds.low {
        Some(low) => -2_147_483_648 < low,
        None => false,
    };
    let under = match bounds.high {
        Some(high) => high < -2_147_483_648,
        None => false,
    };
    over || under
}

/// The divisor is at least 0, or the dividend is above the least `int`.
fn quotient_goal(alloc: Global, dividend: &Form, divisor: &Form) -> Result<Goal, WalkError>
    ensures { MatchResult result (λ g. goal_seen g ≡ operators.quotient_goal (form_seen dividend.now) (form_seen divisor.now)) (λ e. IsGoalUnfit e (operators.quotient_goal (form_seen dividend.now) (form_seen divisor.now))) }
{
    let positive = copied(alloc, divisor)?;
    let negative = less_number(alloc, dividend, -2_147_483_647)?;
    Ok(Goal::Either(positive, negative))
}

/// The domain alone tells that the least `int` is not divided by -1.
fn is_quotient_settled<D: Domain>(
    setting: &Setting<D>,
    path: &Path<D>,
    dividend: &Form,
    divisor: &Form,
) -> bool
    ensures { result ≡ (operators.lacks (walks.bounds_of (seen D.Domain setting.now) (followed path.now).state (form_seen divisor.now)) (negsuc 0) || operators.lacks (walks.bounds_of (seen D.Domain setting.now) (followed path.now).state (form_seen dividend.now)) (negsuc 2147483647)) }
{
    lacks_minus_one(bounds_of(setting, path, divisor))
        || lacks_least(bounds_of(setting, path, dividend))
}

/// A claim that a quotient is an `int` (C99 6.5.5): the least one is not divided by -1.
fn claim_overflow<D: Domain>(
    setting: &Setting<D>,
    path: &mut Path<D>,
    dividend: &Form,
    divisor: &Form,
) -> Result<(), WalkError>
    ensures { MatchResult result (λ _. Steps (followed path.old) (followed path.new) (claim_overflow (seen D.Domain setting.now) (form_seen dividend.now) (form_seen divisor.now))) (λ e. StopsAtStep (followed path.old) e (claim_overflow (seen D.Domain setting.now) (form_seen dividend.now) (form_seen divisor.now))) }
{
    let settled = is_quotient_settled(setting, path, dividend, divisor);
    let goal = quotient_goal(setting.alloc, dividend, divisor)?;
    path.claim(Sort::OfQuotient, true, settled, goal)?;
    Ok(())
}

/// The claim of a quotient, which only an `int` has.
fn claim_quotient<D: Domain>(
    setting: &Setting<D>,
    path: &mut Path<D>,
    kind: Kind,
    dividend: &Form,
    divisor: &Form,
) -> Result<(), WalkError>
    ensures { MatchResult result (λ _. Steps (followed path.old) (followed path.new) (operators.claim_quotient (seen D.Domain setting.now) (kind_seen kind) (form_seen dividend.now) (form_seen divisor.now))) (λ e. StopsAtStep (followed path.old) e (operators.claim_quotient (seen D.Domain setting.now) (kind_seen kind) (form_seen dividend.now) (form_seen divisor.now))) }
{
    match kind {
        Kind::Int => claim_overflow(setting, path, dividend, divisor),
        Kind::Uint | Kind::Size => Ok(()),
    }
}

/// The claims of a division: that of its divisor, then that of its quotient. The first was of `i64`.
pub fn claim_divisor<D: Domain>(
    setting: &Setting<D>,
    path: &mut Path<D>,
    kind: Kind,
    dividend: &Form,
    divisor: &Form,
) -> Result<(), WalkError>
    ensures fit { IfOk result (λ _. fits (minus (form_seen divisor.now) (constant (pos 1))) ≡ true) }
    ensures steps { MatchResult result (λ _. Steps (followed path.old) (followed path.new) (operators.claim_divisor (seen D.Domain setting.now) (kind_seen kind) (form_seen dividend.now) (form_seen divisor.now))) (λ e. StopsAtStep (followed path.old) e (operators.claim_divisor (seen D.Domain setting.now) (kind_seen kind) (form_seen dividend.now) (form_seen divisor.now))) }
{
    claim_nonzero(setting, path, divisor)?;
    claim_quotient(setting, path, kind, dividend, divisor)
}
