//! Quotients by numbers, and what they leave.

ghost use Rattle.std.specs.Prelude.{◌≡◌, ◌<ℤ◌, ◌-ℤ◌, pos, true, IfOk, MatchResult};
ghost use Rattle.linear.specs.Exact.{multiple};
ghost use Rattle.linear.specs.Forms.{form as form_seen};
ghost use Rattle.linear.specs.Sizes.{size};
ghost use Rattle.words.specs.View.{kind as kind_seen};
ghost use Rattle.facts.specs.Symbols.{constant, minus};
ghost use Rattle.facts.specs.Elements as elements;
ghost use Rattle.facts.specs.Refusals.{IsMemory, IsUnfit};
ghost use Rattle.walk_trees.specs.Walks as walks;
ghost use Rattle.walk_trees.specs.Quotients as quotients;
ghost use Rattle.path_steps.specs.Paths.{with_fact};
ghost use Rattle.path_steps.specs.Leads.{Leads, LeadsTwo};
ghost use Rattle.path_steps.specs.Refusals.{Stops, StopsTwo};
ghost use Rattle.path_steps.specs.View.{followed, setting as seen};

use crate::path::Path;
use crate::ranges::{any_of, invent};
use crate::setting::Setting;
use crate::tests::{copied, difference};
use domain::Domain;
use facts::{WalkError, between, number_less};
use linear::Form;
use std::alloc::Global;
use words::Kind;

/// A number of times a small form: it is made, but for memory.
pub fn times(alloc: Global, number: i64, of: &Form) -> Result<Form, WalkError>
    requires above { pos 0 <ℤ number }
    requires small { size (form_seen of.now) ≡ 1 }
    ensures { MatchResult result (λ f. form_seen f ≡ multiple number (form_seen of.now)) IsMemory }
{
    let form = of.times(alloc, number)?;
    Ok(form)
}

/// The remainder of a form by a number: the form less so many times its quotient.
fn left_over(alloc: Global, of: &Form, number: i64, quotient: &Form) -> Result<Form, WalkError>
    requires above { pos 0 <ℤ number }
    requires small { size (form_seen quotient.now) ≡ 1 }
    ensures { MatchResult result (λ f. form_seen f ≡ quotients.left_over (form_seen of.now) number (form_seen quotient.now)) (λ e. IsUnfit e (quotients.left_over (form_seen of.now) number (form_seen quotient.now))) }
{
    let part = times(alloc, number, quotient)?;
    difference(alloc, of, &part)
}

/// Adds the fact that the remainder of a form by a number is at least 0, and gives the remainder.
fn know_left<D: Copy>(
    alloc: Global,
    path: &mut Path<D>,
    of: &Form,
    number: i64,
    quotient: &Form,
) -> Result<Form, WalkError>
    requires above { pos 0 <ℤ number }
    requires small { size (form_seen quotient.now) ≡ 1 }
    ensures left { IfOk result (λ f. form_seen f ≡ quotients.left_over (form_seen of.now) number (form_seen quotient.now)) }
    ensures known { MatchResult result (λ _. followed path.new ≡ with_fact (followed path.old) (quotients.left_over (form_seen of.now) number (form_seen quotient.now))) (λ e. IsUnfit e (quotients.left_over (form_seen of.now) number (form_seen quotient.now))) }
{
    let left = left_over(alloc, of, number, quotient)?;
    path.know(copied(alloc, &left)?)?;
    Ok(left)
}

/// Adds the fact that a remainder is below the number.
fn know_under<D: Copy>(
    alloc: Global,
    path: &mut Path<D>,
    number: i64,
    left: &Form,
) -> Result<(), WalkError>
    requires { pos 0 <ℤ number }
    ensures { MatchResult result (λ _. followed path.new ≡ with_fact (followed path.old) (minus (constant (number -ℤ pos 1)) (form_seen left.now))) (λ e. IsUnfit e (minus (constant (number -ℤ pos 1)) (form_seen left.now))) }
{
    let fact = number_less(alloc, number - 1, left)?;
    path.know(fact)?;
    Ok(())
}

/// A form that is at least 0 by a number above 0: the quotient, a new symbol, and what it leaves.
pub fn sized_quotient<D: Domain>(
    setting: &Setting<D>,
    path: &mut Path<D>,
    kind: Kind,
    of: &Form,
    number: i64,
) -> Result<(Form, Form), WalkError>
    requires { pos 0 <ℤ number }
    ensures leads { MatchResult result (λ v. LeadsTwo (followed path.old) (followed path.new) (quotients.quotient (seen D.Domain setting.now) (kind_seen kind) (form_seen of.now) number) (form_seen v.0) (form_seen v.1)) (λ e. StopsTwo (followed path.old) e (quotients.quotient (seen D.Domain setting.now) (kind_seen kind) (form_seen of.now) number)) }
    ensures small { IfOk result (λ v. size (form_seen v.0) ≡ 1) }
{
    let quotient = invent(setting, path, any_of(kind))?;
    let left = know_left(setting.alloc, path, of, number, &quotient)?;
    know_under(setting.alloc, path, number, &left)?;
    Ok((quotient, left))
}

/// The same where nobody asks how large the quotient's form is.
pub fn quotient<D: Domain>(
    setting: &Setting<D>,
    path: &mut Path<D>,
    kind: Kind,
    of: &Form,
    number: i64,
) -> Result<(Form, Form), WalkError>
    requires { pos 0 <ℤ number }
    ensures { MatchResult result (λ v. LeadsTwo (followed path.old) (followed path.new) (quotients.quotient (seen D.Domain setting.now) (kind_seen kind) (form_seen of.now) number) (form_seen v.0) (form_seen v.1)) (λ e. StopsTwo (followed path.old) e (quotients.quotient (seen D.Domain setting.now) (kind_seen kind) (form_seen of.now) number)) }
{
    sized_quotient(setting, path, kind, of, number)
}

/// Adds the fact that one form is at least another.
fn know_order<D: Copy>(
    alloc: Global,
    path: &mut Path<D>,
    greater: &Form,
    lesser: &Form,
) -> Result<(), WalkError>
    ensures { MatchResult result (λ _. followed path.new ≡ with_fact (followed path.old) (minus (form_seen greater.now) (form_seen lesser.now))) (λ e. IsUnfit e (minus (form_seen greater.now) (form_seen lesser.now))) }
{
    let fact = difference(alloc, greater, lesser)?;
    path.know(fact)?;
    Ok(())
}

/// The numbers from 0 up to below a number.
fn up_to<D: Domain>(number: i64) -> D
    requires { pos 0 <ℤ number }
    ensures { result ≡ elements.between D.Domain (pos 0) (number -ℤ pos 1) }
{
    between(0, number - 1)
}

/// A new symbol, with this element, for the remainder of a quotient.
pub fn named_by<D: Domain>(
    setting: &Setting<D>,
    path: &mut Path<D>,
    element: D,
    left: &Form,
) -> Result<Form, WalkError>
    ensures leads { MatchResult result (λ f. Leads (followed path.old) (followed path.new) (quotients.named_by (seen D.Domain setting.now) element (form_seen left.now)) (form_seen f)) (λ e. Stops (followed path.old) e (quotients.named_by (seen D.Domain setting.now) element (form_seen left.now))) }
    ensures small { IfOk result (λ f. size (form_seen f) ≡ 1) }
    ensures bare { IfOk result (λ f. (form_seen f).constant ≡ pos 0) }
{
    let name = invent(setting, path, element)?;
    know_order(setting.alloc, path, left, &name)?;
    know_order(setting.alloc, path, &name, left)?;
    Ok(name)
}

/// A new symbol for the remainder of a quotient: from 0 up to below the number.
fn named<D: Domain>(
    setting: &Setting<D>,
    path: &mut Path<D>,
    number: i64,
    left: &Form,
) -> Result<Form, WalkError>
    requires { pos 0 <ℤ number }
    ensures leads { MatchResult result (λ f. Leads (followed path.old) (followed path.new) (quotients.named (seen D.Domain setting.now) number (form_seen left.now)) (form_seen f)) (λ e. Stops (followed path.old) e (quotients.named (seen D.Domain setting.now) number (form_seen left.now))) }
    ensures small { IfOk result (λ f. size (form_seen f) ≡ 1) }
    ensures bare { IfOk result (λ f. (form_seen f).constant ≡ pos 0) }
{
    named_by(setting, path, up_to(number), left)
}

/// A new symbol for the remainder of a form that is at least 0 by a number above 0.
pub fn name_left<D: Domain>(
    setting: &Setting<D>,
    path: &mut Path<D>,
    kind: Kind,
    of: &Form,
    number: i64,
) -> Result<Form, WalkError>
    requires above { pos 0 <ℤ number }
    requires wide { setting.now.is_wide ≡ true }
    ensures leads { MatchResult result (λ f. Leads (followed path.old) (followed path.new) (quotients.left_by (seen D.Domain setting.now) (kind_seen kind) (form_seen of.now) number) (form_seen f)) (λ e. Stops (followed path.old) e (quotients.left_by (seen D.Domain setting.now) (kind_seen kind) (form_seen of.now) number)) }
    ensures small { IfOk result (λ f. size (form_seen f) ≡ 1) }
    ensures bare { IfOk result (λ f. (form_seen f).constant ≡ pos 0) }
{
    let parts = quotient(setting, path, kind, of, number)?;
    named(setting, path, number, &parts.1)
}

/// The remainder of a form that is at least 0 by a number above 0. The wide walk names it.
pub fn left_by<D: Domain>(
    setting: &Setting<D>,
    path: &mut Path<D>,
    kind: Kind,
    of: &Form,
    number: i64,
) -> Result<Form, WalkError>
    requires { pos 0 <ℤ number }
    ensures { MatchResult result (λ f. Leads (followed path.old) (followed path.new) (quotients.left_by (seen D.Domain setting.now) (kind_seen kind) (form_seen of.now) number) (form_seen f)) (λ e. Stops (followed path.old) e (quotients.left_by (seen D.Domain setting.now) (kind_seen kind) (form_seen of.now) number)) }
{
    if setting.is_wide {
        return name_left(setting, path, kind, of, number);
    }
    let parts = quotient(setting, path, kind, of, number)?;
    Ok(parts.1)
}
